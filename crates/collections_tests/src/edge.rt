//! What no clause says: that calls succeed, and what the adapters do over real files and writers.

use par_edge::{
    FolderShelf, Gate, MemoryShelf, MemorySink, Named, OpenGate, ReadStop, Shelf, Sink, StdSink,
    read_whole, write_whole,
};
use par_laws::{Memory, Words};
use std::alloc::Global;
use std::fs;
use std::io::{self, Write};
use std::test::Fail;

const ROWS: &str = "x\n0\n3\n6\n9\n";

/// Two files by the name of `p`, of which the first counts, and an empty one, in pieces of 4 bytes.
fn shelf(alloc: Global, fails: u64) -> Result<MemoryShelf, Memory> {
    let mut files = Vec::new(alloc);
    for (name, text) in [("p", ROWS), ("p", "hidden"), ("empty", "")] {
        files.push(Named {
            name: Words::from_text(alloc, name)?,
            bytes: text.as_bytes().to_vec(alloc)?,
        })?;
    }
    Ok(MemoryShelf::new(files, 4, [fails].to_vec(alloc)?))
}

#[test]
fn reads_files_of_memory(rt: HostRuntime) -> Result<(), Fail> {
    let alloc = rt.alloc();
    // The file, the limit and the number of the call that fails; what comes, or why it stops.
    let cases = [
        ("p", 10, 9, ROWS, None),
        ("p", 10, 4, "", Some(ReadStop::Failed)),
        ("p", 9, 9, "", Some(ReadStop::TooLong)),
        ("p", 9, 3, "", Some(ReadStop::Failed)),
        ("p", u64::MAX, 9, ROWS, None),
        ("empty", 0, 9, "", None),
        ("missing", 10, 9, "", Some(ReadStop::Failed)),
    ];
    for (name, limit, fails, text, stop) in cases {
        let mut shelf = shelf(alloc, fails)?;
        match read_whole(alloc, &mut shelf, name, limit) {
            Ok(bytes) => assert!(rt;
                stop.is_none() && bytes.as_slice() == text.as_bytes(),
                "{name} {limit}"
            ),
            Err(why) => assert_eq!(rt; Some(why), stop, "{name} {limit}"),
        }
    }
    Ok(())
}

#[test]
fn writes_into_memory(rt: HostRuntime) -> Result<(), Fail> {
    let alloc = rt.alloc();
    // The room and the number of the call that fails, in pieces of 4 bytes; what is there at the end.
    let cases = [
        (10, 9, ROWS),
        (10, 2, "x\n0\n"),
        (10, 1, ""),
        (6, 9, "x\n0\n3\n"),
    ];
    for (room, fails, text) in cases {
        let mut sink = MemorySink::new(alloc, room, 4, [fails].to_vec(alloc)?)?;
        let done = write_whole(&mut sink, ROWS.as_bytes());
        assert_eq!(rt; done.is_ok(), text == ROWS, "{room} {fails}");
        assert_eq!(rt; sink.bytes(), text.as_bytes(), "{room} {fails}");
        assert!(rt; write_whole(&mut sink, b"").is_ok());
    }
    Ok(())
}

#[test]
fn reads_files_of_the_system(rt: HostRuntime) -> Result<(), Fail> {
    fs::create_dir(&rt, "folder")?;
    fs::write(&rt, "rows.txt", ROWS)?;
    fs::write(&rt, "folder/inside", "kept")?;
    let mut shelf = FolderShelf::new(&rt);

    // On in a file, over to another, back again, past the end; and what can't be read.
    let reads = [
        ("rows.txt", 0, Some("x\n0\n")),
        ("rows.txt", 4, Some("3\n6\n")),
        ("folder/inside", 1, Some("ept")),
        ("rows.txt", 8, Some("9\n")),
        ("rows.txt", 2, Some("0\n3\n")),
        ("rows.txt", 99, Some("")),
        ("missing", 0, None),
        ("folder", 0, None),
        ("rows.txt/inside", 0, None),
    ];
    for (name, from, text) in reads {
        let mut buffer = [0; 4];
        match shelf.read(name, from, &mut buffer) {
            Ok(count) => assert_eq!(rt;
                Some(&buffer[..count]),
                text.map(str::as_bytes),
                "{name} {from}"
            ),
            Err(_) => assert!(rt; text.is_none(), "{name} {from}"),
        }
    }
    let rows = read_whole(rt.alloc(), &mut shelf, "rows.txt", 10)?;
    assert_eq!(rt; rows.as_slice(), ROWS.as_bytes());
    Ok(())
}

/// A writer that takes at most so many bytes a call, and whose flush may fail.
#[derive(Drop)]
struct Pipe<'a> {
    kept: &'a mut Vec<u8>,
    takes: usize,
    flushes: bool,
}

impl Write for Pipe<'_> {
    fn write(&mut self, buf: &[u8]) -> io::Result<usize> {
        let count = buf.len().min(self.takes);
        self.kept.extend_from_slice(&buf[..count])?;
        Ok(count)
    }

    fn flush(&mut self) -> io::Result<()> {
        if self.flushes {
            Ok(())
        } else {
            Err(io::Error::from(io::ErrorKind::BrokenPipe))
        }
    }
}

#[test]
fn writes_through_and_flushes(rt: HostRuntime) -> Result<(), Fail> {
    let alloc = rt.alloc();
    // How many bytes the writer takes a call and whether it flushes; what comes through.
    let cases = [(3, true, ROWS), (0, true, ""), (3, false, "x\n0")];
    for (takes, flushes, text) in cases {
        let mut kept = Vec::new(alloc);
        let mut sink = StdSink::new(Pipe {
            kept: &mut kept,
            takes,
            flushes,
        });
        let done = write_whole(&mut sink, ROWS.as_bytes());
        assert_eq!(rt; done.is_ok(), text == ROWS, "{takes} {flushes}");
        assert_eq!(rt; kept.as_slice(), text.as_bytes(), "{takes} {flushes}");
    }
    let mut stdout = StdSink::new(rt.stdout());
    write_whole(&mut stdout, b"")?;
    OpenGate.begin(0, 1, 0, 1);
    Ok(())
}

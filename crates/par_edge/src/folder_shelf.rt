ghost use Rattle.std.specs.Prelude.{◌≡◌, ◌<◌, ◌≤◌, ◌↔◌, IfOk, IsErr, IsTrue, length};

use crate::{Failed, Shelf};
use std::fs;
use std::io::{self, Read, Seek, SeekFrom};
use std::marker::Model;
use std::rt::Files;

/// The longest name that the system opens, in bytes.
const LONGEST_NAME: usize = 4_095;

/// The shelf over the files of the system, where a name is a path. It tells no content.
///
/// Each error is a fault: a missing or unreadable file, a folder, a read that fails. The file that
/// was read last stays open, so that reads one after the other cost no more than their bytes.
#[derive(Drop)]
pub struct FolderShelf<'r, R: Files> {
    rt: &'r R,
    last: Option<Opened<R::File>>,
    faults: u64,
    given: u64,
}

impl<'r, R: Files> FolderShelf<'r, R> {
    /// A shelf with no file open. Takes no memory.
    pub fn new(rt: &'r R) -> FolderShelf<'r, R>
        ensures { ⟦<FolderShelf<'r, R> as Shelf>⟧.state result ≡ record { files = None; faults = 0; given = 0 } }
    {
        FolderShelf {
            rt,
            last: None,
            faults: 0,
            given: 0,
        }
    }

    /// Reads by the open file where it has this name, and else opens the file first.
    fn fetch(&mut self, name: &str, from: u64, buf: &mut [u8]) -> io::Result<usize>
        ensures fits { IfOk result (λ count. count ≤ length buf.old) }
        ensures faults { self.new.faults ≡ self.old.faults }
        ensures given { self.new.given ≡ self.old.given }
    {
        match &mut self.last {
            Some(opened) if opened.name.is(name) => opened.read_at(from, buf),
            _ => {
                let mut opened = Opened {
                    name: Name::of(name)?,
                    file: fs::open(self.rt, name)?,
                    place: 0,
                };
                let count = opened.read_at(from, buf)?;
                self.last = Some(opened);
                Ok(count)
            }
        }
    }
}

impl<'r, R: Files> Shelf for FolderShelf<'r, R> {
    ghost use Rattle.std.specs.Prelude.{None};

    ghost state = { λ s. record { files = None; faults = s.faults; given = s.given } };

    fn read(&mut self, name: &str, from: u64, buf: &mut [u8]) -> Result<usize, Failed> {
        match self.fetch(name, from, buf) {
            Ok(count) => {
                self.given = self.given.saturating_add(count as u64);
                Ok(count)
            }
            Err(_) => {
                self.faults = self.faults.saturating_add(1);
                Err(Failed)
            }
        }
    }
}

/// An open file, its name, and the place of its next byte.
#[derive(Drop)]
struct Opened<F: Drop> {
    name: Name,
    file: F,
    place: u64,
}

impl<F: Read + Seek + Drop> Opened<F> {
    /// Reads from byte `from` on, and moves there first where the file stands elsewhere.
    fn read_at(&mut self, from: u64, buf: &mut [u8]) -> io::Result<usize>
        ensures { IfOk result (λ count. count ≤ length buf.old) }
    {
        if self.place != from {
            self.place = self.file.seek(SeekFrom::Start(from))?;
        }
        let count = self.file.read(buf)?;
        self.place = from.saturating_add(count as u64);
        Ok(count)
    }
}

/// The name of a file, at most as long as the system allows. Contracts see its bytes.
#[derive(Drop)]
struct Name {
    bytes: [u8; LONGEST_NAME],
    len: usize,
}

impl Model for Name {
    ghost use Rattle.std.specs.Prelude.{List, ℕ, ◌≤◌, take};

    ghost Value = { List ℕ };

    ghost view = { λ n. take n.len n.bytes };

    ghost invariant = { λ n. n.len ≤ 4095 };
}

impl Name {
    /// Refuses a name that the system would refuse for its length.
    fn of(name: &str) -> io::Result<Name>
        ensures same { IfOk result (λ kept. kept ≡ name.now) }
        ensures too_long { IsErr result ↔ (LONGEST_NAME < length name.now) }
    {
        if name.len() > LONGEST_NAME {
            return Err(io::Error::from(io::ErrorKind::InvalidFilename));
        }
        let mut bytes = [0; LONGEST_NAME];
        bytes[..name.len()].copy_from_slice(name.as_bytes());
        Ok(Name {
            bytes,
            len: name.len(),
        })
    }

    fn is(&self, name: &str) -> bool
        ensures { IsTrue result ↔ (self.now ≡ name.now) }
    {
        &self.bytes[..self.len] == name.as_bytes()
    }
}

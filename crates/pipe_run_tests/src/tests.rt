//! What no clause says: that a run succeeds where there is memory, over files and sinks in memory.

ghost use Rattle.std.specs.Prelude.{◌≤◌};

use par_edge::{MemoryShelf, MemorySink, Named, OpenGate};
use par_laws::{Memory, Words};
use pipe_run::{Counted, Outcome, parcoll, status};
use std::alloc::Global;
use std::sync::Wait;
use std::test::Fail;
use std::thread::Threads;

const EVERY_THIRD: &str = "from range 0 until 10 by 1\nfilter x % 3 = 0\nsize\n";

const THIRDS: &str = "from range 0 until 10 by 1\nfilter x % 3 = 0\nprint\n";

const CANONICAL: &str = "from range 0 until 10 by 1\npar array\nfilter x % 3 = 0\nsize\n";

const SUM: &str = "from csv v:int\nsum v\n";

const BIG: &str = "v\n9223372036854775807\n1\n";

const WRAPPED: &str = "-9223372036854775808\n";

const QUOTIENTS: &str = "pipeline 2\nfrom csv v:int\nmap q = 6 / v\nprint\n";

const USAGE: &str =
    "usage: parcoll run PIPE [DATA] [--workers N] [--level N] [--audit] | check PIPE | gen SEED N\n";

const READ_FAILED: &str = "parcoll: read failed\n";

const WRITE_FAILED: &str = "parcoll: write failed\n";

// A shelf that holds a pipeline under the name `p` and data under the name `d`, and gives at most `piece` bytes a call.
pub(crate) fn shelf(
    alloc: Global,
    pipe: &str,
    data: &str,
    piece: u32,
    fails: u64,
) -> Result<MemoryShelf, Memory>
    requires { 1 ≤ piece }
{
    let mut files = Vec::new(alloc);
    for (name, text) in [("p", pipe), ("d", data)] {
        files.push(Named {
            name: Words::from_text(alloc, name)?,
            bytes: text.as_bytes().to_vec(alloc)?,
        })?;
    }
    Ok(MemoryShelf::new(files, piece, [fails].to_vec(alloc)?))
}

pub(crate) fn owned(alloc: Global, texts: &[&str]) -> Result<Vec<String>, Memory> {
    let mut words = Vec::new(alloc);
    for text in texts {
        words.push(String::from_str(alloc, text)?)?;
    }
    Ok(words)
}

/// A call of the program, and what it shall end with.
#[derive(Clone, Copy)]
struct Case<'a> {
    words: &'a [&'a str],
    pipe: &'a str,
    data: &'a str,
    /// Which read, which write to the output and which write to the errors fails; 0 for none.
    fails: [u64; 3],
    status: u8,
    out: &'a str,
    err: &'a str,
}

// A run over a pipeline with nothing that fails.
fn runs<'a>(pipe: &'a str, data: &'a str, out: &'a str) -> Case<'a> {
    Case {
        words: &["run", "p", "d"],
        pipe,
        data,
        fails: [0, 0, 0],
        status: 0,
        out,
        err: "",
    }
}

// A run that is refused with this line.
fn refused<'a>(pipe: &'a str, data: &'a str, status: u8, err: &'a str) -> Case<'a> {
    Case {
        words: &["run", "p", "d"],
        pipe,
        data,
        fails: [0, 0, 0],
        status,
        out: "",
        err,
    }
}

// A run over the pipeline that keeps every third, where these calls fail.
fn failing<'a>(fails: [u64; 3], status: u8, out: &'a str, err: &'a str) -> Case<'a> {
    Case {
        words: &["run", "p"],
        pipe: THIRDS,
        data: "",
        fails,
        status,
        out,
        err,
    }
}

fn ends_as_told<X: Threads + Wait + Sync>(
    rt: &X,
    alloc: Global,
    case: &Case<'_>,
    piece: u32,
) -> Result<bool, Memory>
    requires { 1 ≤ piece }
{
    let [read, write, said] = case.fails;
    let words = owned(alloc, case.words)?;
    let mut shelf = shelf(alloc, case.pipe, case.data, piece, read)?;
    let mut out = MemorySink::new(alloc, 4096, 4, [write].to_vec(alloc)?)?;
    let mut err = MemorySink::new(alloc, 128, 128, [said].to_vec(alloc)?)?;
    let got = parcoll(rt, alloc, &words, &mut shelf, &mut out, &mut err, &OpenGate);
    Ok(
        got == case.status
            && out.bytes() == case.out.as_bytes()
            && err.bytes() == case.err.as_bytes(),
    )
}

// The calls of one table, each with shelves that give 64 bytes a call and one.
fn all_end_as_told<X: Threads + Wait + Sync>(
    rt: &X,
    alloc: Global,
    cases: &[Case<'_>],
) -> Result<Option<usize>, Memory> {
    for (place, case) in cases.iter().enumerate() {
        if !ends_as_told(rt, alloc, case, 64)? {
            return Ok(Some(place));
        }
        if case.fails[0] == 0 && !ends_as_told(rt, alloc, case, 1)? {
            return Ok(Some(place));
        }
    }
    Ok(None)
}

#[test]
fn answers(rt: HostRuntime) -> Result<(), Fail> {
    let cases = [
        runs(EVERY_THIRD, "", "4\n"),
        runs(THIRDS, "", "x\n0\n3\n6\n9\n"),
        runs(SUM, BIG, WRAPPED),
        runs(QUOTIENTS, "v\n4\n-4\n", "q\n1\n-1\n"),
        runs(
            "from csv t:text\nmkString t \"+\"\n",
            "t\na\n\"b,c\"\n",
            "a+b,c\n",
        ),
        Case {
            words: &["check", "p"],
            ..runs(EVERY_THIRD, "", CANONICAL)
        },
        Case {
            words: &["--level", "1", "run", "--audit", "p"],
            ..runs(
                EVERY_THIRD,
                "",
                "4\nstage 2 filter items 10 leaves 1\nleaf 1 0 10 seat 0 turn 0 flag 10 tested 10\n",
            )
        },
    ];
    assert_eq!(rt; all_end_as_told(&rt, rt.alloc(), &cases)?, None);
    Ok(())
}

#[test]
fn refusals(rt: HostRuntime) -> Result<(), Fail> {
    let cases = [
        Case {
            words: &["run"],
            ..refused(EVERY_THIRD, "", 2, USAGE)
        },
        Case {
            words: &["check", "p", "d"],
            ..refused(EVERY_THIRD, "", 2, USAGE)
        },
        Case {
            words: &["run", "p"],
            ..refused(SUM, "", 3, "parcoll: pipeline line 1: nodata\n")
        },
        refused("", "", 3, "parcoll: pipeline line 1: end\n"),
        refused(
            "from csv v:int\n\ndistinct\nsize\n",
            "",
            3,
            "parcoll: pipeline line 3: unbuilt\n",
        ),
        refused(SUM, "", 4, "parcoll: data record 0: header\n"),
        refused(SUM, "v\n1\nx\n", 4, "parcoll: data record 2: number\n"),
        refused(
            "from range 0 until 4194305 by 1\nsize\n",
            "",
            7,
            "parcoll: limit: range items 4194305 over 4194304\n",
        ),
        refused(QUOTIENTS, "v\n1\n0\n", 9, "parcoll: stage 2 row 1: zero\n"),
    ];
    assert_eq!(rt; all_end_as_told(&rt, rt.alloc(), &cases)?, None);
    Ok(())
}

#[test]
fn calls_that_fail(rt: HostRuntime) -> Result<(), Fail> {
    let cases = [
        failing([1, 0, 0], 5, "", READ_FAILED),
        failing([2, 0, 0], 5, "", READ_FAILED),
        failing([9, 0, 0], 0, "x\n0\n3\n6\n9\n", ""),
        failing([0, 1, 0], 6, "", WRITE_FAILED),
        failing([0, 2, 0], 6, "x\n0\n", WRITE_FAILED),
        failing([1, 0, 1], 5, "", ""),
        Case {
            words: &["run", "p", "d"],
            pipe: SUM,
            data: BIG,
            ..failing([3, 0, 0], 5, "", READ_FAILED)
        },
        Case {
            words: &["run", "q"],
            ..failing([0, 0, 0], 5, "", READ_FAILED)
        },
        Case {
            pipe: "size\n",
            ..failing([0, 0, 2], 3, "", "parcoll: pipeline line ")
        },
    ];
    assert_eq!(rt; all_end_as_told(&rt, rt.alloc(), &cases)?, None);
    Ok(())
}

#[test]
fn statuses(rt: HostRuntime) -> Result<(), Fail> {
    let limit = Outcome::Limit {
        what: Counted::ScanItems,
        count: 4_194_305,
        most: 4_194_304,
    };
    assert_eq!(rt; status(&limit), 7);
    assert_eq!(rt; status(&Outcome::Memory), 8);
    Ok(())
}

use par_laws::Memory;
use pipe_words::{Command, read_words, word_laws};
use std::alloc::Global;
use std::test::Fail;

// The words of a line, with one space between two. No word stands in a line of no text.
fn words_of(alloc: Global, line: &str) -> Result<Vec<String>, Memory> {
    let mut words = Vec::new(alloc);
    if !line.is_empty() {
        for word in line.split(' ') {
            words.push(String::from_str(alloc, word)?)?;
        }
    }
    Ok(words)
}

fn reads_as(alloc: Global, line: &str, expected: Option<Command<'_>>) -> Result<bool, Memory> {
    let words = words_of(alloc, line)?;
    Ok(read_words(alloc, words.as_slice())? == expected)
}

// A line, and the run that it asks for: pipe, data, workers, level, audit.
static RUNS: [(&str, &str, Option<&str>, u32, u32, bool); 25] = [
    ("run p", "p", None, 4, 4, false),
    ("run p d", "p", Some("d"), 4, 4, false),
    ("run p --workers 1", "p", None, 1, 1, false),
    ("run p --workers 64", "p", None, 64, 64, false),
    ("run p --workers 07", "p", None, 7, 7, false),
    ("run p --workers=4", "p", None, 4, 4, false),
    ("run p --workers=08 d", "p", Some("d"), 8, 8, false),
    ("run p --level 2", "p", None, 4, 2, false),
    ("run p --level=64", "p", None, 4, 64, false),
    ("run p --workers 2 --level 9", "p", None, 2, 9, false),
    ("--level 9 run --workers 2 p d", "p", Some("d"), 2, 9, false),
    ("--audit run p", "p", None, 4, 4, true),
    ("run --audit p d", "p", Some("d"), 4, 4, true),
    ("run p --audit --workers=3 --level=1", "p", None, 3, 1, true),
    ("run -- -p", "-p", None, 4, 4, false),
    ("run -- -- --audit", "--", Some("--audit"), 4, 4, false),
    ("-- run p", "p", None, 4, 4, false),
    (
        "--workers 5 -- run p --level",
        "p",
        Some("--level"),
        5,
        5,
        false,
    ),
    ("run p --", "p", None, 4, 4, false),
    ("run -", "-", None, 4, 4, false),
    ("run - -", "-", Some("-"), 4, 4, false),
    ("run  ", "", Some(""), 4, 4, false),
    ("run run check", "run", Some("check"), 4, 4, false),
    (
        "run größe.pipe 数据.csv",
        "größe.pipe",
        Some("数据.csv"),
        4,
        4,
        false,
    ),
    ("run --workers 4 workers=4", "workers=4", None, 4, 4, false),
];

// A line, and the pipeline that it asks to check.
static CHECKS: [(&str, &str); 5] = [
    ("check p", "p"),
    ("-- check -p", "-p"),
    ("check -- --audit", "--audit"),
    ("check -", "-"),
    ("check é", "é"),
];

static REFUSED: [&str; 52] = [
    "",
    " ",
    "run",
    "run p d e",
    "Run p",
    "runs p",
    "ru p",
    "p",
    "p run",
    "gen 1 4",
    "gen",
    "check",
    "check p q",
    "check p --audit",
    "check p --workers 4",
    "--level=1 check p",
    "run p --workers 0",
    "run p --workers 00",
    "run p --workers 65",
    "run p --workers 007",
    "run p --workers 064",
    "run p --workers 4x",
    "run p --workers +4",
    "run p --workers ",
    "run p --workers=",
    "run p --workers=4=4",
    "run p --workers=-4",
    "run p --workers -4",
    "run p --workers -",
    "run p --workers --",
    "run p --workers -- 4",
    "run p --workers --audit",
    "run p --workers --level 4",
    "run p --workers ٤",
    "run p --workers",
    "run p --level",
    "run p --level 65",
    "run p --level=1 --level=1",
    "run p --workers 4 --workers 4",
    "--audit run p --audit",
    "run p --audit=true",
    "run p --audit=",
    "run p --work 4",
    "run p --Workers 4",
    "run p --=4",
    "run p -w 4",
    "run p -é",
    "--help",
    "run p -h",
    "run p --version",
    "-V",
    "---",
];

#[test]
fn runs_are_read(rt: HostRuntime) -> Result<(), Fail> {
    for (line, pipe, data, workers, level, audit) in RUNS {
        let run = Command::Run {
            pipe,
            data,
            workers,
            level,
            audit,
        };
        assert!(rt; reads_as(rt.alloc(), line, Some(run))?, "{line}");
    }
    Ok(())
}

#[test]
fn checks_are_read(rt: HostRuntime) -> Result<(), Fail> {
    for (line, pipe) in CHECKS {
        assert!(rt;
            reads_as(rt.alloc(), line, Some(Command::Check { pipe }))?,
            "{line}"
        );
    }
    Ok(())
}

#[test]
fn other_words_are_refused(rt: HostRuntime) -> Result<(), Fail> {
    for line in REFUSED {
        assert!(rt; reads_as(rt.alloc(), line, None)?, "{line}");
    }
    word_laws();
    Ok(())
}

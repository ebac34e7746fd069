//! Runs beside a gate: the leaves of a printed audit are those that the gate was told of, and a gate that holds leaves
//! changes no answer.

use crate::tests::{owned, shelf};
use par_edge::{Gate, MemorySink, OpenGate};
use par_laws::Memory;
use pipe_run::parcoll;
use std::alloc::Global;
use std::sync::Wait;
use std::sync::atomic::{AtomicU64, Ordering};
use std::test::Fail;
use std::thread;
use std::thread::Threads;

/// How often the first leaf looks for another seat before it goes on.
const TURNS: u32 = 1_000_000_000;

/// How often a leaf that is held looks for others before it goes on.
const SHORT_TURNS: u32 = 1_000_000;

/// How many leaves can be noted.
const NOTES: usize = 256;

/// Each audited step over 100 rows; behind a middle step comes `size`.
const STEPS: [&str; 25] = [
    "filter x >= 0\nsize\n",
    "filterNot x >= 0\nsize\n",
    "map y = x\nsize\n",
    "collect y = x when x >= 0\nsize\n",
    "map t = \"a b\"\nflatMap split t \" \"\nsize\n",
    "takeWhile x >= 0\nsize\n",
    "dropWhile x >= 0\nsize\n",
    "zipWithIndex as i\nsize\n",
    "zip range 0 until 100 by 1 as k\nsize\n",
    "reverse\nsize\n",
    "count x >= 0\n",
    "sum x\n",
    "product x\n",
    "min x\n",
    "max x\n",
    "mkString x \",\"\n",
    "find x >= 0\n",
    "exists x >= 0\n",
    "forall x >= 0\n",
    "indexWhere x >= 0\n",
    "lastIndexWhere x >= 0\n",
    "segmentLength x >= 0 from 0\n",
    "span x >= 0\n",
    "partition x >= 0\n",
    "takeWhile x < 0\nprint\n",
];

/// Pipelines over 100 rows whose answers hang on no schedule, and these.
const ANSWERS: [(&str, &str); 7] = [
    ("takeWhile x < 0\nprint\n", "x\n"),
    ("takeWhile x < 1\nprint\n", "x\n0\n"),
    ("indexWhere x > 40\n", "41\n"),
    ("lastIndexWhere x < 40\n", "39\n"),
    ("filter x > 96\nprint\n", "x\n97\n98\n99\n"),
    ("take 4\nspan x < 2\n", "first 2\n0\n1\nsecond 2\n2\n3\n"),
    ("sum x\n", "4950\n"),
];

/// Notes each leaf that is begun, and holds the first until another seat has begun one, where that is wanted.
#[derive(Drop)]
struct Noting {
    holds: bool,
    // The seat that began first and 1, or 0.
    first: AtomicU64,
    // 1 where another seat has begun a leaf.
    another: AtomicU64,
    // How many leaves were begun, and each of them.
    count: AtomicU64,
    notes: Vec<AtomicU64>,
}

// A number for a leaf, of which each part is below 2^16.
fn code(node: u64, lo: u64, hi: u64, seat: u64) -> u64 {
    (node << 48) ^ (lo << 32) ^ (hi << 16) ^ seat
}

// The number in a word of a line.
fn number(word: Option<&str>) -> Option<u64> {
    word?.parse().ok()
}

// The leaf that a line of an audit tells, where it tells one.
fn leaf_of(line: &str) -> Option<u64> {
    let mut words = line.strip_prefix("leaf ")?.split(' ');
    let node = number(words.next())?;
    let lo = number(words.next())?;
    let hi = number(words.next())?;
    words.next();
    let seat = number(words.next())?;
    Some(code(node, lo, hi, seat))
}

impl Noting {
    fn new(alloc: Global, holds: bool) -> Result<Noting, Memory> {
        let mut notes = Vec::with_capacity(alloc, NOTES)?;
        for _ in 0..NOTES {
            notes.push(AtomicU64::new(0))?;
        }
        Ok(Noting {
            holds,
            first: AtomicU64::new(0),
            another: AtomicU64::new(0),
            count: AtomicU64::new(0),
            notes,
        })
    }

    // Whether another seat than the first began a leaf.
    fn is_shared(&self) -> bool {
        self.another.load(Ordering::SeqCst) != 0
    }

    // Waits for another seat.
    fn hold(&self) {
        for turn in 0..TURNS {
            if self.is_shared() {
                return;
            }
            if turn % 256 == 0 {
                thread::yield_now();
            }
        }
    }

    // Whether a leaf was noted.
    fn has(&self, leaf: u64) -> bool {
        self.notes
            .iter()
            .any(|note| note.load(Ordering::SeqCst) == leaf)
    }

    // Whether the leaves that a text tells are as many as were begun, and each was noted.
    fn has_just(&self, text: &str) -> bool {
        let mut count: u64 = 0;
        for line in text.lines() {
            if let Some(leaf) = leaf_of(line) {
                if !self.has(leaf) {
                    return false;
                }
                count = count.wrapping_add(1);
            }
        }
        count > 0 && count == self.count.load(Ordering::SeqCst)
    }
}

impl Gate for Noting {
    fn begin(&self, seat: u32, node: u32, lo: u32, hi: u32) {
        let place = self.count.fetch_add(1, Ordering::SeqCst);
        if let Some(note) = self.notes.get(place as usize) {
            let leaf = code(node.into(), lo.into(), hi.into(), seat.into());
            note.store(leaf, Ordering::SeqCst);
        }
        let own = u64::from(seat) + 1;
        match self
            .first
            .compare_exchange(0, own, Ordering::SeqCst, Ordering::SeqCst)
        {
            Ok(_) if self.holds => self.hold(),
            Err(first) if first != own => self.another.store(1, Ordering::SeqCst),
            _ => {}
        }
    }
}

/// Which leaves are held.
#[derive(Clone, Copy)]
enum Held {
    /// The first of a seat.
    FirstOf(u32),
    /// Every second of all.
    EverySecond,
}

/// Holds leaves until two others have begun.
#[derive(Drop)]
struct Holding {
    which: Held,
    // How many leaves were begun.
    count: AtomicU64,
    // 1 where a leaf of the seat was held.
    held: AtomicU64,
}

impl Holding {
    fn new(which: Held) -> Holding {
        Holding {
            which,
            count: AtomicU64::new(0),
            held: AtomicU64::new(0),
        }
    }

    // Whether the leaf that is begun after so many others is held.
    fn holds(&self, seat: u32, before: u64) -> bool {
        match self.which {
            Held::FirstOf(of) => seat == of && self.held.swap(1, Ordering::SeqCst) == 0,
            Held::EverySecond => before % 2 == 1,
        }
    }
}

impl Gate for Holding {
    fn begin(&self, seat: u32, _node: u32, _lo: u32, _hi: u32) {
        let before = self.count.fetch_add(1, Ordering::SeqCst);
        if !self.holds(seat, before) {
            return;
        }
        for turn in 0..SHORT_TURNS {
            if self.count.load(Ordering::SeqCst) > before.wrapping_add(2) {
                return;
            }
            if turn % 256 == 0 {
                thread::yield_now();
            }
        }
    }
}

// What a run over so many numbers from 0 on writes with these words, or nothing where it does not end with status 0.
fn written<G: Gate + Sync, X: Threads + Wait + Sync>(
    rt: &X,
    alloc: Global,
    words: &[&str],
    steps: &str,
    gate: &G,
) -> Result<MemorySink, Memory> {
    let words = owned(alloc, words)?;
    let mut pipe = String::from_str(alloc, "from range 0 until 100 by 1\n")?;
    pipe.push_str(steps)?;
    let mut shelf = shelf(alloc, &pipe, "", 4096, 0)?;
    let mut out = MemorySink::new(alloc, 16_384, 16_384, Vec::new(alloc))?;
    let mut err = MemorySink::new(alloc, 128, 128, Vec::new(alloc))?;
    parcoll(rt, alloc, &words, &mut shelf, &mut out, &mut err, gate);
    Ok(out)
}

// Whether the audits of a run by so many workers have just the leaves that a gate was told of; with a gate that holds,
// those of two seats.
fn is_noted<X: Threads + Wait + Sync>(
    rt: &X,
    alloc: Global,
    steps: &str,
    workers: &str,
    holds: bool,
) -> Result<bool, Memory> {
    let gate = Noting::new(alloc, holds)?;
    let words = ["run", "p", "--audit", "--level", "8", "--workers", workers];
    let out = written(rt, alloc, &words, steps, &gate)?;
    let text = str::from_utf8(out.bytes()).unwrap_or("");
    Ok(gate.has_just(text) && gate.is_shared() == holds)
}

#[test]
fn audits_have_the_leaves_that_two_seats_ran(rt: HostRuntime) -> Result<(), Fail> {
    for steps in STEPS {
        assert!(rt; is_noted(&rt, rt.alloc(), steps, "2", true)?, "{steps}");
    }
    Ok(())
}

#[test]
fn audits_have_the_leaves_that_one_seat_ran(rt: HostRuntime) -> Result<(), Fail> {
    for steps in STEPS {
        assert!(rt; is_noted(&rt, rt.alloc(), steps, "1", false)?, "{steps}");
    }
    Ok(())
}

// Whether all answers are as they are told by so many workers, where leaves are held.
fn answers_hold<X: Threads + Wait + Sync>(
    rt: &X,
    alloc: Global,
    workers: &str,
    which: Held,
) -> Result<bool, Memory> {
    let words = ["run", "p", "--level", "8", "--workers", workers];
    for (steps, answer) in ANSWERS {
        let gate = Holding::new(which);
        let out = written(rt, alloc, &words, steps, &gate)?;
        if out.bytes() != answer.as_bytes() {
            return Ok(false);
        }
    }
    Ok(true)
}

#[test]
fn held_leaves_change_no_answer(rt: HostRuntime) -> Result<(), Fail> {
    for which in [Held::FirstOf(0), Held::FirstOf(1), Held::EverySecond] {
        assert!(rt; answers_hold(&rt, rt.alloc(), "2", which)?);
        assert!(rt; answers_hold(&rt, rt.alloc(), "4", which)?);
    }
    Ok(())
}

#[test]
fn find_names_a_row_that_passes(rt: HostRuntime) -> Result<(), Fail> {
    let words = ["run", "p", "--workers", "4"];
    for _ in 0..20 {
        let found = written(&rt, rt.alloc(), &words, "find x % 2 = 1\n", &OpenGate)?;
        let text = str::from_utf8(found.bytes()).unwrap_or("");
        let row = number(text.strip_prefix("x\n").map(|row| row.trim_end()));
        assert!(rt; row.is_some_and(|x| x % 2 == 1 && x < 100), "{text}");
        let none = written(&rt, rt.alloc(), &words, "find x < 0\n", &OpenGate)?;
        assert!(rt; none.bytes() == "none\n".as_bytes());
    }
    Ok(())
}

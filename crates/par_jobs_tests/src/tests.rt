//! What no clause says: that runs succeed where there is memory, and what their leaves did.
ghost use Rattle.std.specs.Prelude.{◌≡◌, ◌≤◌, length, map, true, Some, IfSome};
ghost use Rattle.par_signal.specs.Seen.{Seen};
ghost use Rattle.par_laws.specs.Marks.{IsMarked};
ghost use Rattle.par_task.specs.Marking.{halts, low_flag, marks_of};

use par_edge::OpenGate;
use par_jobs::{
    Counting, Folding, Front, FrontJob, Listing, Sifted, Sought, Spanned, fault_before, fault_here,
    front_alone, gather_alone, last_alone, search_alone, sift_alone, spanned_alone,
};
use par_laws::{FaultAt, Mapper, Memory, Probe, Sum, Test, Verdict};
use par_signal::{SignalSeat, Signals};
use par_splitter::{Cut, Precise, RangeSplitter, Splitter, range_count};
use par_task::{Audit, Leaf, Marked, Place, run_leaf};
use std::alloc::Global;
use std::marker::PhantomData;
use std::test::Fail;
use test_rules::{Rule, Same, from_to};

fn front(
    alloc: Global,
    source: RangeSplitter,
    test: &Rule,
    level: u32,
) -> Result<(Front<Vec<i64>>, Audit), Memory>
    requires place { ⟦<RangeSplitter as Splitter>⟧.lo source ≡ 0 }
    requires few { length (⟦<RangeSplitter as Splitter>⟧.items source) ≤ 3000 }
    requires level { (1 ≤ level) × (level ≤ 64) }
{
    let list = Listing {
        of: &Same,
        out: PhantomData,
    };
    front_alone(alloc, source, test, &list, level, &OpenGate)
}

fn span(
    alloc: Global,
    source: RangeSplitter,
    test: &Rule,
) -> Result<(Spanned<Vec<i64>>, Audit), Memory>
    requires place { ⟦<RangeSplitter as Splitter>⟧.lo source ≡ 0 }
    requires few { length (⟦<RangeSplitter as Splitter>⟧.items source) ≤ 3000 }
{
    let list = Listing {
        of: &Same,
        out: PhantomData,
    };
    spanned_alone(alloc, source, test, &list, 4, &OpenGate)
}

fn last(alloc: Global, source: RangeSplitter, test: &Rule) -> Result<u32, Memory>
    requires place { ⟦<RangeSplitter as Splitter>⟧.lo source ≡ 0 }
    requires few { length (⟦<RangeSplitter as Splitter>⟧.items source) ≤ 3000 }
{
    let (part, _) = last_alone(alloc, source, test, 4, &OpenGate)?;
    Ok(part)
}

fn search(alloc: Global, source: RangeSplitter, test: &Rule) -> Result<(Sought, Audit), Memory>
    requires place { ⟦<RangeSplitter as Splitter>⟧.lo source ≡ 0 }
    requires few { length (⟦<RangeSplitter as Splitter>⟧.items source) ≤ 3000 }
{
    search_alone(alloc, source, test, 4, &OpenGate)
}

fn sift(alloc: Global, source: RangeSplitter, test: &Rule) -> Result<Sifted<Vec<i64>, u32>, Memory>
    requires place { ⟦<RangeSplitter as Splitter>⟧.lo source ≡ 0 }
    requires few { length (⟦<RangeSplitter as Splitter>⟧.items source) ≤ 3000 }
{
    let list = Listing {
        of: &Same,
        out: PhantomData,
    };
    let (part, _) = sift_alone(alloc, source, test, &list, &Counting, 4, &OpenGate)?;
    Ok(part)
}

// The leaves of 0 to 99 at level 8, by the flag and the number of tests of each.
fn leaves_of_a_hundred(did: [(u32, u64); 7]) -> [Leaf; 7] {
    let leaf = |node, lo, hi, turn, did: (u32, u64)| Leaf {
        node,
        lo,
        hi,
        seat: 0,
        turn,
        flag: did.0,
        tested: did.1,
    };
    let [a, b, c, d, e, f, g] = did;
    [
        leaf(64, 0, 1, 0, a),
        leaf(65, 1, 3, 1, b),
        leaf(33, 3, 6, 2, c),
        leaf(17, 6, 12, 3, d),
        leaf(9, 12, 25, 4, e),
        leaf(5, 25, 50, 5, f),
        leaf(3, 50, 100, 6, g),
    ]
}

// The least number that is marked, where the front ends, and the flag and the tests of each leaf.
const FRONTS_OF_A_HUNDRED: [(i64, u32, [(u32, u64); 7]); 3] = [
    (
        0,
        0,
        [(100, 1), (0, 0), (0, 0), (0, 0), (0, 0), (0, 0), (0, 0)],
    ),
    (
        100,
        100,
        [
            (100, 1),
            (100, 2),
            (100, 3),
            (100, 6),
            (100, 13),
            (100, 25),
            (100, 50),
        ],
    ),
    (
        1,
        1,
        [(100, 1), (100, 1), (1, 0), (1, 0), (1, 0), (1, 0), (1, 0)],
    ),
];

#[test]
fn the_front_of_a_hundred(rt: HostRuntime) -> Result<(), Fail> {
    for (least, end, did) in FRONTS_OF_A_HUNDRED {
        let source = from_to(0, 100).ok_or("few")?;
        let rule = Rule { least, faulty: -1 };
        let (part, audit) = front(rt.alloc(), source, &rule, 8)?;
        assert_eq!(rt; part.kept.len(), end as usize);
        assert!(rt; part.end == end && part.whole == (end == 100));
        assert_eq!(rt; audit.leaves(), leaves_of_a_hundred(did).as_slice());
    }
    Ok(())
}

#[test]
fn fronts_and_lasts(rt: HostRuntime) -> Result<(), Fail> {
    // The range, the rule, and where its front ends and its last one stands, one on.
    let cases: [(i64, i64, i64, i64, u32, u32); 7] = [
        (0, 4, 3, -1, 3, 4),
        (0, 4, 9, -1, 4, 0),
        (0, 4, 9, 1, 1, 2),
        (2, 4, 9, 1, 2, 0),
        (4, 4, 9, 1, 0, 0),
        (0, 8, 5, 3, 3, 8),
        (0, 8, 9, 3, 3, 4),
    ];
    for (a, b, least, faulty, end, above) in cases {
        let rule = Rule { least, faulty };
        let source = from_to(a, b).ok_or("few")?;
        assert_eq!(rt; front(rt.alloc(), source, &rule, 4)?.0.end, end);
        let source = from_to(a, b).ok_or("few")?;
        assert_eq!(rt; last(rt.alloc(), source, &rule)?, above);
    }
    Ok(())
}

#[test]
fn searches(rt: HostRuntime) -> Result<(), Fail> {
    let at = FaultAt { at: 3, kind: 7 };
    let source = from_to(0, 8).ok_or("few")?;
    let rule = Rule {
        least: 5,
        faulty: 3,
    };
    let (sought, audit) = search(rt.alloc(), source, &rule)?;
    assert_eq!(rt; sought, Sought::Found(5));
    let mut tested = 0u64;
    for leaf in audit.leaves() {
        tested = tested.wrapping_add(leaf.tested);
    }
    assert_eq!(rt; tested, 6);
    let rule = Rule {
        least: 9,
        faulty: 3,
    };
    let source = from_to(0, 8).ok_or("few")?;
    assert_eq!(rt; search(rt.alloc(), source, &rule)?.0, Sought::Fell(at));
    Ok(())
}

#[test]
fn sifts(rt: HostRuntime) -> Result<(), Fail> {
    let source = from_to(0, 8).ok_or("few")?;
    let rule = Rule {
        least: 5,
        faulty: 3,
    };
    let fell = sift(rt.alloc(), source, &rule)?;
    assert!(rt; matches!(fell, Sifted::Fell(FaultAt { at: 3, kind: 7 })));
    let source = from_to(0, 8).ok_or("few")?;
    let rule = Rule {
        least: 5,
        faulty: 9,
    };
    match sift(rt.alloc(), source, &rule)? {
        Sifted::Got(passing, failing) => {
            assert!(rt; passing.as_slice() == [5, 6, 7].as_slice() && failing == 5);
        }
        Sifted::Fell(_) => assert!(rt; false),
    }
    Ok(())
}

#[test]
fn folds_a_range(rt: HostRuntime) -> Result<(), Fail> {
    let source = from_to(0, 5).ok_or("few")?;
    let (sum, audit) = gather_alone(rt.alloc(), source, &Folding { how: &Sum }, 4, &OpenGate)?;
    assert_eq!(rt; sum, 10);
    assert_eq!(rt; audit.leaves().len(), 3);
    Ok(())
}

#[test]
fn looks_at_one_item(rt: HostRuntime) -> Result<(), Fail> {
    let rule = Rule {
        least: 5,
        faulty: 3,
    };
    // An index, and whether the item there faults and the one below it.
    let cases: [(u32, bool, bool); 6] = [
        (0, false, false),
        (3, true, false),
        (4, false, true),
        (5, false, false),
        (8, false, false),
        (9, false, false),
    ];
    for (at, here, before) in cases {
        let source = from_to(0, 8).ok_or("few")?;
        let fault = Some(FaultAt { at: 3, kind: 7 });
        let found = fault_here(source.dup(), &rule, at);
        assert_eq!(rt; found, if here { fault } else { None });
        let found = fault_before(source, &rule, at);
        assert_eq!(rt; found, if before { fault } else { None });
    }
    Ok(())
}

#[test]
fn spans(rt: HostRuntime) -> Result<(), Fail> {
    // The range, the rule, and how many items stand on each side.
    let cases: [(i64, i64, i64, i64, usize, usize); 6] = [
        (0, 8, 3, -1, 3, 5),
        (0, 8, 9, -1, 8, 0),
        (0, 8, 9, 1, 1, 7),
        (0, 8, 0, -1, 0, 8),
        (0, 8, 7, -1, 7, 1),
        (4, 4, 9, -1, 0, 0),
    ];
    for (a, b, least, faulty, before, after) in cases {
        let source = from_to(a, b).ok_or("few")?;
        let (part, _) = span(rt.alloc(), source, &Rule { least, faulty })?;
        assert_eq!(rt; (part.prefix.len(), part.suffix.len()), (before, after));
        assert!(rt;
            part.end as usize == before
                && part.suffix.first().is_none_or(|x| *x == a + before as i64)
        );
    }
    Ok(())
}

/// A splitter whose first item is taken only after its own seat has lowered the flag.
#[derive(Drop)]
struct Lowering<'a, S: Splitter> {
    inner: S,
    signals: &'a Signals,
    seat: Option<SignalSeat>,
    mark: u32,
    ghost fits: { (s : Seen) → seat ≡ Some s → s.of ≡ signals.now },
    ghost marked: { IsMarked signals.now.marks mark },
}

impl<'a, S: Splitter> Splitter for Lowering<'a, S> {
    type Item = S::Item;

    ghost items = { λ s. S.items s.inner };

    ghost lo = { λ s. S.lo s.inner };

    ghost halves = { S.halves };

    fn remaining(&self) -> u32 {
        self.inner.remaining()
    }

    fn span(&self) -> (u32, u32) {
        self.inner.span()
    }

    fn next(&mut self) -> Option<S::Item> {
        if let Some(mut seat) = self.seat.take() {
            self.signals.lower(&mut seat, self.mark);
        }
        self.inner.next()
    }

    fn split(self) -> Cut<Self> {
        let Lowering {
            inner,
            signals,
            seat,
            mark,
        } = self;
        match inner.split() {
            Cut::One(inner) => Cut::One(Lowering {
                inner,
                signals,
                seat,
                mark,
            }),
            Cut::Two(left, right) => Cut::Two(
                Lowering {
                    inner: left,
                    signals,
                    seat,
                    mark,
                },
                Lowering {
                    inner: right,
                    signals,
                    seat: None,
                    mark,
                },
            ),
        }
    }

    fn dup(&self) -> Self {
        Lowering {
            inner: self.inner.dup(),
            signals: self.signals,
            seat: None,
            mark: self.mark,
        }
    }
}

// Whether the verdict is Pass or Fault.
fn is_halt(verdict: Verdict) -> bool
    ensures { result ≡ halts verdict }
{
    match verdict {
        Verdict::Pass | Verdict::Fault(_) => true,
        Verdict::Fail => false,
    }
}

// Whether the item at an index is marked.
fn is_marked_at<S: Precise, P: Test<S::Item>>(source: &S, test: &P, at: u32) -> bool
    ensures { result ≡ true → IsMarked (marks_of low_flag (map (P.verdict test.now) (S.items source.now))) at }
{
    let (_, mut rest) = source.dup().cut_at(at);
    match rest.next() {
        Some(item) => is_halt(test.test(&item)),
        None => false,
    }
}

// Runs one leaf of a low-flag job over the items from `lo` on, during whose first item another seat lowers the flag to
// `mark`.
fn leaf_that_is_overtaken<S: Precise, P: Test<S::Item>>(
    alloc: Global,
    source: &S,
    test: &P,
    lo: u32,
    mark: u32,
) -> Result<Option<Leaf>, Memory>
    requires place { S.lo source.now ≡ 0 }
    requires few { length (S.items source.now) ≤ 4194304 }
{
    if !is_marked_at(source, test, mark) {
        return Ok(None);
    }
    let marks = Marked::over(source, test, true);
    let (signals, mut seat) = Signals::open(alloc, &marks, source.remaining())?;
    let other = signals.split_seat(alloc, &mut seat)?;
    let whole = Lowering {
        inner: source.dup(),
        signals: &signals,
        seat: None,
        mark,
    };
    let (_, rest) = source.dup().cut_at(lo);
    let input = Lowering {
        inner: rest,
        signals: &signals,
        seat: Some(other),
        mark,
    };
    let job = FrontJob {
        marked: Marked::over(&whole, test, true),
        builder: &Counting,
    };
    let place = Place {
        node: 3,
        seat: 0,
        turn: 0,
    };
    let mut probe = Probe::new(test);
    let (_, leaf) = run_leaf(
        alloc, &job, input, &mut probe, &signals, &mut seat, place, &OpenGate,
    )?;
    Ok(Some(leaf))
}

#[test]
fn a_leaf_breaks_off_where_another_seat_lowered_the_flag(rt: HostRuntime) -> Result<(), Fail> {
    let source = from_to(0, 3000).ok_or("few")?;
    let rule = Rule {
        least: 3000,
        faulty: 100,
    };
    let leaf = leaf_that_is_overtaken(rt.alloc(), &source, &rule, 1000, 100)?.ok_or("marked")?;
    assert_eq!(rt;
        (leaf.lo, leaf.hi, leaf.flag, leaf.tested),
        (1000, 3000, 3000, 512)
    );
    Ok(())
}

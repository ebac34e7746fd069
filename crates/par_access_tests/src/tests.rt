//! What no clause says: that runs succeed where there is memory, and what their leaves did.
ghost use Rattle.std.specs.Prelude.{◌≡◌, ◌≤◌, length, IfSome};

use par_access::{
    aggregate_alone, count_alone, exists_alone, find_alone, fold_alone, forall_alone,
    index_where_alone, last_index_where_alone, max_alone, min_alone, product_alone,
    reduce_option_alone, same_elements_alone, segment_length_alone, sum_alone,
};
use par_edge::OpenGate;
use par_laws::{FaultAt, Least, Mapper, Memory, Not, Sum, Test, Tried, Verdict};
use par_splitter::{ArraySplitter, RangeSplitter, Splitter};
use par_task::{Audit, Leaf};
use std::alloc::Global;
use std::process::Abort;
use std::test::Fail;
use test_rules::{Rule, Same, from_to, tested};

/// The number as a value that may be missing.
pub(crate) struct There;

impl Mapper<i64, Option<i64>> for There {
    ghost use Rattle.std.specs.Prelude.{Some};

    ghost mapped = { λ _ x. Some x };

    fn map(&self, _alloc: Global, item: &i64) -> Result<Option<i64>, Memory> {
        Ok(Some(*item))
    }
}

/// Whether two numbers are one.
pub(crate) struct Alike;

impl Test<(i64, i64)> for Alike {
    ghost use Rattle.std.specs.Prelude.{cond};
    ghost use Rattle.std.specs.Ordering.{int_eq};
    ghost use Rattle.par_laws.specs.declared.test.Verdict.TheVariants.{Pass, Fail};

    ghost verdict = { λ _ x. cond (int_eq x.0 x.1) Pass Fail };

    fn test(&self, item: &(i64, i64)) -> Verdict {
        if item.0 == item.1 {
            Verdict::Pass
        } else {
            Verdict::Fail
        }
    }
}

// Passes 5 and more, faults at 3, and fails else.
const FROM_FIVE: Rule = Rule {
    least: 5,
    faulty: 3,
};

// Faults at 3, and fails else.
const NEVER: Rule = Rule {
    least: 1000,
    faulty: 3,
};

#[test]
fn folds_numbers(rt: HostRuntime) -> Result<(), Fail> {
    // The range, and its sum, product, least and greatest.
    let cases: [(i64, i64, i64, i64, Option<i64>, Option<i64>); 4] = [
        (0, 5, 10, 0, Some(0), Some(4)),
        (1, 4, 6, 6, Some(1), Some(3)),
        (0, 0, 0, 1, None, None),
        (
            i64::MAX - 1,
            i64::MAX,
            i64::MAX - 1,
            i64::MAX - 1,
            Some(i64::MAX - 1),
            Some(i64::MAX - 1),
        ),
    ];
    for (a, b, sum, product, least, greatest) in cases {
        let source = from_to(a, b).ok_or("few")?;
        let (found, _) = sum_alone(rt.alloc(), source.dup(), &Same, 4, &OpenGate)?;
        assert_eq!(rt; found, sum);
        let (found, _) = fold_alone(rt.alloc(), source.dup(), &Sum, &Same, 4, &OpenGate)?;
        assert_eq!(rt; found, sum);
        let (found, audit) = aggregate_alone(rt.alloc(), source.dup(), &Sum, 4, &OpenGate)?;
        assert!(rt; found == sum && tested(&audit) == 0);
        let (found, _) = product_alone(rt.alloc(), source.dup(), &Same, 4, &OpenGate)?;
        assert_eq!(rt; found, product);
        let (found, _) = min_alone(rt.alloc(), source.dup(), &Same, 4, &OpenGate)?;
        assert_eq!(rt; found, least);
        let (found, _) = max_alone(rt.alloc(), source, &Same, 4, &OpenGate)?;
        assert_eq!(rt; found, greatest);
    }
    Ok(())
}

#[test]
fn reduces_numbers(rt: HostRuntime) -> Result<(), Fail> {
    let source = from_to(1, 4).ok_or("few")?;
    let (found, _) = reduce_option_alone(rt.alloc(), source, &Least, &There, 4, &OpenGate)?;
    assert_eq!(rt; found, Some(Some(1)));
    let source = from_to(0, 1).ok_or("few")?;
    let (found, _) = reduce_option_alone(rt.alloc(), source, &Sum, &Same, 4, &OpenGate)?;
    assert_eq!(rt; found, Some(0));
    let source = from_to(0, 0).ok_or("few")?;
    let (found, _) = reduce_option_alone(rt.alloc(), source, &Least, &There, 4, &OpenGate)?;
    assert_eq!(rt; found, None);
    Ok(())
}

// The answers of `index_where`, `last_index_where`, `count`, `find`, `exists` and `forall`.
#[derive(Clone, Copy)]
struct Row {
    items: (i64, i64),
    rule: Rule,
    index: Tried<i64>,
    last: Tried<i64>,
    count: Tried<u32>,
    found: Tried<Option<u32>>,
    exists: Tried<bool>,
    forall: Tried<bool>,
}

// Rows over 0 to 7, where 3 faults.
fn faulty_rows() -> [Row; 2] {
    let fault = FaultAt { at: 3, kind: 7 };
    [
        // from 5 on they pass, and the others fail
        Row {
            items: (0, 8),
            rule: FROM_FIVE,
            index: Tried::Fault(fault),
            last: Tried::Got(7),
            count: Tried::Fault(fault),
            found: Tried::Got(Some(5)),
            exists: Tried::Got(true),
            forall: Tried::Got(false),
        },
        // the others fail
        Row {
            items: (0, 8),
            rule: NEVER,
            index: Tried::Fault(fault),
            last: Tried::Fault(fault),
            count: Tried::Fault(fault),
            found: Tried::Fault(fault),
            exists: Tried::Fault(fault),
            forall: Tried::Got(false),
        },
    ]
}

// Rows in which no item faults.
fn sound_rows() -> [Row; 2] {
    [
        Row {
            items: (0, 0),
            rule: FROM_FIVE,
            index: Tried::Got(-1),
            last: Tried::Got(-1),
            count: Tried::Got(0),
            found: Tried::Got(None),
            exists: Tried::Got(false),
            forall: Tried::Got(true),
        },
        Row {
            items: (2, 10),
            rule: Rule {
                least: 4,
                faulty: -1,
            },
            index: Tried::Got(2),
            last: Tried::Got(7),
            count: Tried::Got(6),
            found: Tried::Got(Some(2)),
            exists: Tried::Got(true),
            forall: Tried::Got(false),
        },
    ]
}

fn look_at_searches(rt: &impl Abort, alloc: Global, row: Row) -> Result<(), Fail> {
    let Row { items, rule, .. } = row;
    let source = from_to(items.0, items.1).ok_or("few")?;
    let (found, _) = index_where_alone(alloc, source.dup(), &rule, 4, &OpenGate)?;
    assert_eq!(rt; found, row.index);
    let (found, _) = last_index_where_alone(alloc, source.dup(), &rule, 4, &OpenGate)?;
    assert_eq!(rt; found, row.last);
    let (found, _) = count_alone(alloc, source.dup(), &rule, 4, &OpenGate)?;
    assert_eq!(rt; found, row.count);
    let (found, _) = find_alone(alloc, source.dup(), &rule, 4, &OpenGate)?;
    assert_eq!(rt; found, row.found);
    let (found, _) = exists_alone(alloc, source.dup(), &rule, 4, &OpenGate)?;
    assert_eq!(rt; found, row.exists);
    let (found, _) = forall_alone(alloc, source, &rule, 4, &OpenGate)?;
    assert_eq!(rt; found, row.forall);
    Ok(())
}

#[test]
fn searches(rt: HostRuntime) -> Result<(), Fail> {
    for row in faulty_rows() {
        look_at_searches(&rt, rt.alloc(), row)?;
    }
    for row in sound_rows() {
        look_at_searches(&rt, rt.alloc(), row)?;
    }
    Ok(())
}

#[test]
fn forall_that_faults(rt: HostRuntime) -> Result<(), Fail> {
    // From -1 on all pass but 3, which faults: no item fails.
    let rule = Rule {
        least: -1,
        faulty: 3,
    };
    let source = from_to(0, 8).ok_or("few")?;
    let (found, audit) = forall_alone(rt.alloc(), source, &rule, 4, &OpenGate)?;
    assert_eq!(rt; found, Tried::Fault(FaultAt { at: 3, kind: 7 }));
    assert_eq!(rt; tested(&audit), 8);
    Ok(())
}

#[test]
fn searches_many(rt: HostRuntime) -> Result<(), Fail> {
    let source = from_to(0, 1000).ok_or("few")?;
    let some = Rule {
        least: 700,
        faulty: -1,
    };
    let (found, audit) = find_alone(rt.alloc(), source.dup(), &some, 4, &OpenGate)?;
    assert!(rt; found == Tried::Got(Some(700)) && tested(&audit) == 701);
    let none = Rule {
        least: 1000,
        faulty: -1,
    };
    let (found, audit) = find_alone(rt.alloc(), source, &none, 4, &OpenGate)?;
    assert!(rt; found == Tried::Got(None) && tested(&audit) == 1000);
    Ok(())
}

#[test]
fn segments(rt: HostRuntime) -> Result<(), Fail> {
    let fault = Tried::Fault(FaultAt { at: 3, kind: 7 });
    // Below 5 they pass and 3 faults. From where, and the answer, the items of the leaves, and how many were tested.
    let cases: [(i64, Tried<u32>, u32, u64); 7] = [
        (4, Tried::Got(1), 4, 2),
        (1, fault, 7, 3),
        (-1, fault, 8, 4),
        (3, fault, 5, 1),
        (5, Tried::Got(0), 3, 1),
        (9, Tried::Got(0), 0, 0),
        (i64::MAX, Tried::Got(0), 0, 0),
    ];
    let below = Not { inner: FROM_FIVE };
    for (from, length, count, tests) in cases {
        let source = from_to(0, 8).ok_or("few")?;
        let (found, audit) = segment_length_alone(rt.alloc(), source, &below, from, 4, &OpenGate)?;
        assert_eq!(rt; found, length);
        assert_eq!(rt; tested(&audit), tests);
        let leaves = audit.leaves();
        assert!(rt; leaves.first().map(|leaf| leaf.lo) == Some(0));
        assert!(rt; leaves.last().map(|leaf| leaf.hi) == Some(count));
    }
    Ok(())
}

#[test]
fn compares(rt: HostRuntime) -> Result<(), Fail> {
    // The other range, and whether it has the numbers 0 to 4, and the number of leaves.
    let cases: [(i64, i64, bool, usize); 5] = [
        (0, 5, true, 3),
        (0, 4, false, 1),
        (0, 6, false, 1),
        (1, 6, false, 3),
        (0, 0, false, 1),
    ];
    for (a, b, same, leaves) in cases {
        let source = from_to(0, 5).ok_or("few")?;
        let other = from_to(a, b).ok_or("few")?;
        let (found, audit) = same_elements_alone(rt.alloc(), source, other, &Alike, 4, &OpenGate)?;
        assert_eq!(rt; found, Tried::Got(same));
        assert_eq!(rt; audit.leaves().len(), leaves);
    }
    let (source, other) = (from_to(0, 5).ok_or("few")?, from_to(0, 4).ok_or("few")?);
    let (_, audit) = same_elements_alone(rt.alloc(), source, other, &Alike, 4, &OpenGate)?;
    let nothing = Leaf {
        node: 1,
        lo: 0,
        hi: 0,
        seat: 0,
        turn: 0,
        flag: 0,
        tested: 0,
    };
    assert_eq!(rt; audit.leaves(), [nothing].as_slice());
    Ok(())
}

/// The number that is lent.
struct Value;

impl<'a> Mapper<&'a i64, i64> for Value {
    ghost mapped = { λ _ x. x };

    fn map(&self, _alloc: Global, item: &&'a i64) -> Result<i64, Memory> {
        Ok(**item)
    }
}

/// Whether a number that is lent is more than another.
#[derive(Clone, Copy)]
struct Above {
    than: i64,
}

impl<'a> Test<&'a i64> for Above {
    ghost use Rattle.std.specs.Prelude.{cond, int_lt};
    ghost use Rattle.par_laws.specs.declared.test.Verdict.TheVariants.{Pass, Fail};

    ghost verdict = { λ t x. cond (int_lt t.than x) Pass Fail };

    fn test(&self, item: &&'a i64) -> Verdict {
        if self.than < **item {
            Verdict::Pass
        } else {
            Verdict::Fail
        }
    }
}

#[test]
fn arrays(rt: HostRuntime) -> Result<(), Fail> {
    let list = [3, 1, 2];
    let source = ArraySplitter::new(list.as_slice());
    let (found, _) = min_alone(rt.alloc(), source, &Value, 4, &OpenGate)?;
    assert_eq!(rt; found, Some(1));
    let list = [i64::MAX, 1];
    let source = ArraySplitter::new(list.as_slice());
    let (found, _) = sum_alone(rt.alloc(), source, &Value, 4, &OpenGate)?;
    assert_eq!(rt; found, i64::MIN);
    let list = [0, 5, 1, 6];
    for (than, first, last) in [(4, 1, 3), (9, -1, -1)] {
        let source = ArraySplitter::new(list.as_slice());
        let rule = Above { than };
        let (found, _) = index_where_alone(rt.alloc(), source.dup(), &rule, 4, &OpenGate)?;
        assert_eq!(rt; found, Tried::Got(first));
        let (found, _) = last_index_where_alone(rt.alloc(), source, &rule, 4, &OpenGate)?;
        assert_eq!(rt; found, Tried::Got(last));
    }
    Ok(())
}

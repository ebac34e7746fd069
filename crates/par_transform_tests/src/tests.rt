//! What no clause says: that calls answer where there is memory, and what their leaves did.
ghost use Rattle.std.specs.Prelude.{◌≡◌, ◌≤◌, length, IfSome};

use par_combiner::ArrayCombiner;
use par_edge::OpenGate;
use par_laws::{FaultAt, Mapper, Memory, Not, Test, Tried, Verdict};
use par_splitter::{RangeSplitter, Splitter, range_count};
use par_task::Audit;
use par_transform::{
    FlatStop, collect_alone, drop, drop_while_alone, filter_alone, filter_not_alone,
    flat_map_alone, map_alone, partition_alone, reverse_alone, slice, span_alone, split_at, take,
    take_while_alone, zip_alone, zip_with_index_alone,
};
use std::alloc::Global;
use std::test::Fail;
use test_rules::{Rule, Same, stepping, tested};

pub(crate) type Ints = ArrayCombiner<i64>;

pub(crate) type Pairs = ArrayCombiner<(i64, i64)>;

/// Passes three numbers.
#[derive(Clone, Copy, Drop)]
struct OneOf {
    a: i64,
    b: i64,
    c: i64,
}

impl Test<i64> for OneOf {
    ghost use Rattle.std.specs.Prelude.{cond};
    ghost use Rattle.std.specs.Ordering.{int_eq};
    ghost use Rattle.par_laws.specs.declared.test.Verdict.TheVariants.{Pass, Fail};

    ghost verdict = { λ t x. cond (int_eq x t.a) Pass (cond (int_eq x t.b) Pass (cond (int_eq x t.c) Pass Fail)) };

    fn test(&self, item: &i64) -> Verdict {
        if *item == self.a {
            Verdict::Pass
        } else if *item == self.b {
            Verdict::Pass
        } else if *item == self.c {
            Verdict::Pass
        } else {
            Verdict::Fail
        }
    }
}

/// The number's square.
pub(crate) struct Square;

impl Mapper<i64, i64> for Square {
    ghost use Rattle.par_laws.specs.Wrapping.{wrapped_product};

    ghost mapped = { λ _ x. wrapped_product x x };

    fn map(&self, _alloc: Global, item: &i64) -> Result<i64, Memory> {
        Ok(item.wrapping_mul(*item))
    }
}

/// The numbers 0, 5, 1 and 6 of the places 0 to 3.
struct Data;

impl Mapper<i64, i64> for Data {
    ghost use Rattle.std.specs.Prelude.{cond, pos};
    ghost use Rattle.std.specs.Ordering.{int_eq};

    ghost mapped = { λ _ x. cond (int_eq x (pos 0)) (pos 0) (cond (int_eq x (pos 1)) (pos 5) (cond (int_eq x (pos 2)) (pos 1) (pos 6))) };

    fn map(&self, _alloc: Global, item: &i64) -> Result<i64, Memory> {
        let place = *item;
        Ok(if place == 0 {
            0
        } else if place == 1 {
            5
        } else if place == 2 {
            1
        } else {
            6
        })
    }
}

/// The number twice.
pub(crate) struct Twice;

impl Mapper<i64, Vec<i64>> for Twice {
    ghost use Rattle.std.specs.Prelude.{[], ◌∷◌};

    ghost mapped = { λ _ x. x ∷ x ∷ [] };

    fn map(&self, alloc: Global, item: &i64) -> Result<Vec<i64>, Memory> {
        Ok(vec![in alloc; *item, *item]?)
    }
}

/// So many truths.
#[derive(Clone, Copy, Drop)]
struct Truths {
    count: usize,
}

impl Mapper<i64, Vec<bool>> for Truths {
    ghost use Rattle.std.specs.Prelude.{replicate, true};

    ghost mapped = { λ t _. replicate t.count true };

    fn map(&self, alloc: Global, _item: &i64) -> Result<Vec<bool>, Memory> {
        Ok(Vec::from_elem(alloc, true, self.count)?)
    }
}

// Whether the answer is this list.
pub(crate) fn is_got(tried: &Tried<Vec<i64>>, items: &[i64]) -> bool {
    match tried {
        Tried::Got(found) => found.as_slice() == items,
        Tried::Fault(_) => false,
    }
}

// Whether the answer is these two lists.
pub(crate) fn are_got(tried: &Tried<(Vec<i64>, Vec<i64>)>, first: &[i64], second: &[i64]) -> bool {
    match tried {
        Tried::Got(found) => found.0.as_slice() == first && found.1.as_slice() == second,
        Tried::Fault(_) => false,
    }
}

#[test]
fn each_item(rt: HostRuntime) -> Result<(), Fail> {
    let alloc = rt.alloc();
    let cases: [(i64, i64, &[i64], &[i64]); 3] = [
        (0, 0, &[], &[]),
        (0, 5, &[0, 1, 4, 9, 16], &[4, 3, 2, 1, 0]),
        (-7, -6, &[49], &[-7]),
    ];
    for (a, b, squares, backwards) in cases {
        let source = stepping(a, b, 1).ok_or("few")?;
        let (made, audit) = map_alone::<RangeSplitter, Ints, OpenGate, Square>(
            alloc, source, &Square, 4, &OpenGate,
        )?;
        assert_eq!(rt; made.as_slice(), squares);
        assert_eq!(rt; tested(&audit), 0);
        let source = stepping(a, b, 1).ok_or("few")?;
        let (made, _) = reverse_alone::<RangeSplitter, Ints, OpenGate, Same>(
            alloc, source, &Same, 4, &OpenGate,
        )?;
        assert_eq!(rt; made.as_slice(), backwards);
    }
    Ok(())
}

#[test]
fn pairs(rt: HostRuntime) -> Result<(), Fail> {
    let alloc = rt.alloc();
    let cases: [(i64, &[(i64, i64)]); 2] = [
        (13, &[(0, 10), (1, 11), (2, 12)]),
        (19, &[(0, 10), (1, 11), (2, 12), (3, 13), (4, 14)]),
    ];
    for (end, wanted) in cases {
        let source = stepping(0, 5, 1).ok_or("few")?;
        let other = stepping(10, end, 1).ok_or("few")?;
        let (made, _) = zip_alone::<RangeSplitter, Pairs, OpenGate, RangeSplitter, Same>(
            alloc, source, other, &Same, 4, &OpenGate,
        )?;
        assert_eq!(rt; made.as_slice(), wanted);
    }
    let source = stepping(0, 6, 2).ok_or("few")?;
    let (made, audit) = zip_with_index_alone::<RangeSplitter, Pairs, OpenGate, Same>(
        alloc, source, &Same, 4, &OpenGate,
    )?;
    assert_eq!(rt; made.as_slice(), [(0i64, 0i64), (2, 1), (4, 2)].as_slice());
    assert_eq!(rt; audit.leaves().len(), 2);
    Ok(())
}

#[test]
fn chosen_items(rt: HostRuntime) -> Result<(), Fail> {
    let alloc = rt.alloc();
    let low = OneOf { a: 0, b: 2, c: 2 };
    let source = stepping(0, 4, 1).ok_or("few")?;
    let (parts, _) = partition_alone::<RangeSplitter, Ints, OpenGate, OneOf, Data>(
        alloc, source, &low, &Data, 4, &OpenGate,
    )?;
    assert!(rt; are_got(&parts, &[0, 1], &[5, 6]));
    let even = OneOf { a: 0, b: 2, c: 4 };
    let source = stepping(0, 6, 1).ok_or("few")?;
    let (squares, audit) = collect_alone::<RangeSplitter, Ints, OpenGate, OneOf, Square>(
        alloc, source, &even, &Square, 4, &OpenGate,
    )?;
    assert!(rt; is_got(&squares, &[0, 4, 16]) && tested(&audit) == 6);
    let from_two = Rule {
        least: 2,
        faulty: -1,
    };
    let source = stepping(0, 5, 1).ok_or("few")?;
    let (kept, _) = filter_not_alone::<RangeSplitter, Ints, OpenGate, Rule, Same>(
        alloc, source, &from_two, &Same, 4, &OpenGate,
    )?;
    assert!(rt; is_got(&kept, &[0, 1]));
    let source = stepping(0, 5, 1).ok_or("few")?;
    let (kept, _) = filter_alone::<RangeSplitter, Ints, OpenGate, Rule, Same>(
        alloc, source, &from_two, &Same, 4, &OpenGate,
    )?;
    assert!(rt; is_got(&kept, &[2, 3, 4]));
    Ok(())
}

#[test]
fn fronts(rt: HostRuntime) -> Result<(), Fail> {
    let alloc = rt.alloc();
    let low = OneOf { a: 0, b: 2, c: 2 };
    let source = stepping(0, 4, 1).ok_or("few")?;
    let (parts, _) = span_alone::<RangeSplitter, Ints, OpenGate, OneOf, Data>(
        alloc, source, &low, &Data, 4, &OpenGate,
    )?;
    assert!(rt; are_got(&parts, &[0], &[5, 1, 6]));
    // The least number that passes, and how many stand before it.
    let cases: [(i64, usize, u64); 3] = [(0, 0, 1), (1, 1, 2), (100, 100, 100)];
    for (least, before, tests) in cases {
        let rule = Not {
            inner: Rule { least, faulty: -1 },
        };
        let source = stepping(0, 100, 1).ok_or("few")?;
        let (front, audit) = take_while_alone::<RangeSplitter, Ints, OpenGate, Not<Rule>, Same>(
            alloc, source, &rule, &Same, 8, &OpenGate,
        )?;
        let count = match front {
            Tried::Got(items) => items.len(),
            Tried::Fault(_) => 1000,
        };
        assert!(rt; count == before && tested(&audit) == tests && audit.leaves().len() == 7);
        let source = stepping(0, 5, 1).ok_or("few")?;
        let (rest, _) = drop_while_alone::<RangeSplitter, Ints, OpenGate, Not<Rule>, Same>(
            alloc, source, &rule, &Same, 4, &OpenGate,
        )?;
        assert!(rt;
            match rest {
                Tried::Got(items) => items.len() == 5usize.saturating_sub(before),
                Tried::Fault(_) => false,
            }
        );
    }
    Ok(())
}

#[test]
fn faults(rt: HostRuntime) -> Result<(), Fail> {
    let alloc = rt.alloc();
    let at = FaultAt { at: 3, kind: 7 };
    let from_five = Rule {
        least: 5,
        faulty: 3,
    };
    let source = stepping(0, 8, 1).ok_or("few")?;
    let (kept, audit) = filter_alone::<RangeSplitter, Ints, OpenGate, Rule, Same>(
        alloc, source, &from_five, &Same, 4, &OpenGate,
    )?;
    assert!(rt; matches!(kept, Tried::Fault(fault) if fault == at) && tested(&audit) == 8);
    let below = Not { inner: from_five };
    let source = stepping(0, 8, 1).ok_or("few")?;
    let (front, audit) = take_while_alone::<RangeSplitter, Ints, OpenGate, Not<Rule>, Same>(
        alloc, source, &below, &Same, 4, &OpenGate,
    )?;
    assert!(rt; matches!(front, Tried::Fault(fault) if fault == at) && tested(&audit) == 4);
    let early = Not {
        inner: Rule {
            least: 2,
            faulty: 3,
        },
    };
    let source = stepping(0, 8, 1).ok_or("few")?;
    let (front, _) = take_while_alone::<RangeSplitter, Ints, OpenGate, Not<Rule>, Same>(
        alloc, source, &early, &Same, 4, &OpenGate,
    )?;
    assert!(rt; is_got(&front, &[0, 1]));
    Ok(())
}

#[test]
fn cuts(rt: HostRuntime) -> Result<(), Fail> {
    let alloc = rt.alloc();
    // A number, and what is taken and dropped by it.
    let cases: [(i64, &[i64], &[i64]); 5] = [
        (-1, &[], &[0, 1, 2, 3, 4]),
        (0, &[], &[0, 1, 2, 3, 4]),
        (3, &[0, 1, 2], &[3, 4]),
        (9, &[0, 1, 2, 3, 4], &[]),
        (i64::MAX, &[0, 1, 2, 3, 4], &[]),
    ];
    for (n, taken, dropped) in cases {
        let source = stepping(0, 5, 1).ok_or("few")?;
        let front = take::<RangeSplitter, Ints, Same>(alloc, source.dup(), n, &Same)?;
        let rest = drop::<RangeSplitter, Ints, Same>(alloc, source.dup(), n, &Same)?;
        assert_eq!(rt; (front.as_slice(), rest.as_slice()), (taken, dropped));
        let (front, rest) = split_at::<RangeSplitter, Ints, Same>(alloc, source, n, &Same)?;
        assert_eq!(rt; (front.as_slice(), rest.as_slice()), (taken, dropped));
    }
    let slices: [(i64, i64, &[i64]); 4] = [
        (-2, 2, &[0, 1]),
        (1, 3, &[1, 2]),
        (3, 1, &[]),
        (i64::MIN, i64::MAX, &[0, 1, 2, 3, 4]),
    ];
    for (a, b, wanted) in slices {
        let source = stepping(0, 5, 1).ok_or("few")?;
        let part = slice::<RangeSplitter, Ints, Same>(alloc, source, a, b, &Same)?;
        assert_eq!(rt; part.as_slice(), wanted);
    }
    Ok(())
}

#[test]
fn lists(rt: HostRuntime) -> Result<(), Fail> {
    let alloc = rt.alloc();
    let source = stepping(0, 3, 1).ok_or("few")?;
    let (made, _) = flat_map_alone::<RangeSplitter, Ints, OpenGate, Twice>(
        alloc, source, &Twice, 4, &OpenGate,
    )?;
    assert_eq!(rt; made.as_slice(), [0i64, 0, 1, 1, 2, 2].as_slice());
    let many = Truths { count: 4_194_305 };
    let source = stepping(0, 1, 1).ok_or("few")?;
    let made = flat_map_alone::<RangeSplitter, ArrayCombiner<bool>, OpenGate, Truths>(
        alloc, source, &many, 4, &OpenGate,
    );
    assert!(rt; matches!(made, Err(FlatStop::TooMany)));
    Ok(())
}

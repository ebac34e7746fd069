//! Calls over arrays.
use crate::rules::{Above, Below, Itself, Other, Present};
use par_access::{
    index_where_alone, last_index_where_alone, reduce_option_alone, segment_length_alone,
};
use par_combiner::ArrayCombiner;
use par_edge::OpenGate;
use par_laws::{Least, Tried};
use par_splitter::{ArraySplitter, Splitter};
use par_transform::{partition_alone, span_alone, split_at};
use std::test::Fail;

const ITEMS: [i64; 4] = [0, 5, 1, 6];

#[test]
fn indexes(rt: HostRuntime) -> Result<(), Fail> {
    let items = ITEMS;
    for (than, first, last) in [(4, 1, 3), (9, -1, -1)] {
        let rule = Above { than };
        let source = ArraySplitter::new(items.as_slice());
        let (found, _) = index_where_alone(rt.alloc(), source.dup(), &rule, 4, &OpenGate)?;
        assert_eq!(rt; found, Tried::Got(first));
        let (found, _) = last_index_where_alone(rt.alloc(), source, &rule, 4, &OpenGate)?;
        assert_eq!(rt; found, Tried::Got(last));
    }
    for (from, length) in [(2i64, 2u32), (-1, 1), (9, 0)] {
        let source = ArraySplitter::new(items.as_slice());
        let rule = Other { than: 5 };
        let (found, _) = segment_length_alone(rt.alloc(), source, &rule, from, 4, &OpenGate)?;
        assert_eq!(rt; found, Tried::Got(length));
    }
    Ok(())
}

// Whether a call made just these two arrays.
fn made(sides: &Tried<(Vec<i64>, Vec<i64>)>, first: &[i64], second: &[i64]) -> bool {
    match sides {
        Tried::Got(sides) => sides.0.as_slice() == first && sides.1.as_slice() == second,
        Tried::Fault(_) => false,
    }
}

#[test]
fn two_sides(rt: HostRuntime) -> Result<(), Fail> {
    let items = ITEMS;
    let alloc = rt.alloc();
    let rule = Below { than: 5 };
    let source = ArraySplitter::new(items.as_slice());
    let (sides, _) = span_alone::<_, ArrayCombiner<i64>, _, _, _>(
        alloc,
        source.dup(),
        &rule,
        &Itself,
        4,
        &OpenGate,
    )?;
    assert!(rt; made(&sides, &[0], &[5, 1, 6]));
    let (sides, _) = partition_alone::<_, ArrayCombiner<i64>, _, _, _>(
        alloc,
        source.dup(),
        &rule,
        &Itself,
        4,
        &OpenGate,
    )?;
    assert!(rt; made(&sides, &[0, 1], &[5, 6]));
    let sides = split_at::<_, ArrayCombiner<i64>, _>(alloc, source, 3, &Itself)?;
    assert!(rt; made(&Tried::Got(sides), &[0, 5, 1], &[6]));
    Ok(())
}

#[test]
fn least_of_some_and_of_none(rt: HostRuntime) -> Result<(), Fail> {
    let some = [3i64, 1, 2];
    let source = ArraySplitter::new(some.as_slice());
    let (least, _) = reduce_option_alone(rt.alloc(), source, &Least, &Present, 4, &OpenGate)?;
    assert_eq!(rt; least, Some(Some(1)));
    let none: [i64; 0] = [];
    let source = ArraySplitter::new(none.as_slice());
    let (least, _) = reduce_option_alone(rt.alloc(), source, &Least, &Present, 4, &OpenGate)?;
    assert_eq!(rt; least, None);
    Ok(())
}

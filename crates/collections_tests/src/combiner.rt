//! What no clause says: that there is a result where there is memory.
use par_combiner::{ArrayCombiner, Chunks, Combiner, Faulted, VectorCombiner, Yield};
use par_laws::{Made, Memory};
use std::alloc::Global;
use std::test::Fail;

/// Adds the items in order, as far as they fit.
fn add_all<C: Combiner>(combiner: &mut C, items: Vec<C::Item>) -> Result<(), Memory> {
    for item in items {
        if combiner.len() < 1000 {
            combiner.add(item)?;
        }
    }
    Ok(())
}

/// What the items of the first two lists make in two combiners, with the third list added after they were combined.
fn made_of<C: Combiner>(
    alloc: Global,
    first: Vec<C::Item>,
    second: Vec<C::Item>,
    third: Vec<C::Item>,
) -> Result<Option<C::Out>, Memory> {
    let mut left = C::empty(alloc)?;
    let mut right = C::empty(alloc)?;
    add_all(&mut left, first)?;
    add_all(&mut right, second)?;
    if left.len() > 1000 || right.len() > 1000 {
        return Ok(None);
    }
    let mut both = left.combine(right);
    add_all(&mut both, third)?;
    Ok(Some(both.result()?))
}

/// Each combiner can move to another thread.
fn sent<T: Send + Drop>(value: T) -> T {
    value
}

#[test]
fn arrays(rt: HostRuntime) -> Result<(), Fail> {
    let alloc = rt.alloc();
    let cases: [(&[i64], &[i64], &[i64], &[i64]); 4] = [
        (&[1, 2], &[3], &[], &[1, 2, 3]),
        (&[1], &[2, 3], &[4, 5], &[1, 2, 3, 4, 5]),
        (&[], &[1], &[2], &[1, 2]),
        (&[], &[], &[], &[]),
    ];
    for (first, second, third, all) in cases {
        let first = Vec::from_slice(alloc, first)?;
        let second = Vec::from_slice(alloc, second)?;
        let third = Vec::from_slice(alloc, third)?;
        let made = made_of::<ArrayCombiner<i64>>(alloc, first, second, third)?;
        let _sent = sent(ArrayCombiner::<i64>::empty(alloc)?);
        let _sent = sent(Faulted::<ArrayCombiner<i64>>::empty(alloc)?);
        assert_eq!(rt; made.ok_or("short")?.as_slice(), all);
    }
    Ok(())
}

#[test]
fn vectors(rt: HostRuntime) -> Result<(), Fail> {
    let alloc = rt.alloc();
    let first = Vec::from_array(alloc, [1i64])?;
    let second = Vec::from_array(alloc, [2i64, 3])?;
    let third = Vec::from_array(alloc, [4i64])?;
    let made = made_of::<VectorCombiner<i64>>(alloc, first, second, third)?;
    let vector = made.ok_or("short")?;
    let _sent = sent(VectorCombiner::<i64>::empty(alloc)?);
    assert_eq!(rt; vector.len(), 4);
    for i in 0..4u32 {
        assert_eq!(rt; vector.get(i).copied(), Some(i as i64 + 1));
    }
    Ok(())
}

#[test]
fn arrays_of_thousands(rt: HostRuntime) -> Result<(), Fail> {
    let alloc = rt.alloc();
    let mut items: ArrayCombiner<u32> = ArrayCombiner::empty(alloc)?;
    for next in 0..9_000u32 {
        if items.len() < 10_000 {
            items.add(next)?;
        }
    }
    let items = items.result()?;
    assert_eq!(rt; items.len(), 9_000);
    for place in [0usize, 4_095, 4_096, 8_192, 8_999] {
        assert_eq!(rt; items.get(place).copied(), Some(place as u32));
    }
    Ok(())
}

#[test]
fn chunks_as_a_list(rt: HostRuntime) -> Result<(), Fail> {
    let alloc = rt.alloc();
    let mut chunks: Chunks<u8> = Chunks::new(alloc);
    chunks.push(7)?;
    let mut more: Chunks<u8> = Chunks::new(alloc);
    more.push(8)?;
    chunks.append(more);
    assert_eq!(rt; chunks.len(), 2);
    let mut list = chunks.into_list();
    let first = list.pop_front().ok_or("none")?;
    let second = list.pop_front().ok_or("none")?;
    assert_eq!(rt;
        (first.as_slice(), second.as_slice()),
        ([7u8].as_slice(), [8u8].as_slice())
    );
    assert!(rt; list.is_empty());
    Ok(())
}

/// Whether all values were made, or that fault.
fn is_made(made: &Yield<Vec<i64>>, fault: Option<(u32, u8)>) -> bool {
    match made {
        Yield::All(values) => {
            fault.is_none() && values.as_slice() == [1i64, 2, 3, 4, 5].as_slice()
        }
        Yield::Fault { at, kind } => fault == Some((*at, *kind)),
    }
}

#[test]
fn faults(rt: HostRuntime) -> Result<(), Fail> {
    let alloc = rt.alloc();
    let fine = Made::Value;
    let fault = |kind| Made::Fault(kind);
    let cases: [([Made<i64>; 2], [Made<i64>; 2], Made<i64>, Option<(u32, u8)>); 5] = [
        ([fine(1), fine(2)], [fine(3), fine(4)], fine(5), None),
        (
            [fine(1), fault(7)],
            [fine(3), fault(8)],
            fine(5),
            Some((1, 7)),
        ),
        (
            [fine(1), fine(2)],
            [fine(3), fault(8)],
            fine(5),
            Some((3, 8)),
        ),
        (
            [fault(7), fault(8)],
            [fine(3), fine(4)],
            fine(5),
            Some((0, 7)),
        ),
        (
            [fine(1), fine(2)],
            [fine(3), fine(4)],
            fault(9),
            Some((4, 9)),
        ),
    ];
    for (first, second, third, fault) in cases {
        let first = Vec::from_array(alloc, first)?;
        let second = Vec::from_array(alloc, second)?;
        let third = vec![in alloc; third]?;
        let made = made_of::<Faulted<ArrayCombiner<i64>>>(alloc, first, second, third)?;
        assert!(rt; is_made(&made.ok_or("short")?, fault));
    }
    Ok(())
}

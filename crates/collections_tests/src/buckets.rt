//! What no clause says: that there is a result where there is memory.

ghost use Rattle.std.specs.Prelude.{◌≤◌, IfOk, length};
ghost use Rattle.std.specs.Map.{keys_of};
ghost use Rattle.par_laws.specs.Hash.{int_hash};
ghost use Rattle.par_combiner.specs.Chunks.{items_of};
ghost use Rattle.par_flat.specs.Blocks.{AreOfBucket};
ghost use Rattle.par_trie.specs.Buckets.{bucket_of_hash};

use par_buckets::{GroupCombiner, MapCombiner, PairList, SetCombiner, group_bucket, map_bucket};
use par_combiner::Combiner;
use par_laws::Memory;
use std::alloc::Global;
use std::collections::LinkedList;
use std::test::Fail;

/// Of one hash, 0, with 0.
const ALIKE: i64 = 4_294_967_297;

/// Adds the items in order, as far as they fit.
fn add_all<C: Combiner>(combiner: &mut C, items: Vec<C::Item>) -> Result<(), Memory> {
    for item in items {
        if combiner.len() < 1000 {
            combiner.add(item)?;
        }
    }
    Ok(())
}

/// What the items of the two lists make, each in a combiner of its own.
fn made_of<C: Combiner>(
    alloc: Global,
    first: Vec<C::Item>,
    second: Vec<C::Item>,
) -> Result<Option<C::Out>, Memory> {
    let mut left = C::empty(alloc)?;
    let mut right = C::empty(alloc)?;
    add_all(&mut left, first)?;
    add_all(&mut right, second)?;
    if left.len() > 1000 || right.len() > 1000 {
        return Ok(None);
    }
    Ok(Some(left.combine(right).result()?))
}

/// Each combiner can move to another thread.
fn sent<T: Send + Drop>(value: T) -> T {
    value
}

#[test]
fn maps(rt: HostRuntime) -> Result<(), Fail> {
    let alloc = rt.alloc();
    let first = Vec::from_slice(alloc, &[(0, 1), (ALIKE, 2)])?;
    let second = Vec::from_slice(alloc, &[(0, 3), (5, 4)])?;
    let made = made_of::<MapCombiner<i64, u64>>(alloc, first, second)?;
    let map = made.ok_or("short")?;
    assert_eq!(rt; map.len(), 3);
    for (key, value) in [(0, 3), (ALIKE, 2), (5, 4)] {
        assert_eq!(rt; map.get(&key), Some(&value), "{key}");
    }
    let _sent = sent(MapCombiner::<i64, u64>::empty(alloc)?);
    Ok(())
}

#[test]
fn groups(rt: HostRuntime) -> Result<(), Fail> {
    let alloc = rt.alloc();
    let first = Vec::from_slice(alloc, &[(0, 1), (ALIKE, 2)])?;
    let second = Vec::from_slice(alloc, &[(0, 3), (5, 4)])?;
    let made = made_of::<GroupCombiner<i64, u64>>(alloc, first, second)?;
    let groups = made.ok_or("short")?;
    assert_eq!(rt; groups.len(), 3);
    for (key, values) in [(0i64, &[1u64, 3] as &[u64]), (ALIKE, &[2]), (5, &[4])] {
        match groups.get(&key) {
            Some(found) => assert_eq!(rt; found.as_slice(), values, "{key}"),
            None => assert!(rt; false, "{key}"),
        }
    }
    let _sent = sent(GroupCombiner::<i64, u64>::empty(alloc)?);
    Ok(())
}

#[test]
fn sets(rt: HostRuntime) -> Result<(), Fail> {
    let alloc = rt.alloc();
    let first = Vec::from_slice(alloc, &[0, ALIKE])?;
    let second = Vec::from_slice(alloc, &[0, 5])?;
    let made = made_of::<SetCombiner<i64>>(alloc, first, second)?;
    let set = made.ok_or("short")?;
    assert_eq!(rt; set.len(), 3);
    assert!(rt; set.contains(&0) && set.contains(&ALIKE) && set.contains(&5));
    let _sent = sent(SetCombiner::<i64>::empty(alloc)?);
    Ok(())
}

#[test]
fn lists_of_buckets(rt: HostRuntime) -> Result<(), Fail> {
    let alloc = rt.alloc();
    let mut map = MapCombiner::empty(alloc)?;
    let mut groups = GroupCombiner::empty(alloc)?;
    let mut set = SetCombiner::empty(alloc)?;
    add_all(&mut map, Vec::from_slice(alloc, &[(0i64, 1u64)])?)?;
    add_all(&mut groups, Vec::from_slice(alloc, &[(0i64, 1u64)])?)?;
    add_all(&mut set, Vec::from_slice(alloc, &[0i64])?)?;
    for lists in [map.into_buckets(alloc)?, groups.into_buckets(alloc)?] {
        for (i, list) in lists.iter().enumerate() {
            assert_eq!(rt; list.is_empty(), i != 0, "{i}");
        }
    }
    for (i, list) in set.into_buckets(alloc)?.iter().enumerate() {
        assert_eq!(rt; list.is_empty(), i != 0, "{i}");
    }
    Ok(())
}

/// Pairs of bucket 0 in two chunks.
fn alike(alloc: Global) -> Result<PairList<i64, u64>, Memory>
    ensures keys { IfOk result (λ pairs. AreOfBucket (λ k. bucket_of_hash (int_hash k)) 0 (keys_of (items_of pairs))) }
    ensures few { IfOk result (λ pairs. length (items_of pairs) ≤ 3) }
{
    let mut first = Vec::new(alloc);
    first.push((0, 1))?;
    first.push((ALIKE, 2))?;
    let mut second = Vec::new(alloc);
    second.push((0, 3))?;
    let mut pairs = LinkedList::new(alloc);
    pairs.push_back(first)?;
    pairs.push_back(second)?;
    Ok(pairs)
}

#[test]
fn one_bucket(rt: HostRuntime) -> Result<(), Fail> {
    let alloc = rt.alloc();
    let pairs = alike(alloc)?;
    let map = map_bucket(alloc, 0, &pairs)?;
    let groups = group_bucket(alloc, 0, &pairs)?;
    assert_eq!(rt; (map.len(), groups.len()), (2, 2));
    for (key, values) in [(0i64, &[1u64, 3] as &[u64]), (ALIKE, &[2])] {
        assert_eq!(rt; map.get(&key), values.last(), "{key}");
        match groups.get(&key) {
            Some(found) => assert_eq!(rt; found.as_slice(), values, "{key}"),
            None => assert!(rt; false, "{key}"),
        }
    }
    Ok(())
}

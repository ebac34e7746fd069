//! What no clause says: that calls succeed, on worked values and beside a plain set.

ghost use Rattle.std.specs.Prelude.{◌≤◌, IfOk, length};
ghost use Rattle.par_laws.specs.Hash.{int_hash};
ghost use Rattle.par_flat.specs.Rooms.{bucket_of_hash};
ghost use Rattle.par_flat.specs.Blocks.{AreOfBucket};

use par_flat::{Block, FlatTable, fill_block, flat_bucket, room_for};
use par_laws::{Back, MAX_ITEMS, Memory};
use par_splitter::Splitter;
use std::alloc::Global;
use std::collections::{BTreeSet, LinkedList};
use std::test::Fail;

/// Of one hash, 0, with 0 and -1.
const ALIKE: i64 = 4_294_967_297;

/// What an insert of a key answered, where it had room and memory.
fn put(table: &mut FlatTable<i64>, key: i64) -> Option<bool> {
    if table.len() == MAX_ITEMS {
        return None;
    }
    match table.insert(key) {
        Ok(new) => Some(new),
        Err(Back { item: _ }) => None,
    }
}

/// Keys of spread hashes, of one hash, and of seven.
fn key_of(kind: u64, i: u64) -> i64 {
    let i = (i % 1000) as i64;
    match kind {
        0 => i.wrapping_mul(0x9E37_79B9),
        1 => i.wrapping_mul(ALIKE),
        _ => i.wrapping_mul(ALIKE).wrapping_add(i % 7),
    }
}

#[test]
fn rooms_and_buckets(rt: HostRuntime) {
    for (n, room) in [(0, 0), (16, 0), (17, 1), (32, 1), (33, 2), (4_194_304, 18)] {
        if n <= MAX_ITEMS {
            assert_eq!(rt; room_for(n), room, "{n}");
        }
    }
    assert_eq!(rt; flat_bucket(0), 0);
    assert_eq!(rt; flat_bucket(1), 19);
}

#[test]
fn beside_a_plain_set(rt: HostRuntime) -> Result<(), Fail> {
    for kind in 0..3 {
        let mut table = FlatTable::with_room(rt.alloc(), 0)?;
        let mut plain = BTreeSet::new(rt.alloc());
        let mut random = 1u64;
        for i in 0..2000 {
            random = random
                .wrapping_mul(6364136223846793005)
                .wrapping_add(1442695040888963407);
            let key = key_of(kind, random >> 33);
            let new = plain.insert(key)?;
            assert_eq!(rt; put(&mut table, key), Some(new), "{kind} {i}");
        }
        assert_eq!(rt; table.len() as usize, plain.len(), "{kind}");
        for i in 0..1000 {
            let key = key_of(kind, i);
            assert_eq!(rt; table.contains(&key), plain.contains(&key), "{kind} {i}");
        }
    }
    Ok(())
}

#[test]
fn keys_of_one_hash(rt: HostRuntime) -> Result<(), Fail> {
    let mut table = FlatTable::with_room(rt.alloc(), 1)?;
    table.add_leftovers(vec![in rt.alloc(); 1, -1, 1]?)?;
    assert!(rt; table.contains(&1) && table.contains(&-1) && !table.contains(&ALIKE));
    let mut splitter = table.splitter();
    assert_eq!(rt; splitter.span(), (0, 2));
    assert_eq!(rt; splitter.next(), Some(&1));
    assert_eq!(rt; splitter.next(), Some(&-1));
    assert!(rt; splitter.next().is_none());
    Ok(())
}

/// The block of the three keys of hash 0, of one slot.
fn alike(alloc: Global) -> Result<Block<i64>, Memory>
    ensures bucket { IfOk result (λ block. AreOfBucket (λ k. bucket_of_hash (int_hash k)) 0 block) }
    ensures few { IfOk result (λ block. length block ≤ 3) }
{
    let mut chunk = Vec::new(alloc);
    chunk.push(0)?;
    chunk.push(ALIKE)?;
    chunk.push(-1)?;
    let mut keys = LinkedList::new(alloc);
    keys.push_back(chunk)?;
    fill_block(alloc, 0, 0, keys)
}

/// The table of that block and 31 empty ones.
fn united(alloc: Global) -> Result<FlatTable<i64>, Memory> {
    let mut blocks = Vec::new(alloc);
    blocks.push(alike(alloc)?)?;
    for bucket in 1..32u32 {
        let empty = fill_block(alloc, bucket, 0, LinkedList::new(alloc))?;
        blocks.push(empty)?;
    }
    FlatTable::from_blocks(alloc, blocks)
}

#[test]
fn unites_blocks(rt: HostRuntime) -> Result<(), Fail> {
    let block = alike(rt.alloc())?;
    assert_eq!(rt; block.len(), 3);
    let table = united(rt.alloc())?;
    assert_eq!(rt; table.len(), 3);
    assert!(rt; table.contains(&0) && table.contains(&ALIKE) && table.contains(&-1));
    Ok(())
}

#[test]
fn at_the_last_room(rt: HostRuntime) -> Result<(), Fail> {
    let mut table = FlatTable::with_room(rt.alloc(), MAX_ITEMS)?;
    assert_eq!(rt; put(&mut table, 1), Some(true));
    assert_eq!(rt; put(&mut table, 1), Some(false));
    assert!(rt; table.contains(&1) && !table.contains(&2));
    Ok(())
}

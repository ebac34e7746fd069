//! What no clause says: that calls succeed, on worked values and beside a plain map.

use par_laws::{Back, MAX_ITEMS, Memory};
use par_splitter::{Cut, Splitter};
use par_trie::{HashTrie, trie_bucket};
use std::alloc::Global;
use std::collections::BTreeMap;
use std::test::Fail;

/// Of one hash, 0.
const ALIKE: i64 = 4_294_967_297;

/// What an insert of a key answered, where it had room and memory.
fn put(trie: &mut HashTrie<i64, u64>, key: i64, value: u64) -> Option<Option<u64>> {
    if trie.len() == MAX_ITEMS {
        return None;
    }
    match trie.insert(key, value) {
        Ok(old) => Some(old),
        Err(Back { item: (_, _) }) => None,
    }
}

/// Keys of spread hashes, of one hash, of seven, and of mixed hashes of eight digits on level 2 and five on level 3.
fn key_of(kind: u64, i: u64) -> i64 {
    let i = (i % 1000) as u32;
    match kind {
        0 => (i as i64).wrapping_mul(0x9E37_79B9),
        1 => (i as i64).wrapping_mul(ALIKE),
        2 => (i as i64).wrapping_mul(ALIKE).wrapping_add((i % 7) as i64),
        _ => { unmixed(i % 8 * 0x400 + i / 8 % 5 * 0x8000 + i / 40 * 0x10_0000) as i64 }
    }
}

/// The hash that `mix` turns into this one.
fn unmixed(mixed: u32) -> u32 {
    let product = mixed ^ (mixed >> 15) ^ (mixed >> 30);
    product.wrapping_mul(244_002_641)
}

#[test]
fn keys_of_one_hash(rt: HostRuntime) {
    let mut trie = HashTrie::new(rt.alloc());
    assert_eq!(rt; put(&mut trie, 0, 10), Some(None));
    assert_eq!(rt; put(&mut trie, ALIKE, 20), Some(None));
    assert_eq!(rt; trie.get(&0), Some(&10));
    assert_eq!(rt; trie.get(&ALIKE), Some(&20));
    assert_eq!(rt; trie.get(&-1), None);
    assert_eq!(rt; trie.len(), 2);
    assert_eq!(rt; put(&mut trie, 0, 11), Some(Some(10)));
    assert_eq!(rt; trie.len(), 2);
    let mut splitter = trie.splitter();
    assert_eq!(rt; splitter.span(), (0, 2));
    assert_eq!(rt; splitter.next(), Some((&0, &11)));
    assert_eq!(rt; splitter.next(), Some((&ALIKE, &20)));
    assert!(rt; splitter.next().is_none());
    match trie.splitter().split() {
        Cut::One(_) => assert!(rt; false),
        Cut::Two(left, right) => assert_eq!(rt;
            (left.remaining(), right.dup().remaining()),
            (1, 1)
        ),
    }
}

#[test]
fn beside_a_plain_map(rt: HostRuntime) -> Result<(), Fail> {
    for kind in 0..4 {
        let mut trie = HashTrie::new(rt.alloc());
        let mut plain = BTreeMap::new(rt.alloc());
        let mut random = 1u64;
        for i in 0..2000 {
            random = random
                .wrapping_mul(6364136223846793005)
                .wrapping_add(1442695040888963407);
            let key = key_of(kind, random >> 33);
            let old = plain.insert(key, i)?;
            assert_eq!(rt; put(&mut trie, key, i), Some(old), "{kind} {i}");
        }
        assert_eq!(rt; trie.len() as usize, plain.len(), "{kind}");
        for i in 0..1000 {
            let key = key_of(kind, i);
            assert_eq!(rt; trie.get(&key), plain.get(&key), "{kind} {i}");
        }
    }
    Ok(())
}

/// The union of 32 maps, of which the first has two keys of bucket 0 and the others none.
fn united(alloc: Global) -> Result<HashTrie<i64, u64>, Memory> {
    let mut first = HashTrie::new(alloc);
    first.insert(0, 10)?;
    first.insert(ALIKE, 20)?;
    let mut subs = Vec::new(alloc);
    subs.push(first)?;
    for _ in 0..31u32 {
        subs.push(HashTrie::new(alloc))?;
    }
    HashTrie::from_buckets(alloc, subs)
}

#[test]
fn unites_buckets(rt: HostRuntime) -> Result<(), Fail> {
    assert_eq!(rt; trie_bucket(0), 0);
    assert_eq!(rt; trie_bucket(1), 31);
    let trie = united(rt.alloc())?;
    assert_eq!(rt; trie.len(), 2);
    assert_eq!(rt; trie.get(&0), Some(&10));
    assert_eq!(rt; trie.get(&ALIKE), Some(&20));
    Ok(())
}

#[test]
fn values_of_a_key(rt: HostRuntime) -> Result<(), Fail> {
    let mut trie = HashTrie::new(rt.alloc());
    for (key, value) in [(0, 1u64), (ALIKE, 2), (0, 3)] {
        if trie.len() < MAX_ITEMS {
            trie.push_value(rt.alloc(), key, value)?;
        }
    }
    assert_eq!(rt; trie.len(), 2);
    for (key, values) in [(0i64, &[1u64, 3] as &[u64]), (ALIKE, &[2])] {
        match trie.get(&key) {
            Some(found) => assert_eq!(rt; found.as_slice(), values, "{key}"),
            None => assert!(rt; false, "{key}"),
        }
    }
    Ok(())
}

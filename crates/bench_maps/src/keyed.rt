//! What takes keys and finds them again.
use par_flat::FlatTable;
use par_laws::{MAX_ITEMS, Memory};
use par_trie::HashTrie;
use std::alloc::Global;
use std::collections::{BTreeMap, HashMap};
use std::io;
use std::time::{Duration, Instant};

/// How many keys each takes.
pub(crate) const COUNT: u32 = 1_000_000;

const ROUNDS: usize = 3;

/// Takes keys, each with a number where it has room for one.
pub(crate) trait Keyed: Sized + Drop {
    /// Without keys, and with room for all where room can be asked for.
    fn empty(alloc: Global) -> Result<Self, Memory>;

    /// Whether the key was new.
    fn put(&mut self, key: i64, number: u64) -> bool;

    fn has(&self, key: i64) -> bool;
}

impl Keyed for HashTrie<i64, u64> {
    fn empty(alloc: Global) -> Result<Self, Memory> {
        Ok(HashTrie::new(alloc))
    }

    fn put(&mut self, key: i64, number: u64) -> bool {
        if self.len() >= MAX_ITEMS {
            return false;
        }
        match self.insert(key, number) {
            Ok(old) => old.is_none(),
            Err(_) => false,
        }
    }

    fn has(&self, key: i64) -> bool {
        self.get(&key).is_some()
    }
}

impl Keyed for FlatTable<i64> {
    fn empty(alloc: Global) -> Result<Self, Memory> {
        FlatTable::with_room(alloc, COUNT)
    }

    fn put(&mut self, key: i64, _number: u64) -> bool {
        if self.len() >= MAX_ITEMS {
            return false;
        }
        self.insert(key).unwrap_or(false)
    }

    fn has(&self, key: i64) -> bool {
        self.contains(&key)
    }
}

impl Keyed for HashMap<i64, u64> {
    fn empty(alloc: Global) -> Result<Self, Memory> {
        Ok(HashMap::with_capacity(alloc, COUNT as usize)?)
    }

    fn put(&mut self, key: i64, number: u64) -> bool {
        match self.insert(key, number) {
            Ok(old) => old.is_none(),
            Err(_) => false,
        }
    }

    fn has(&self, key: i64) -> bool {
        self.get(&key).is_some()
    }
}

impl Keyed for BTreeMap<i64, u64> {
    fn empty(alloc: Global) -> Result<Self, Memory> {
        Ok(BTreeMap::new(alloc))
    }

    fn put(&mut self, key: i64, number: u64) -> bool {
        match self.insert(key, number) {
            Ok(old) => old.is_none(),
            Err(_) => false,
        }
    }

    fn has(&self, key: i64) -> bool {
        self.get(&key).is_some()
    }
}

/// The key with this number: the keys lie all over `i64`, and no two are equal.
#[inline(always)]
pub(crate) fn key(number: u32) -> i64 {
    (number as i64).wrapping_mul(-7_046_029_254_386_353_131)
}

// How many of the keys were new.
fn fill<M: Keyed>(map: &mut M) -> u32 {
    let mut new: u32 = 0;
    for number in 0..COUNT {
        if map.put(key(number), number as u64) {
            new = new.wrapping_add(1);
        }
    }
    new
}

// How many of the keys are found, in another order than they came.
fn find<M: Keyed>(map: &M) -> u32 {
    let mut found: u32 = 0;
    for number in 0..COUNT {
        if map.has(key(number ^ 0x2_5A5A)) {
            found = found.wrapping_add(1);
        }
    }
    found
}

/// Fills an empty one, finds the keys, and tells how many and the best times.
pub(crate) fn measure<M: Keyed>(rt: &HostRuntime, name: &str) -> io::Result<()> {
    let mut filled = Duration::MAX;
    let mut asked = Duration::MAX;
    let mut counts = (0, 0);
    for _ in 0..ROUNDS {
        let Ok(mut map) = M::empty(rt.alloc()) else {
            return Err(io::Error::from(io::ErrorKind::OutOfMemory));
        };
        let start = Instant::now(rt)?;
        counts.0 = fill(&mut map);
        filled = filled.min(start.elapsed(rt)?);
        let start = Instant::now(rt)?;
        counts.1 = find(&map);
        asked = asked.min(start.elapsed(rt)?);
    }
    println!(rt; "{name}: {} new, {} found", counts.0, counts.1)?;
    eprintln!(rt;
        "{name}: insert {} us, find {} us",
        filled.as_micros(),
        asked.as_micros()
    )
}

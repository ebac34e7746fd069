ghost use Rattle.std.specs.Prelude.{◌≡◌, ℕ, ◌+◌, ◌<◌, ◌≤◌, ◌⊎◌, IfOk, IfErr, OnOk, OnErr, length, [], not, take, true};
ghost use Rattle.std.specs.List.{IsDistinct, list_any};
ghost use Rattle.par_index.specs.Entries.{joined};
ghost use Rattle.par_flat.specs.Keys.{insert_key, insert_keys};
ghost use Rattle.par_flat.specs.Rooms.{bucket_of_hash};
ghost use Rattle.par_flat.specs.Blocks.{AreKeyBuckets};

use crate::block::Block;
use crate::bucket::room_for;
use crate::keys::insert_all;
use crate::splitter::FlatSplitter;
use crate::table::Slots;
use par_index::Entries;
use par_laws::{Back, HashKey, MAX_ITEMS, Memory};
use par_splitter::Splitter;
use std::alloc::Global;
use std::marker::Model;

/// A finite set, seen as the list of its keys in the order in which they came.
#[derive(Drop)]
pub struct FlatTable<K: HashKey> {
    pub(crate) keys: Entries<K, (), Slots>,
}

impl<K: HashKey> Model for FlatTable<K> {
    ghost use Rattle.std.specs.Prelude.{List};
    ghost use Rattle.std.specs.Map.{keys_of};
    ghost use Rattle.std.specs.Coded.{coded_list};

    ghost Value = { List K };

    ghost coded = { coded_list K.code };

    ghost view = { λ table. keys_of table.keys };
}

impl<K: HashKey> FlatTable<K> {
    /// The empty set, with room for `n` keys before it grows.
    pub fn with_room(alloc: Global, n: u32) -> Result<FlatTable<K>, Memory>
        requires { n ≤ MAX_ITEMS }
        ensures { IfOk result (λ table. table ≡ []) }
    {
        let slots = Slots::with_room(alloc, room_for(n))?;
        Ok(FlatTable {
            keys: Entries::new(alloc, slots),
        })
    }

    /// How many keys there are: 0 to `MAX_ITEMS`. Constant time.
    pub fn len(&self) -> u32
        ensures len { result ≡ length self.now }
        ensures bound { length self.now ≤ MAX_ITEMS }
        ensures distinct { IsDistinct K.eq self.now }
    {
        self.keys.len()
    }

    /// Whether the set has a key equal to this one. It costs the table's probe. Takes no memory.
    pub fn contains(&self, key: &K) -> bool
        ensures { result ≡ list_any (K.eq key.now) self.now }
    {
        self.keys.get(key).is_some()
    }

    /// Adds a key, and answers true exactly where it is new. An equal key that is there stays. For want of memory the
    /// key comes back, and the set is as it was.
    pub fn insert(&mut self, key: K) -> Result<bool, Back<K>>
        requires { (length self.old < MAX_ITEMS) ⊎ (list_any (K.eq key) self.old ≡ true) }
        ensures new { IfOk result (λ new. new ≡ not (list_any (K.eq key) self.old)) }
        ensures keys { OnOk result (self.new ≡ insert_key K.eq self.old key) }
        ensures distinct { IsDistinct K.eq self.new }
        ensures err { OnErr result (self.new ≡ self.old) }
        ensures back { IfErr result (λ back. back.item ≡ key) }
    {
        match self.keys.insert(key, ()) {
            Ok(old) => Ok(old.is_none()),
            Err(Back { item: (key, ()) }) => Err(Back { item: key }),
        }
    }

    /// Adds each of the keys that is not there yet. After a refusal for want of memory some of the first of them were
    /// added, and the rest are dropped.
    pub fn add_leftovers(&mut self, keys: Vec<K>) -> Result<(), Memory>
        requires { length self.old + length keys.items ≤ MAX_ITEMS }
        ensures ok { OnOk result (self.new ≡ insert_keys K.eq self.old keys.items) }
        ensures err { OnErr result ((n : ℕ) × (self.new ≡ insert_keys K.eq self.old (take n keys.items))) }
    {
        insert_all(&mut self.keys, keys)
    }

    /// The union of 32 blocks, of which block i has only keys of bucket i: the keys of the first, then of the second, and
    /// so on, leftovers included. Keys move, and none is compared with another.
    pub fn from_blocks(alloc: Global, blocks: Vec<Block<K>>) -> Result<FlatTable<K>, Memory>
        requires count { length blocks.items ≡ 32 }
        requires buckets { AreKeyBuckets (λ k. bucket_of_hash (K.hash (K.shown k))) blocks.items }
        requires room { length (joined blocks.items) ≤ MAX_ITEMS }
        ensures union { IfOk result (λ table. table ≡ joined blocks.items) }
        ensures distinct { IfOk result (λ table. IsDistinct K.eq table) }
    {
        let slots = Slots::with_room(alloc, blocks[0].room())?;
        let mut union = Entries::new(alloc, slots);
        for block in blocks {
            union.append(block.into_keys())?;
        }
        Ok(FlatTable { keys: union })
    }
}

impl<K: HashKey + Sync> FlatTable<K> {
    /// All keys, each once, in the order in which they came. Constant time, and takes no memory.
    pub fn splitter<'a>(&'a self) -> FlatSplitter<'a, K>
        ensures list { ⟦<FlatSplitter<'a, K> as Splitter>⟧.items result ≡ self.now }
        ensures place { ⟦<FlatSplitter<'a, K> as Splitter>⟧.lo result ≡ 0 }
        ensures distinct { IsDistinct K.eq self.now }
    {
        FlatSplitter::over(self.keys.as_slice())
    }
}

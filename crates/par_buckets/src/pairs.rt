ghost use Rattle.std.specs.Prelude.{◌≡◌, ◌+◌, ◌<◌, ◌≤◌, IfOk, IfErr, OnOk, OnErr, length, map, [], replicate};
ghost use Rattle.par_index.specs.Entries.{joined};
ghost use Rattle.par_combiner.specs.Chunks.{items_of};
ghost use Rattle.par_trie.specs.Buckets.{bucket_of_hash};
ghost use Rattle.par_buckets.specs.Held.{added, together};

use crate::lists::BucketLists;
use par_laws::{Back, HashKey, MAX_ITEMS, Memory};
use par_trie::trie_bucket;
use std::alloc::Global;
use std::collections::LinkedList;
use std::marker::Model;

/// Pairs of a key and a value, in chunks.
pub type PairList<K, V> = LinkedList<Vec<(K, V)>>;

/// Pairs by the trie bucket of their keys. It is seen as how many pairs there are and the 32 lists of them, each in the
/// order of arrival.
#[derive(Drop)]
pub struct BucketCombiner<K: HashKey, V> {
    lists: BucketLists<(K, V)>,
}

impl<K: HashKey, V> Model for BucketCombiner<K, V> {
    ghost use Rattle.std.specs.Prelude.{ℕ, List};

    ghost Value = { ℕ × List (List (K × V)) };

    ghost view = { λ combiner. combiner.lists };
}

impl<K: HashKey, V: Drop> BucketCombiner<K, V> {
    /// Without pairs.
    pub fn new(alloc: Global) -> Result<BucketCombiner<K, V>, Memory>
        ensures { IfOk result (λ combiner. combiner ≡ (0, replicate 32 [])) }
    {
        Ok(BucketCombiner {
            lists: BucketLists::new(alloc)?,
        })
    }

    /// How many pairs there are: 0 to `MAX_ITEMS`. Constant time.
    pub fn len(&self) -> u32
        ensures { result ≡ self.now.0 }
    {
        self.lists.len()
    }

    /// Adds a pair at the end of its key's bucket. For want of memory it comes back, and the combiner is as it was.
    /// Constant time, over many calls.
    pub fn add(&mut self, key: K, value: V) -> Result<(), Back<(K, V)>>
        requires { self.old.0 < MAX_ITEMS }
        ensures added { OnOk result (self.new ≡ added (bucket_of_hash (K.hash (K.shown key))) (key, value) self.old) }
        ensures err { OnErr result (self.new ≡ self.old) }
        ensures back { IfErr result (λ back. back.item ≡ (key, value)) }
    {
        let bucket = trie_bucket(key.hash32());
        self.lists.add(bucket, (key, value))
    }

    /// One combiner with the pairs of this one, and then those of the other. Constant time, and takes no memory.
    pub fn combine(mut self, other: BucketCombiner<K, V>) -> BucketCombiner<K, V>
        requires { self.0 + other.0 ≤ MAX_ITEMS }
        ensures { result ≡ together self other }
    {
        self.lists.append(other.lists);
        self
    }

    /// All pairs, bucket by bucket.
    pub(crate) fn into_vec(self, alloc: Global) -> Result<Vec<(K, V)>, Memory>
        ensures items { IfOk result (λ all. all.items ≡ joined self.1) }
        ensures bound { IfOk result (λ all. length all.items ≤ MAX_ITEMS) }
    {
        self.lists.into_vec(alloc)
    }

    /// The 32 lists: list i has, in order, the pairs whose key has trie bucket i.
    pub fn into_buckets(self, alloc: Global) -> Result<Vec<PairList<K, V>>, Memory>
        ensures lists { IfOk result (λ lists. map items_of lists.items ≡ self.1) }
        ensures count { IfOk result (λ lists. length lists.items ≡ 32) }
    {
        self.lists.into_lists(alloc)
    }
}

ghost use Rattle.std.specs.Prelude.{◌≡◌, ℕ, ◌+◌, ◌<◌, ◌≤◌, ◌⊎◌, IfOk, IfErr, OnOk, OnErr, length, [], IsSome};
ghost use Rattle.std.specs.List.{IsDistinct};
ghost use Rattle.std.specs.Map.{lookup, keys_of, update};
ghost use Rattle.std.specs.Option.{option_copied};
ghost use Rattle.par_index.specs.Entries.{groups_of, insert_entry, joined, push_to_group, AreBuckets};
ghost use Rattle.par_trie.specs.Buckets.{bucket_of_hash};

use crate::level::{Levels, Root};
use crate::splitter::TrieSplitter;
use par_index::Entries;
use par_laws::{Back, HashKey, MAX_ITEMS, Memory};
use par_splitter::Splitter;
use std::alloc::Global;
use std::marker::Model;

/// A finite map with distinct keys, seen as the list of its entries in the order in which their keys came.
#[derive(Drop)]
pub struct HashTrie<K: HashKey, V> {
    entries: Entries<K, V, Root<Levels>>,
}

impl<K: HashKey, V> Model for HashTrie<K, V> {
    ghost use Rattle.std.specs.Prelude.{List};
    ghost use Rattle.std.specs.Coded.{coded_list, coded×};

    ghost Value = { List (K × V) };

    ghost coded = { coded_list (coded× K.code V.code) };

    ghost view = { λ trie. trie.entries };
}

impl<K: HashKey, V> HashTrie<K, V> {
    /// The empty map. Takes no memory.
    pub fn new(alloc: Global) -> HashTrie<K, V>
        ensures { result ≡ [] }
    {
        HashTrie {
            entries: Entries::new(alloc, Root::new(alloc)),
        }
    }

    /// How many keys there are: 0 to `MAX_ITEMS`. Constant time.
    pub fn len(&self) -> u32
        ensures len { result ≡ length self.now }
        ensures bound { length self.now ≤ MAX_ITEMS }
        ensures distinct { IsDistinct K.eq (keys_of self.now) }
    {
        self.entries.len()
    }

    /// The value of a key; None exactly where the key isn't there. It costs the trie's depth. Takes no memory.
    pub fn get(&self, key: &K) -> Option<&V>
        ensures { option_copied result ≡ lookup (K.eq key.now) self.now }
    {
        self.entries.get(key)
    }

    /// Gives the key this value, and answers the value that it replaced: None exactly where the key is new. An equal
    /// key that is there stays in its place. For want of memory the pair comes back, and the map is as it was.
    pub fn insert(&mut self, key: K, value: V) -> Result<Option<V>, Back<(K, V)>>
        requires { (length self.old < MAX_ITEMS) ⊎ IsSome (lookup (K.eq key) self.old) }
        ensures old { IfOk result (λ old. old ≡ lookup (K.eq key) self.old) }
        ensures updates { OnOk result ((q : K) → lookup (K.eq q) self.new ≡ update K.eq (λ p. lookup (K.eq p) self.old) key (Some value) q) }
        ensures entries { OnOk result (self.new ≡ insert_entry K.eq self.old key value) }
        ensures distinct { IsDistinct K.eq (keys_of self.new) }
        ensures err { OnErr result (self.new ≡ self.old) }
        ensures back { IfErr result (λ back. back.item ≡ (key, value)) }
    {
        self.entries.insert(key, value)
    }

    /// The union of 32 maps, of which map i has only keys of bucket i: the entries of the first, then of the second, and
    /// so on. Entries move, and no key is looked for.
    pub fn from_buckets(alloc: Global, subs: Vec<HashTrie<K, V>>) -> Result<HashTrie<K, V>, Memory>
    where
        V: Drop,
        requires count { length subs.items ≡ 32 }
        requires buckets { AreBuckets (λ k. bucket_of_hash (K.hash (K.shown k))) subs.items }
        requires room { length (joined subs.items) ≤ MAX_ITEMS }
        ensures union { IfOk result (λ trie. trie ≡ joined subs.items) }
        ensures distinct { IfOk result (λ trie. IsDistinct K.eq (keys_of trie)) }
    {
        let mut union = Entries::new(alloc, Root::new(alloc));
        for sub in subs {
            let HashTrie { entries } = sub;
            union.append(entries)?;
        }
        Ok(HashTrie { entries: union })
    }
}

impl<K: HashKey, V: Drop> HashTrie<K, Vec<V>> {
    /// Adds a value at the end of the key's vector, which costs constant time beside finding it, over many calls. A new
    /// key gets a vector of the value alone. For want of memory the pair comes back, and the vectors are as they were.
    pub fn push_value(&mut self, alloc: Global, key: K, value: V) -> Result<(), Back<(K, V)>>
        requires { (length self.old < MAX_ITEMS) ⊎ IsSome (lookup (K.eq key) self.old) }
        ensures groups { OnOk result (groups_of self.new ≡ push_to_group K.eq (groups_of self.old) key value) }
        ensures distinct { IsDistinct K.eq (keys_of self.new) }
        ensures err { OnErr result (groups_of self.new ≡ groups_of self.old) }
        ensures back { IfErr result (λ back. back.item ≡ (key, value)) }
    {
        self.entries.push_value(alloc, key, value)
    }
}

impl<K: HashKey + Sync, V: Sync> HashTrie<K, V> {
    /// All entries, each once, in the order in which their keys came. Constant time, and takes no memory.
    pub fn splitter<'a>(&'a self) -> TrieSplitter<'a, K, V>
        ensures list { ⟦<TrieSplitter<'a, K, V> as Splitter>⟧.items result ≡ self.now }
        ensures place { ⟦<TrieSplitter<'a, K, V> as Splitter>⟧.lo result ≡ 0 }
        ensures distinct { IsDistinct K.eq (keys_of self.now) }
    {
        TrieSplitter::over(self.entries.as_slice())
    }
}

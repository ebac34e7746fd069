ghost use Rattle.std.specs.Prelude.{◌≡◌, ℕ, ◌+◌, ◌<◌, ◌≤◌, ◌⊎◌, IfOk, IfErr, OnOk, OnErr, length, [], ◌∷◌, ◌++◌, IsSome, IfSome, IfNone, true, slice_get, take};
ghost use Rattle.std.specs.List.{IsDistinct};
ghost use Rattle.std.specs.Map.{lookup, keys_of, update};
ghost use Rattle.std.specs.Option.{option_copied};
ghost use Rattle.par_index.specs.Entries.{groups_of, insert_entry, is_key_at, IsApart, IsKept, push_to_group};

use crate::index::{Index, Wanted};
use par_laws::{Back, HashKey, MAX_ITEMS, Memory, mix};
use std::alloc::Global;
use std::marker::Model;

/// A finite map with distinct keys, seen as the list of its entries in the order in which their keys came.
#[derive(Drop)]
pub struct Entries<K: HashKey, V, I: Index> {
    entries: Vec<(K, V)>,
    index: I,
}

impl<K: HashKey, V, I: Index> Model for Entries<K, V, I> {
    ghost use Rattle.std.specs.Prelude.{List};
    ghost use Rattle.std.specs.Coded.{coded_list, coded×};

    ghost Value = { List (K × V) };

    ghost coded = { coded_list (coded× K.code V.code) };

    ghost use Rattle.par_index.specs.Entries.{IsKept};

    ghost view = { λ m. m.entries.items };

    ghost invariant = { λ m. IsKept K.eq (λ k. K.hash (K.shown k)) m.entries.items (I.has m.index) (I.count m.index) };
}

/// The entry of a key, looked for by its place.
struct KeyAt<'a, K, V> {
    entries: &'a [(K, V)],
    key: &'a K,
}

impl<'a, K, V> Drop for KeyAt<'a, K, V> {
    fn drop(self) {
        let KeyAt { entries: _, key: _ } = self;
    }
}

impl<'a, K: HashKey, V> Wanted for KeyAt<'a, K, V> {
    ghost use Rattle.std.specs.Prelude.{slice_get};
    ghost use Rattle.par_index.specs.Entries.{is_key_at};

    ghost is_wanted = { λ w at. is_key_at (K.eq w.key.now) (slice_get w.entries.now at) };

    fn is_at(&self, at: u32) -> bool {
        match self.entries.get(at as usize) {
            Some(entry) => *self.key == entry.0,
            None => false,
        }
    }
}

impl<K: HashKey, V, I: Index> Entries<K, V, I> {
    /// No entries, over an index that has no places. Takes no memory.
    pub fn new(alloc: Global, index: I) -> Entries<K, V, I>
        requires { I.count index ≡ 0 }
        ensures { result ≡ [] }
    {
        Entries {
            entries: Vec::new(alloc),
            index,
        }
    }

    /// How many entries there are: 0 to `MAX_ITEMS`. Constant time.
    pub fn len(&self) -> u32
        ensures len { result ≡ length self.now }
        ensures bound { length self.now ≤ MAX_ITEMS }
        ensures distinct { IsDistinct K.eq (keys_of self.now) }
    {
        self.entries.len() as u32
    }

    /// The entries, in the order in which their keys came. Constant time.
    pub fn as_slice(&self) -> &[(K, V)]
        ensures entries { result.now ≡ self.now }
        ensures bound { length self.now ≤ MAX_ITEMS }
        ensures distinct { IsDistinct K.eq (keys_of self.now) }
    {
        self.entries.as_slice()
    }

    /// The index, which keeps the place of each entry under its hash. Constant time.
    pub fn index(&self) -> &I
        ensures { IsKept K.eq (λ k. K.hash (K.shown k)) self.now (I.has result.now) (I.count result.now) }
    {
        &self.index
    }

    /// The value of a key; None exactly where the key isn't there. Takes no memory.
    pub fn get(&self, key: &K) -> Option<&V>
        ensures { option_copied result ≡ lookup (K.eq key.now) self.now }
    {
        let at = place_of(self.entries.as_slice(), &self.index, key)?;
        Some(&self.entries[at as usize].1)
    }

    /// Gives the key this value, and answers the value that it replaced: None exactly where the key is new. An equal
    /// key that is there stays. For want of memory the pair comes back, and the map is as it was.
    pub fn insert(&mut self, key: K, value: V) -> Result<Option<V>, Back<(K, V)>>
        requires { (length self.old < MAX_ITEMS) ⊎ IsSome (lookup (K.eq key) self.old) }
        ensures old { IfOk result (λ old. old ≡ lookup (K.eq key) self.old) }
        ensures ok { OnOk result (self.new ≡ insert_entry K.eq self.old key value) }
        ensures updates { OnOk result ((q : K) → lookup (K.eq q) self.new ≡ update K.eq (λ p. lookup (K.eq p) self.old) key (Some value) q) }
        ensures distinct { IsDistinct K.eq (keys_of self.new) }
        ensures err { OnErr result (self.new ≡ self.old) }
        ensures back { IfErr result (λ back. back.item ≡ (key, value)) }
    {
        if let Some(at) = place_of(self.entries.as_slice(), &self.index, &key) {
            let entry = &mut self.entries[at as usize];
            let old = std::mem::replace(&mut entry.1, value);
            return Ok(Some(old));
        }
        self.push(key, value)?;
        Ok(None)
    }

    /// Adds an entry whose key isn't there yet, without looking for it.
    pub fn push(&mut self, key: K, value: V) -> Result<(), Back<(K, V)>>
        requires room { length self.old < MAX_ITEMS }
        requires absent { lookup (K.eq key) self.old ≡ None }
        ensures ok { OnOk result (self.new ≡ self.old ++ (key, value) ∷ []) }
        ensures distinct { IsDistinct K.eq (keys_of self.new) }
        ensures err { OnErr result (self.new ≡ self.old) }
        ensures back { IfErr result (λ back. back.item ≡ (key, value)) }
    {
        let Ok(()) = self.entries.reserve(1) else {
            return Err(Back { item: (key, value) });
        };
        let Ok(()) = self.index.push(mix(key.hash32())) else {
            return Err(Back { item: (key, value) });
        };
        self.entries.push_reserved((key, value));
        Ok(())
    }

    /// Moves the entries of another map to the end, where the two have no key in common. After a refusal for want of
    /// memory some of the first of them were moved, and the rest are dropped.
    pub fn append<J: Index>(&mut self, other: Entries<K, V, J>) -> Result<(), Memory>
    where
        V: Drop,
        requires room { length self.old + length other ≤ MAX_ITEMS }
        requires apart { IsApart K.eq self.old other }
        ensures ok { OnOk result (self.new ≡ self.old ++ other) }
        ensures err { OnErr result ((n : ℕ) × (self.new ≡ self.old ++ take n other)) }
        ensures distinct { IsDistinct K.eq (keys_of self.new) }
    {
        let Entries { entries, index: _ } = other;
        self.entries.reserve(entries.len())?;
        for (key, value) in entries {
            self.push(key, value)?;
        }
        Ok(())
    }
}

impl<K: HashKey, V: Drop, I: Index> Entries<K, Vec<V>, I> {
    /// Adds a value at the end of the key's vector, which costs constant time beside finding it, over many calls. A new
    /// key gets a vector of the value alone. For want of memory the pair comes back, and the vectors are as they were.
    pub fn push_value(&mut self, alloc: Global, key: K, value: V) -> Result<(), Back<(K, V)>>
        requires { (length self.old < MAX_ITEMS) ⊎ IsSome (lookup (K.eq key) self.old) }
        ensures ok { OnOk result (groups_of self.new ≡ push_to_group K.eq (groups_of self.old) key value) }
        ensures distinct { IsDistinct K.eq (keys_of self.new) }
        ensures err { OnErr result (groups_of self.new ≡ groups_of self.old) }
        ensures back { IfErr result (λ back. back.item ≡ (key, value)) }
    {
        if let Some(at) = place_of(self.entries.as_slice(), &self.index, &key) {
            let entry = &mut self.entries[at as usize];
            return match entry.1.push(value) {
                Ok(()) => Ok(()),
                Err(refused) => Err(Back {
                    item: (key, refused.value),
                }),
            };
        }
        let Ok(mut values) = Vec::with_capacity(alloc, 1) else {
            return Err(Back { item: (key, value) });
        };
        values.push_reserved(value);
        match self.push(key, values) {
            Ok(()) => Ok(()),
            Err(
                Back {
                    item: (key, mut values),
                },
            ) => match values.pop() {
                Some(value) => Err(Back { item: (key, value) }),
                None => unreachable!(),
            },
        }
    }
}

fn place_of<K: HashKey, V, I: Index>(entries: &[(K, V)], index: &I, key: &K) -> Option<u32>
    requires { IsKept K.eq (λ k. K.hash (K.shown k)) entries.now (I.has index.now) (I.count index.now) }
    ensures found { IfSome result (λ at. is_key_at (K.eq key.now) (slice_get entries.now at) ≡ true) }
    ensures absent { IfNone result (lookup (K.eq key.now) entries.now ≡ None) }
{
    index.find(mix(key.hash32()), &KeyAt { entries, key })
}

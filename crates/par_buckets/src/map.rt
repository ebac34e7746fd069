ghost use Rattle.std.specs.Prelude.{◌≡◌, ◌+◌, ◌≤◌, IfOk, OnOk, length, map};
ghost use Rattle.par_combiner.specs.Chunks.{items_of};
ghost use Rattle.std.specs.List.{IsDistinct};
ghost use Rattle.std.specs.Ordering.{eq_by_cmp};
ghost use Rattle.par_flat.specs.Blocks.{AreOfBucket};
ghost use Rattle.par_trie.specs.Buckets.{bucket_of_hash};
ghost use Rattle.std.specs.Map.{keys_of};
ghost use Rattle.par_buckets.specs.Values.{insert_entries, IsMapOf};

use crate::pairs::{BucketCombiner, PairList};
use par_combiner::Combiner;
use par_laws::{Back, HashKey, Keep, MAX_ITEMS, Memory, Shown};
use par_trie::HashTrie;
use std::alloc::Global;
use std::collections::LinkedList;

/// The combiner of a map, to which pairs are added, and in which the last pair of a key wins.
#[derive(Drop)]
pub struct MapCombiner<K: HashKey, V> {
    alloc: Global,
    pairs: BucketCombiner<K, V>,
}

impl<K: HashKey, V: Shown> Shown for MapCombiner<K, V> {
    type Value = (u32, LinkedList<LinkedList<(K, V)>>);

    ghost shown = { λ combiner. combiner.pairs };
}

impl<K: HashKey, V: Shown + Drop> Combiner for MapCombiner<K, V> {
    ghost use Rattle.par_buckets.specs.Held.{together};
    ghost use Rattle.par_buckets.specs.Values.{Has};
    ghost use Rattle.par_buckets.specs.Laws.{has-counts, has-together};

    type Item = (K, V);

    type Out = HashTrie<K, V>;

    ghost has = { λ v xs. Has (λ p. bucket_of_hash (K.hash (K.shown p.0))) (λ p. (K.shown p.0, V.shown p.1)) v xs };

    ghost count = { λ v. v.0 };

    ghost joined = { together };

    ghost stands = { λ out xs. IsMapOf K.eq (eq_by_cmp K.order) K.shown V.shown out xs };

    ghost counts = { λ v xs h. has-counts (λ p. bucket_of_hash (K.hash (K.shown p.0))) (λ p. (K.shown p.0, V.shown p.1)) v xs h };

    ghost joins = { λ v w xs ys p q. has-together (λ p. bucket_of_hash (K.hash (K.shown p.0))) (λ p. (K.shown p.0, V.shown p.1)) v w xs ys p q };

    fn empty(alloc: Global) -> Result<MapCombiner<K, V>, Memory> {
        Ok(MapCombiner {
            alloc,
            pairs: BucketCombiner::new(alloc)?,
        })
    }

    fn add(&mut self, item: (K, V)) -> Result<(), Back<(K, V)>> {
        let (key, value) = item;
        self.pairs.add(key, value)
    }

    fn combine(self, other: MapCombiner<K, V>) -> MapCombiner<K, V> {
        MapCombiner {
            alloc: self.alloc,
            pairs: self.pairs.combine(other.pairs),
        }
    }

    fn len(&self) -> u32 {
        self.pairs.len()
    }

    /// The map, filled by one thread.
    fn result(self) -> Result<HashTrie<K, V>, Memory> {
        let MapCombiner { alloc, pairs } = self;
        let mut trie = HashTrie::new(alloc);
        insert_pairs(&mut trie, pairs.into_vec(alloc)?)?;
        Ok(trie)
    }
}

impl<K: HashKey, V: Shown + Drop> MapCombiner<K, V> {
    /// The 32 lists: list i has, in order, the pairs whose key has trie bucket i.
    pub fn into_buckets(self, alloc: Global) -> Result<Vec<PairList<K, V>>, Memory>
        ensures lists { IfOk result (λ lists. map items_of lists.items ≡ (⟦<MapCombiner<K, V> as Shown>⟧.shown self).1) }
        ensures count { IfOk result (λ lists. length lists.items ≡ 32) }
    {
        self.pairs.into_buckets(alloc)
    }
}

/// The map of one bucket's pairs: the last value of each key. Keys and values are copied, a chunk at a time.
pub fn map_bucket<K: HashKey, V: Keep + Drop>(
    alloc: Global,
    _bucket: u32,
    pairs: &PairList<K, V>,
) -> Result<HashTrie<K, V>, Memory>
    requires room { length (items_of pairs.now) ≤ MAX_ITEMS }
    requires keys { AreOfBucket (λ k. bucket_of_hash (K.hash (K.shown k))) _bucket (keys_of (items_of pairs.now)) }
    ensures map { IfOk result (λ trie. IsMapOf K.eq (eq_by_cmp K.order) K.shown V.shown trie (map (λ p. (K.shown p.0, V.shown p.1)) (items_of pairs.now))) }
    ensures bucket { IfOk result (λ trie. AreOfBucket (λ k. bucket_of_hash (K.hash (K.shown k))) _bucket (keys_of trie)) }
    ensures count { IfOk result (λ trie. length trie ≤ length (items_of pairs.now)) }
{
    let mut trie = HashTrie::new(alloc);
    for chunk in pairs {
        insert_pairs(&mut trie, chunk.copy(alloc)?)?;
    }
    Ok(trie)
}

fn insert_pairs<K: HashKey, V: Drop>(
    trie: &mut HashTrie<K, V>,
    pairs: Vec<(K, V)>,
) -> Result<(), Memory>
    requires { length trie.old + length pairs.items ≤ MAX_ITEMS }
    ensures pairs { OnOk result (trie.new ≡ insert_entries K.eq trie.old pairs.items) }
    ensures distinct { OnOk result (IsDistinct K.eq (keys_of trie.old) → IsDistinct K.eq (keys_of trie.new)) }
{
    for (key, value) in pairs {
        trie.insert(key, value)?;
    }
    Ok(())
}

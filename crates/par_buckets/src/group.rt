ghost use Rattle.std.specs.Prelude.{◌≡◌, ◌+◌, ◌≤◌, IfOk, OnOk, length, map};
ghost use Rattle.par_combiner.specs.Chunks.{items_of};
ghost use Rattle.std.specs.List.{IsDistinct};
ghost use Rattle.std.specs.Map.{keys_of};
ghost use Rattle.std.specs.Ordering.{eq_by_cmp};
ghost use Rattle.par_flat.specs.Blocks.{AreOfBucket};
ghost use Rattle.par_trie.specs.Buckets.{bucket_of_hash};
ghost use Rattle.par_index.specs.Entries.{groups_of};
ghost use Rattle.par_buckets.specs.Values.{push_to_groups, IsGroupsOf};

use crate::pairs::{BucketCombiner, PairList};
use par_combiner::Combiner;
use par_laws::{Back, HashKey, Keep, MAX_ITEMS, Memory, Shown};
use par_trie::HashTrie;
use std::alloc::Global;
use std::collections::LinkedList;

/// The combiner of groups, to which pairs are added: each key's values stand in a vector, in the order of arrival.
#[derive(Drop)]
pub struct GroupCombiner<K: HashKey, V> {
    alloc: Global,
    pairs: BucketCombiner<K, V>,
}

impl<K: HashKey, V: Shown> Shown for GroupCombiner<K, V> {
    type Value = (u32, LinkedList<LinkedList<(K, V)>>);

    ghost shown = { λ combiner. combiner.pairs };
}

impl<K: HashKey, V: Shown + Drop> Combiner for GroupCombiner<K, V> {
    ghost use Rattle.par_buckets.specs.Held.{together};
    ghost use Rattle.par_buckets.specs.Values.{Has};
    ghost use Rattle.par_buckets.specs.Laws.{has-counts, has-together};

    type Item = (K, V);

    type Out = HashTrie<K, Vec<V>>;

    ghost has = { λ v xs. Has (λ p. bucket_of_hash (K.hash (K.shown p.0))) (λ p. (K.shown p.0, V.shown p.1)) v xs };

    ghost count = { λ v. v.0 };

    ghost joined = { together };

    ghost stands = { λ out xs. IsGroupsOf K.eq (eq_by_cmp K.order) K.shown V.shown out xs };

    ghost counts = { λ v xs h. has-counts (λ p. bucket_of_hash (K.hash (K.shown p.0))) (λ p. (K.shown p.0, V.shown p.1)) v xs h };

    ghost joins = { λ v w xs ys p q. has-together (λ p. bucket_of_hash (K.hash (K.shown p.0))) (λ p. (K.shown p.0, V.shown p.1)) v w xs ys p q };

    fn empty(alloc: Global) -> Result<GroupCombiner<K, V>, Memory> {
        Ok(GroupCombiner {
            alloc,
            pairs: BucketCombiner::new(alloc)?,
        })
    }

    fn add(&mut self, item: (K, V)) -> Result<(), Back<(K, V)>> {
        let (key, value) = item;
        self.pairs.add(key, value)
    }

    fn combine(self, other: GroupCombiner<K, V>) -> GroupCombiner<K, V> {
        GroupCombiner {
            alloc: self.alloc,
            pairs: self.pairs.combine(other.pairs),
        }
    }

    fn len(&self) -> u32 {
        self.pairs.len()
    }

    /// The groups, filled by one thread.
    fn result(self) -> Result<HashTrie<K, Vec<V>>, Memory> {
        let GroupCombiner { alloc, pairs } = self;
        let mut trie = HashTrie::new(alloc);
        push_pairs(&mut trie, alloc, pairs.into_vec(alloc)?)?;
        Ok(trie)
    }
}

impl<K: HashKey, V: Shown + Drop> GroupCombiner<K, V> {
    /// The 32 lists: list i has, in order, the pairs whose key has trie bucket i.
    pub fn into_buckets(self, alloc: Global) -> Result<Vec<PairList<K, V>>, Memory>
        ensures lists { IfOk result (λ lists. map items_of lists.items ≡ (⟦<GroupCombiner<K, V> as Shown>⟧.shown self).1) }
        ensures count { IfOk result (λ lists. length lists.items ≡ 32) }
    {
        self.pairs.into_buckets(alloc)
    }
}

/// The groups of one bucket's pairs: the values of each key, in order. Keys and values are copied, a chunk at a time.
pub fn group_bucket<K: HashKey, V: Keep + Drop>(
    alloc: Global,
    _bucket: u32,
    pairs: &PairList<K, V>,
) -> Result<HashTrie<K, Vec<V>>, Memory>
    requires room { length (items_of pairs.now) ≤ MAX_ITEMS }
    requires keys { AreOfBucket (λ k. bucket_of_hash (K.hash (K.shown k))) _bucket (keys_of (items_of pairs.now)) }
    ensures groups { IfOk result (λ trie. IsGroupsOf K.eq (eq_by_cmp K.order) K.shown V.shown trie (map (λ p. (K.shown p.0, V.shown p.1)) (items_of pairs.now))) }
    ensures bucket { IfOk result (λ trie. AreOfBucket (λ k. bucket_of_hash (K.hash (K.shown k))) _bucket (keys_of trie)) }
    ensures count { IfOk result (λ trie. length trie ≤ length (items_of pairs.now)) }
{
    let mut trie = HashTrie::new(alloc);
    for chunk in pairs {
        push_pairs(&mut trie, alloc, chunk.copy(alloc)?)?;
    }
    Ok(trie)
}

fn push_pairs<K: HashKey, V: Drop>(
    trie: &mut HashTrie<K, Vec<V>>,
    alloc: Global,
    pairs: Vec<(K, V)>,
) -> Result<(), Memory>
    requires { length trie.old + length pairs.items ≤ MAX_ITEMS }
    ensures pairs { OnOk result (groups_of trie.new ≡ push_to_groups K.eq (groups_of trie.old) pairs.items) }
    ensures distinct { OnOk result (IsDistinct K.eq (keys_of trie.old) → IsDistinct K.eq (keys_of trie.new)) }
{
    for (key, value) in pairs {
        trie.push_value(alloc, key, value)?;
    }
    Ok(())
}

ghost use Rattle.std.specs.Prelude.{◌≡◌, IfOk, length, map};
ghost use Rattle.par_combiner.specs.Chunks.{items_of};

use crate::lists::BucketLists;
use par_combiner::Combiner;
use par_flat::{FlatTable, flat_bucket};
use par_laws::{Back, HashKey, Memory, Shown};
use std::alloc::Global;
use std::collections::LinkedList;

/// The combiner of a set, to which keys are added.
#[derive(Drop)]
pub struct SetCombiner<K: HashKey> {
    alloc: Global,
    keys: BucketLists<K>,
}

impl<K: HashKey> Shown for SetCombiner<K> {
    type Value = (u32, LinkedList<LinkedList<K>>);

    ghost shown = { λ combiner. combiner.keys };
}

impl<K: HashKey> Combiner for SetCombiner<K> {
    ghost use Rattle.std.specs.Ordering.{eq_by_cmp};
    ghost use Rattle.par_flat.specs.Rooms.{bucket_of_hash};
    ghost use Rattle.par_buckets.specs.Held.{together};
    ghost use Rattle.par_buckets.specs.Values.{Has, IsSetOf};
    ghost use Rattle.par_buckets.specs.Laws.{has-counts, has-together};

    type Item = K;

    type Out = FlatTable<K>;

    ghost has = { λ v xs. Has (λ k. bucket_of_hash (K.hash (K.shown k))) K.shown v xs };

    ghost count = { λ v. v.0 };

    ghost joined = { together };

    ghost stands = { λ out xs. IsSetOf K.eq (eq_by_cmp K.order) K.shown out xs };

    ghost counts = { λ v xs h. has-counts (λ k. bucket_of_hash (K.hash (K.shown k))) K.shown v xs h };

    ghost joins = { λ v w xs ys p q. has-together (λ k. bucket_of_hash (K.hash (K.shown k))) K.shown v w xs ys p q };

    fn empty(alloc: Global) -> Result<SetCombiner<K>, Memory> {
        Ok(SetCombiner {
            alloc,
            keys: BucketLists::new(alloc)?,
        })
    }

    fn add(&mut self, item: K) -> Result<(), Back<K>> {
        let bucket = flat_bucket(item.hash32());
        self.keys.add(bucket, item)
    }

    fn combine(mut self, other: SetCombiner<K>) -> SetCombiner<K> {
        self.keys.append(other.keys);
        self
    }

    fn len(&self) -> u32 {
        self.keys.len()
    }

    /// The set, filled by one thread.
    fn result(self) -> Result<FlatTable<K>, Memory> {
        let SetCombiner { alloc, keys } = self;
        let keys = keys.into_vec(alloc)?;
        let mut table = FlatTable::with_room(alloc, keys.len() as u32)?;
        table.add_leftovers(keys)?;
        Ok(table)
    }
}

impl<K: HashKey> SetCombiner<K> {
    /// The 32 lists: list i has, in order, the keys of flat bucket i.
    pub fn into_buckets(self, alloc: Global) -> Result<Vec<LinkedList<Vec<K>>>, Memory>
        ensures lists { IfOk result (λ lists. map items_of lists.items ≡ (⟦<SetCombiner<K> as Shown>⟧.shown self).1) }
        ensures count { IfOk result (λ lists. length lists.items ≡ 32) }
    {
        self.keys.into_lists(alloc)
    }
}

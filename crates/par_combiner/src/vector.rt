//! A combiner that makes a radix vector.
use crate::chunks::Chunks;
use crate::combiner::Combiner;
use par_laws::{Back, Memory, Shown};
use par_vector::RadixVector;
use std::alloc::Global;
use std::collections::LinkedList;

/// The combiner of a radix vector. Contracts see it as the list of its items.
#[derive(Drop)]
pub struct VectorCombiner<T> {
    chunks: Chunks<T>,
    alloc: Global,
}

impl<T: Shown> Shown for VectorCombiner<T> {
    ghost use Rattle.std.specs.Prelude.{map};

    type Value = LinkedList<T::Value>;

    ghost shown = { λ c. map T.shown c.chunks };
}

impl<T: Shown + Drop> Combiner for VectorCombiner<T> {
    ghost use Rattle.std.specs.Prelude.{map, length, ◌≡◌, ◌++◌};
    ghost use Rattle.std.proofs.Common.{ap};
    ghost use Rattle.par_combiner.specs.Joins.{lists_join};

    type Item = T;

    type Out = RadixVector<T>;

    ghost has = { λ v xs. v ≡ xs };

    ghost count = { λ v. length v };

    ghost joined = { λ v w. v ++ w };

    ghost stands = { λ out xs. map T.shown out ≡ xs };

    ghost counts = { λ _ _ same. ap length same };

    ghost joins = { λ v w xs ys p q. lists_join v w xs ys p q };

    /// Takes no memory.
    fn empty(alloc: Global) -> Result<VectorCombiner<T>, Memory> {
        Ok(VectorCombiner {
            chunks: Chunks::new(alloc),
            alloc,
        })
    }

    #[inline(always)]
    fn add(&mut self, item: T) -> Result<(), Back<T>> {
        self.chunks.push(item)
    }

    fn combine(mut self, other: VectorCombiner<T>) -> VectorCombiner<T> {
        self.chunks.append(other.chunks);
        self
    }

    fn len(&self) -> u32 {
        self.chunks.len()
    }

    /// Linear: each item moves once into the vector.
    fn result(self) -> Result<RadixVector<T>, Memory> {
        RadixVector::from_chunks(self.alloc, self.chunks.into_list())
    }
}

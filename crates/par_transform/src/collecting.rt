//! What is made of each item, gathered in a combiner.
use par_combiner::Combiner;
use par_jobs::Builder;
use par_laws::{Mapper, Memory, Shown};
use std::alloc::Global;
use std::marker::PhantomData;

/// Maps each item and gathers what is made in a combiner.
#[derive(Drop)]
pub(crate) struct Collecting<'a, F, C> {
    pub of: &'a F,
    pub out: PhantomData<C>,
}

impl<'a, I: Shown, C: Combiner, F: Mapper<I, C::Item>> Builder<I> for Collecting<'a, F, C> {
    ghost use Rattle.std.specs.Prelude.{map, ◌≡◌};
    ghost use Rattle.std.proofs.Common.{sym, ◌∙◌};
    ghost use Rattle.par_transform.specs.Joins.{collected_join};

    type Built = C;

    ghost built = { λ b xs v. C.has v (map (F.mapped b.of.now) xs) };

    ghost joined = { λ _ v w c. c ≡ C.joined v w };

    fn start(&self, alloc: Global) -> Result<C, Memory> {
        C::empty(alloc)
    }

    // Inlined, so that a leaf's loop holds the combiner in registers.
    #[inline(always)]
    fn add(&self, alloc: Global, mut value: C, item: &I) -> Result<C, Memory> {
        let made = self.of.map(alloc, item)?;
        value.add(made)?;
        Ok(value)
    }

    fn join(&self, left: C, right: C) -> Result<C, Memory> {
        Ok(left.combine(right))
    }

    ghost joins = { λ b xs ys v w c p q same. collected_join C.has C.joined C.joins (F.mapped b.of.now) xs ys v w c p q same };

    ghost one_join = { λ _ _ _ _ _ p q. p ∙ sym q };
}

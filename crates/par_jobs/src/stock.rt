//! Builders that most calls take.
ghost use Rattle.std.specs.Prelude.{◌≡◌, ℕ, ◌+◌, ◌<◌, ◌≤◌, List, [], ◌∷◌, ◌++◌, length, map, IfOk};

use crate::builder::Builder;
use par_laws::{Gather, Mapper, Memory, Shown};
use std::alloc::Global;
use std::marker::PhantomData;

/// Keeps nothing.
#[derive(Clone, Copy, Debug)]
pub struct Nothing;

impl Shown for Nothing {
    type Value = Nothing;

    ghost shown = { λ x. x };
}

impl<I: Shown> Builder<I> for Nothing {
    ghost use Rattle.par_jobs.specs.Stock.{one_nothing};

    type Built = Nothing;

    ghost built = { λ _ _ _. Unit {0} };

    ghost joined = { λ _ _ _ _. Unit {0} };

    fn start(&self, _alloc: Global) -> Result<Nothing, Memory> {
        Ok(Nothing)
    }

    fn add(&self, _alloc: Global, value: Nothing, _item: &I) -> Result<Nothing, Memory> {
        Ok(value)
    }

    fn join(&self, left: Nothing, _right: Nothing) -> Result<Nothing, Memory> {
        Ok(left)
    }

    ghost joins = { λ _ _ _ _ _ _ _ _ _. tt };

    ghost one_join = { λ _ _ _ c d _ _. one_nothing c d };
}

/// Counts the items.
#[derive(Clone, Copy, Debug)]
pub struct Counting;

impl<I: Shown> Builder<I> for Counting {
    ghost use Rattle.std.specs.Prelude.{length, ◌≡◌, ◌+◌};
    ghost use Rattle.std.proofs.Common.{sym, ◌∙◌};
    ghost use Rattle.par_jobs.specs.Stock.{count_joins};

    type Built = u32;

    ghost built = { λ _ xs n. n ≡ length xs };

    ghost joined = { λ _ m n k. k ≡ m + n };

    fn start(&self, _alloc: Global) -> Result<u32, Memory> {
        Ok(0)
    }

    fn add(&self, _alloc: Global, value: u32, _item: &I) -> Result<u32, Memory> {
        Ok(value + 1)
    }

    fn join(&self, left: u32, right: u32) -> Result<u32, Memory> {
        Ok(left + right)
    }

    ghost joins = { λ _ xs ys m n k p q e. count_joins xs ys m n k p q e };

    ghost one_join = { λ _ _ _ _ _ p q. p ∙ sym q };
}

/// Keeps what a mapper makes of the items, in order, in a vector.
#[derive(Drop)]
pub struct Listing<'a, F, U> {
    pub of: &'a F,
    pub out: PhantomData<U>,
}

impl<'a, I: Shown, U: Shown + Drop, F: Mapper<I, U>> Builder<I> for Listing<'a, F, U> {
    ghost use Rattle.std.specs.Prelude.{map, ◌≡◌, ◌++◌};
    ghost use Rattle.std.proofs.Common.{sym, ◌∙◌};
    ghost use Rattle.par_jobs.specs.Stock.{list_joins};

    type Built = Vec<U>;

    ghost built = { λ l xs v. v ≡ map (F.mapped l.of.now) xs };

    ghost joined = { λ _ v w c. c ≡ v ++ w };

    fn start(&self, alloc: Global) -> Result<Vec<U>, Memory> {
        Ok(Vec::new(alloc))
    }

    fn add(&self, alloc: Global, mut value: Vec<U>, item: &I) -> Result<Vec<U>, Memory> {
        let made = self.of.map(alloc, item)?;
        match value.push(made) {
            Ok(()) => Ok(value),
            Err(_) => Err(Memory),
        }
    }

    fn join(&self, mut left: Vec<U>, mut right: Vec<U>) -> Result<Vec<U>, Memory> {
        match left.append(&mut right) {
            Ok(()) => Ok(left),
            Err(_) => Err(Memory),
        }
    }

    ghost joins = { λ l xs ys v w c p q e. list_joins (F.mapped l.of.now) xs ys v w c p q e };

    ghost one_join = { λ _ _ _ _ _ p q. p ∙ sym q };
}

/// Folds the items by a monoid.
#[derive(Drop)]
pub struct Folding<'a, M> {
    pub how: &'a M,
}

impl<'a, I: Shown, M: Gather<I>> Builder<I> for Folding<'a, M> {
    ghost use Rattle.std.specs.Prelude.{◌≡◌};
    ghost use Rattle.std.specs.List.{fold};
    ghost use Rattle.par_jobs.specs.Stock.{fold_joins, one_fold};

    type Built = M::T;

    ghost built = { λ f xs v. M.is_value f.how.now v × (v ≡ fold (M.gathered f.how.now) (M.unit f.how.now) xs) };

    ghost joined = { λ f v w c. M.is_value f.how.now c × (c ≡ M.joined f.how.now v w) };

    fn start(&self, alloc: Global) -> Result<M::T, Memory> {
        self.how.zero(alloc)
    }

    fn add(&self, alloc: Global, value: M::T, item: &I) -> Result<M::T, Memory> {
        self.how.add(alloc, value, item)
    }

    fn join(&self, left: M::T, right: M::T) -> Result<M::T, Memory> {
        self.how.op(left, right)
    }

    ghost joins = { λ f xs ys v w c p q e. fold_joins (M.is_value f.how.now) (M.unit f.how.now) (M.joined f.how.now) (M.gathered f.how.now) (M.unit_second f.how.now) (M.adds f.how.now) xs ys v w c p q e };

    ghost one_join = { λ f v w c d p q. one_fold (M.is_value f.how.now) (M.joined f.how.now v w) c d p q };
}

//! Ways to fold what a mapper makes of the items.
ghost use Rattle.std.specs.Prelude.{◌≡◌, IfSome, Some, None, refl};
ghost use Rattle.par_laws.specs.Optional.{joined_options};
ghost use Rattle.par_laws.specs.MonoidLaws.{joined_options-associative, joined_options-none_second};

use par_laws::{Gather, Mapper, Memory, Monoid, Shown};
use std::alloc::Global;

/// A monoid to which an item is added by joining what the mapper makes of it.
#[derive(Drop)]
pub(crate) struct Mapped<'a, M, F> {
    pub how: &'a M,
    pub of: &'a F,
}

impl<'a, M: Monoid, F> Monoid for Mapped<'a, M, F> {
    type T = M::T;

    ghost is_value = { λ m. M.is_value m.how.now };

    ghost unit = { λ m. M.unit m.how.now };

    ghost joined = { λ m. M.joined m.how.now };

    ghost associative = { λ m. M.associative m.how.now };

    ghost unit_first = { λ m. M.unit_first m.how.now };

    ghost unit_second = { λ m. M.unit_second m.how.now };

    fn zero(&self, alloc: Global) -> Result<M::T, Memory> {
        self.how.zero(alloc)
    }

    fn op(&self, a: M::T, b: M::T) -> Result<M::T, Memory> {
        self.how.op(a, b)
    }

    fn known(&self, a: &M::T) {
        self.how.known(a);
    }
}

impl<'a, I: Shown, M: Monoid, F: Mapper<I, M::T>> Gather<I> for Mapped<'a, M, F> {
    ghost gathered = { λ m a x. M.joined m.how.now a (F.mapped m.of.now x) };

    ghost adds = { λ m a b x. M.associative m.how.now a b (F.mapped m.of.now x) };

    fn add(&self, alloc: Global, acc: M::T, item: &I) -> Result<M::T, Memory> {
        let made = self.of.map(alloc, item)?;
        self.how.op(acc, made)
    }
}

/// A monoid whose unit is None, so that what is folded says whether there was an item.
#[derive(Drop)]
pub(crate) struct Maybe<'a, M> {
    pub how: &'a M,
}

impl<'a, M: Monoid> Monoid for Maybe<'a, M> {
    type T = Option<M::T>;

    ghost is_value = { λ m a. IfSome a (M.is_value m.how.now) };

    ghost unit = { λ _. None };

    ghost joined = { λ m. joined_options (M.joined m.how.now) };

    ghost associative = { λ m. joined_options-associative (M.joined m.how.now) (M.associative m.how.now) };

    ghost unit_first = { λ _ _ _. refl };

    ghost unit_second = { λ m a _. joined_options-none_second (M.joined m.how.now) a };

    fn zero(&self, _alloc: Global) -> Result<Option<M::T>, Memory> {
        Ok(None)
    }

    fn op(&self, a: Option<M::T>, b: Option<M::T>) -> Result<Option<M::T>, Memory> {
        let both = match (a, b) {
            (Some(a), Some(b)) => Some(self.how.op(a, b)?),
            (None, b) => b,
            (a, None) => a,
        };
        self.known(&both);
        Ok(both)
    }

    fn known(&self, a: &Option<M::T>) {
        if let Some(value) = a {
            self.how.known(value);
        }
    }
}

/// A mapper whose values are always there.
#[derive(Drop)]
pub(crate) struct Present<'a, F> {
    pub of: &'a F,
}

impl<'a, I: Shown, U: Shown, F: Mapper<I, U>> Mapper<I, Option<U>> for Present<'a, F> {
    ghost mapped = { λ p x. Some (F.mapped p.of.now x) };

    fn map(&self, alloc: Global, item: &I) -> Result<Option<U>, Memory> {
        let made = self.of.map(alloc, item)?;
        Ok(Some(made))
    }
}

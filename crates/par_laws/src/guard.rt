ghost use Rattle.std.proofs.Common.{ap};

use crate::mapper::Mapper;
use crate::memory::Memory;
use crate::monoid::{Gather, Monoid};
use crate::shown::Shown;
use std::alloc::Global;

/// What a mapper makes of an item: a value, or the fault that stands in its place. The number is the caller's own kind.
#[derive(Clone, Copy, Debug, Drop, PartialEq, Eq)]
pub enum Made<T> {
    Value(T),
    Fault(u8),
}

impl<T: Shown> Shown for Made<T> {
    ghost use Rattle.par_laws.specs.Guarded.{made_map};

    type Value = Made<T::Value>;

    ghost shown = { made_map T.shown };
}

/// The fold of so many items: their value, or the first fault among them with its index.
#[derive(Clone, Copy, Debug, Drop, PartialEq, Eq)]
pub enum Guarded<T> {
    Fine { count: u64, value: T },
    Fault { count: u64, at: u64, kind: u8 },
}

impl<T: Shown> Shown for Guarded<T> {
    ghost use Rattle.par_laws.specs.Guarded.{guarded_map};

    type Value = Guarded<T::Value>;

    ghost shown = { guarded_map T.shown };
}

/// A monoid that keeps the first fault. Of the items that `of` makes it folds the values by `how`, and where an item
/// faults, its index and kind are the answer. Counts and indexes wrap at 2^64.
#[derive(Debug, Drop)]
pub struct Guard<'m, M, F> {
    pub how: &'m M,
    pub of: &'m F,
}

impl<'m, M: Monoid, F> Monoid for Guard<'m, M, F> {
    ghost use Rattle.par_laws.specs.Guarded.{IsGuarded, guarded_unit, joined_guarded, joined_guarded-associative, joined_guarded-unit_first, joined_guarded-unit_second};

    type T = Guarded<M::T>;

    ghost is_value = { λ m. IsGuarded (M.is_value m.how.now) };

    ghost unit = { λ m. guarded_unit (M.unit m.how.now) };

    ghost joined = { λ m. joined_guarded (M.joined m.how.now) };

    ghost associative = { λ m. joined_guarded-associative (M.joined m.how.now) (M.associative m.how.now) };

    ghost unit_first = { λ m. joined_guarded-unit_first (M.joined m.how.now) (M.unit m.how.now) (M.is_value m.how.now) (M.unit_first m.how.now) };

    ghost unit_second = { λ m. joined_guarded-unit_second (M.joined m.how.now) (M.unit m.how.now) (M.is_value m.how.now) (M.unit_second m.how.now) };

    fn zero(&self, alloc: Global) -> Result<Guarded<M::T>, Memory> {
        let value = self.how.zero(alloc)?;
        Ok(Guarded::Fine { count: 0, value })
    }

    fn op(&self, a: Guarded<M::T>, b: Guarded<M::T>) -> Result<Guarded<M::T>, Memory> {
        match a {
            Guarded::Fine { count, value } => self.op_fine(count, value, b),
            Guarded::Fault { count, at, kind } => Ok(Guarded::Fault {
                count: count.wrapping_add(b.count()),
                at,
                kind,
            }),
        }
    }

    fn known(&self, a: &Guarded<M::T>) {
        match a {
            Guarded::Fine { count, value } => {
                let _count = *count;
                self.how.known(value);
            }
            Guarded::Fault { count, at, kind } => {
                let _places = (*count, *at, *kind);
            }
        }
    }
}

impl<T> Guarded<T> {
    ghost use Rattle.std.specs.Prelude.{◌≡◌};
    ghost use Rattle.par_laws.specs.Guarded.{count_of};

    /// How many items were folded.
    pub fn count(&self) -> u64
        ensures { result ≡ count_of self.now }
    {
        match self {
            Guarded::Fine { count, value: _ } => *count,
            Guarded::Fault {
                count,
                at: _,
                kind: _,
            } => *count,
        }
    }
}

impl<'m, M: Monoid, F> Guard<'m, M, F> {
    ghost use Rattle.std.specs.Prelude.{◌≡◌, IfOk};
    ghost use Rattle.par_laws.specs.Guarded.{IsGuarded, guarded_map, joined_guarded};
    ghost use Rattle.par_laws.specs.declared.guard.Guarded.TheVariants.{Fine};

    // so many items with this value, and then `b`
    fn op_fine(&self, count: u64, value: M::T, b: Guarded<M::T>) -> Result<Guarded<M::T>, Memory>
        ensures joined { IfOk result (λ both. guarded_map M.T.shown both ≡ joined_guarded (M.joined self.now.how.now) (Fine count (M.T.shown value)) (guarded_map M.T.shown b)) }
        ensures value { IfOk result (λ both. IsGuarded (M.is_value self.now.how.now) (guarded_map M.T.shown both)) }
    {
        match b {
            Guarded::Fine {
                count: more,
                value: second,
            } => {
                let value = self.how.op(value, second)?;
                let count = count.wrapping_add(more);
                Ok(Guarded::Fine { count, value })
            }
            Guarded::Fault {
                count: more,
                at,
                kind,
            } => Ok(Guarded::Fault {
                count: count.wrapping_add(more),
                at: count.wrapping_add(at),
                kind,
            }),
        }
    }
}

impl<'m, I: Shown, M: Monoid, F: Mapper<I, Made<M::T>>> Gather<I> for Guard<'m, M, F> {
    ghost use Rattle.par_laws.specs.Guarded.{guarded_one, joined_guarded, joined_guarded-associative};

    ghost gathered = { λ m a x. joined_guarded (M.joined m.how.now) a (guarded_one (F.mapped m.of.now x)) };

    ghost adds = { λ m a b x. joined_guarded-associative (M.joined m.how.now) (M.associative m.how.now) a b (guarded_one (F.mapped m.of.now x)) };

    fn add(&self, alloc: Global, acc: Guarded<M::T>, item: &I) -> Result<Guarded<M::T>, Memory> {
        let one = match self.of.map(alloc, item)? {
            Made::Value(value) => Guarded::Fine { count: 1, value },
            Made::Fault(kind) => Guarded::Fault {
                count: 1,
                at: 0,
                kind,
            },
        };
        self.op(acc, one)
    }
}

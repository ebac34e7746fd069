ghost use Rattle.std.specs.Prelude.{FitsSigned, IfSome, Some, None, refl};
ghost use Rattle.std.specs.Int.{int_min, w64};
ghost use Rattle.par_laws.specs.Optional.{joined_options};
ghost use Rattle.par_laws.specs.MonoidLaws.{int_min-associative, joined_options-associative, joined_options-none_second};

use crate::memory::Memory;
use crate::monoid::{Gather, Monoid};
use std::alloc::Global;

/// The least number, or None of none. Takes no memory.
#[derive(Clone, Copy, Debug, Default)]
pub struct Least;

impl Monoid for Least {
    type T = Option<i64>;

    ghost is_value = { λ _ a. IfSome a (FitsSigned w64) };

    ghost unit = { λ _. None };

    ghost joined = { λ _. joined_options int_min };

    ghost associative = { λ _. joined_options-associative int_min int_min-associative };

    ghost unit_first = { λ _ _ _. refl };

    ghost unit_second = { λ _ a _. joined_options-none_second int_min a };

    fn zero(&self, _alloc: Global) -> Result<Option<i64>, Memory> {
        Ok(None)
    }

    fn op(&self, a: Option<i64>, b: Option<i64>) -> Result<Option<i64>, Memory> {
        Ok(match (a, b) {
            (Some(a), Some(b)) => Some(a.min(b)),
            (None, b) => b,
            (a, None) => a,
        })
    }

    fn known(&self, a: &Option<i64>) {
        if let Some(value) = a {
            let _value = *value;
        }
    }
}

impl Gather<i64> for Least {
    ghost gathered = { λ _ a x. joined_options int_min a (Some x) };

    ghost adds = { λ _ a b x. joined_options-associative int_min int_min-associative a b (Some x) };

    fn add(&self, _alloc: Global, acc: Option<i64>, item: &i64) -> Result<Option<i64>, Memory> {
        self.op(acc, Some(*item))
    }
}

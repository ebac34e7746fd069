//! A test and a mapper over numbers.

use par_laws::{Mapper, Memory, Test, Verdict};
use std::alloc::Global;

/// Passes `least` and more, but has no truth value for `faulty`, where it faults with kind 7.
#[derive(Clone, Copy, Drop)]
pub struct Rule {
    pub least: i64,
    pub faulty: i64,
}

impl Test<i64> for Rule {
    ghost use Rattle.std.specs.Prelude.{cond, int_lt};
    ghost use Rattle.std.specs.Ordering.{int_eq};
    ghost use Rattle.par_laws.specs.declared.test.Verdict.TheVariants.{Pass, Fail, Fault};

    ghost verdict = { λ t x. cond (int_eq x t.faulty) (Fault 7) (cond (int_lt x t.least) Fail Pass) };

    fn test(&self, item: &i64) -> Verdict {
        if *item == self.faulty {
            Verdict::Fault(7)
        } else if *item < self.least {
            Verdict::Fail
        } else {
            Verdict::Pass
        }
    }
}

/// The number, or the pair of numbers, as it is.
pub struct Same;

impl Mapper<i64, i64> for Same {
    ghost mapped = { λ _ x. x };

    fn map(&self, _alloc: Global, item: &i64) -> Result<i64, Memory> {
        Ok(*item)
    }
}

impl Mapper<(i64, i64), (i64, i64)> for Same {
    ghost mapped = { λ _ x. x };

    fn map(&self, _alloc: Global, item: &(i64, i64)) -> Result<(i64, i64), Memory> {
        Ok(*item)
    }
}

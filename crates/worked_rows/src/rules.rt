//! The tests and mappers of the rows.
ghost use Rattle.std.specs.Prelude.{◌≢◌, pos};

use par_laws::{Mapper, Memory, Test, Verdict};
use par_rows::Value;
use std::alloc::Global;

/// Whether a number is more than another.
#[derive(Clone, Copy)]
pub struct Above {
    pub than: i64,
}

impl<'a> Test<&'a i64> for Above {
    ghost use Rattle.std.specs.Prelude.{cond, int_lt};
    ghost use Rattle.par_laws.specs.declared.test.Verdict.TheVariants.{Pass, Fail};

    ghost verdict = { λ t x. cond (int_lt t.than x) Pass Fail };

    fn test(&self, item: &&'a i64) -> Verdict {
        if self.than < **item {
            Verdict::Pass
        } else {
            Verdict::Fail
        }
    }
}

/// Whether a number is less than another.
#[derive(Clone, Copy)]
pub struct Below {
    pub than: i64,
}

impl<'a> Test<&'a i64> for Below {
    ghost use Rattle.std.specs.Prelude.{cond, int_lt};
    ghost use Rattle.par_laws.specs.declared.test.Verdict.TheVariants.{Pass, Fail};

    ghost verdict = { λ t x. cond (int_lt x t.than) Pass Fail };

    fn test(&self, item: &&'a i64) -> Verdict {
        if **item < self.than {
            Verdict::Pass
        } else {
            Verdict::Fail
        }
    }
}

/// Whether a number is another than this one.
#[derive(Clone, Copy)]
pub struct Other {
    pub than: i64,
}

impl<'a> Test<&'a i64> for Other {
    ghost use Rattle.std.specs.Prelude.{cond};
    ghost use Rattle.std.specs.Ordering.{int_eq};
    ghost use Rattle.par_laws.specs.declared.test.Verdict.TheVariants.{Pass, Fail};

    ghost verdict = { λ t x. cond (int_eq x t.than) Fail Pass };

    fn test(&self, item: &&'a i64) -> Verdict {
        if **item == self.than {
            Verdict::Fail
        } else {
            Verdict::Pass
        }
    }
}

/// Whether both numbers of a pair are the same.
pub struct Same;

impl<'a, 'b> Test<(&'a i64, &'b i64)> for Same {
    ghost use Rattle.std.specs.Prelude.{cond};
    ghost use Rattle.std.specs.Ordering.{int_eq};
    ghost use Rattle.par_laws.specs.declared.test.Verdict.TheVariants.{Pass, Fail};

    ghost verdict = { λ _ x. cond (int_eq x.0 x.1) Pass Fail };

    fn test(&self, item: &(&'a i64, &'b i64)) -> Verdict {
        if *item.0 == *item.1 {
            Verdict::Pass
        } else {
            Verdict::Fail
        }
    }
}

/// The number as it is.
pub struct Itself;

impl<'a> Mapper<&'a i64, i64> for Itself {
    ghost mapped = { λ _ x. x };

    fn map(&self, _alloc: Global, item: &&'a i64) -> Result<i64, Memory> {
        Ok(**item)
    }
}

/// The number, as an option.
pub struct Present;

impl<'a> Mapper<&'a i64, Option<i64>> for Present {
    ghost use Rattle.std.specs.Prelude.{Some};

    ghost mapped = { λ _ x. Some x };

    fn map(&self, _alloc: Global, item: &&'a i64) -> Result<Option<i64>, Memory> {
        Ok(Some(**item))
    }
}

/// The test that every pair of a trie passes.
pub struct AnyPair;

impl<'a, K, V> Test<(&'a K, &'a V)> for AnyPair {
    ghost use Rattle.par_laws.specs.declared.test.Verdict.TheVariants.{Pass};

    ghost verdict = { λ _ _. Pass };

    fn test(&self, _item: &(&'a K, &'a V)) -> Verdict {
        Verdict::Pass
    }
}

/// Whether a value is one int.
#[derive(Clone, Copy)]
pub struct Only {
    pub wanted: i64,
}

impl<'a> Test<&'a Value> for Only {
    ghost use Rattle.std.specs.Prelude.{cond};
    ghost use Rattle.std.specs.Ordering.{int_eq};
    ghost use Rattle.par_laws.specs.declared.test.Verdict.TheVariants.{Pass, Fail};
    ghost use Rattle.worked_rows.specs.Only.{is_int};

    ghost verdict = { λ t x. cond (is_int t.wanted x) Pass Fail };

    fn test(&self, item: &&'a Value) -> Verdict {
        match *item {
            Value::Int(value) if *value == self.wanted => Verdict::Pass,
            _ => Verdict::Fail,
        }
    }
}

/// Whether a number leaves 1 when it is divided by 2.
pub struct Odd;

impl Test<i64> for Odd {
    ghost use Rattle.std.specs.Prelude.{cond, int_rem, pos};
    ghost use Rattle.std.specs.Ordering.{int_eq};
    ghost use Rattle.par_laws.specs.declared.test.Verdict.TheVariants.{Pass, Fail};

    ghost verdict = { λ _ x. cond (int_eq (int_rem x (pos 2)) (pos 1)) Pass Fail };

    fn test(&self, item: &i64) -> Verdict {
        if item.wrapping_rem(2) == 1 {
            Verdict::Pass
        } else {
            Verdict::Fail
        }
    }
}

/// Whether a number is below 0.
pub struct Negative;

impl Test<i64> for Negative {
    ghost use Rattle.std.specs.Prelude.{cond, int_lt, pos};
    ghost use Rattle.par_laws.specs.declared.test.Verdict.TheVariants.{Pass, Fail};

    ghost verdict = { λ _ x. cond (int_lt x (pos 0)) Pass Fail };

    fn test(&self, item: &i64) -> Verdict {
        if *item < 0 {
            Verdict::Pass
        } else {
            Verdict::Fail
        }
    }
}

/// The quotient by a number that isn't 0, truncated toward zero, and the remainder.
#[derive(Clone, Copy)]
pub struct Divided {
    pub by: i64,
    pub ghost some: { by ≢ pos 0 },
}

impl Mapper<i64, (i64, i64)> for Divided {
    ghost use Rattle.std.specs.Prelude.{int_rem};
    ghost use Rattle.std.specs.Int.{w64, int_wrapping_div};

    ghost mapped = { λ d x. (int_wrapping_div w64 x d.by, int_rem x d.by) };

    fn map(&self, _alloc: Global, item: &i64) -> Result<(i64, i64), Memory> {
        Ok((item.wrapping_div(self.by), item.wrapping_rem(self.by)))
    }
}

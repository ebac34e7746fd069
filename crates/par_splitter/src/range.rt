ghost use Rattle.std.specs.Prelude.{◌≡◌, ℕ, ◌+◌, ◌-◌, ◌<◌, ◌≤◌, ◌≢◌, ◌↔◌, IsTrue, true, ℤ, pos, ◌+ℤ◌, ◌*ℤ◌, FitsSigned};
ghost use Rattle.std.specs.Int.{w64};
ghost use Rattle.std.proofs.Common.{rules};
ghost use Rattle.par_splitter.specs.Range.{IsBefore, AllFit, IsRange, IsRangeCount, IsReached, stepped};

use crate::cut::{Cut, Precise, Splitter};

/// The number of items of `a until b by c`: those of `a`, `a + c`, `a + 2 * c` and so on that lie before `b` in the
/// direction of `c`. It is exact over all of `i64`, where `a` and `b` may be `u64::MAX` apart. Constant time.
pub fn range_count(a: i64, b: i64, c: i64) -> u64
    requires { c ≢ pos 0 }
    ensures { IsRangeCount a b c result }
{
    if is_before(c, a, b) {
        a.abs_diff(b).div_ceil(c.unsigned_abs())
    } else {
        0
    }
}

/// Whether `x` lies before `b` in the direction of the step `c`.
fn is_before(c: i64, x: i64, b: i64) -> bool
    requires { c ≢ pos 0 }
    ensures { IsTrue result ↔ IsBefore c x b }
{
    if c > 0 { x < b } else { b < x }
}

/// The number `k` steps on from `first`. It wraps where that is no `i64`: such a number is past the range, and no
/// splitter gives it.
fn steps_on(first: i64, k: u32, step: i64) -> i64
    ensures { IsReached first step k result }
{
    first.wrapping_add(i64::from(k).wrapping_mul(step))
}

/// A splitter over `a until b by c`, whose items are its numbers.
#[derive(Drop)]
pub struct RangeSplitter {
    first: i64,
    step: i64,
    lo: u32,
    hi: u32,
    ghost ordered: { lo ≤ hi },
    ghost numbers: { AllFit first step (hi - lo) },
}

impl RangeSplitter {
    /// All of `a until b by c`, from place 0. Constant time, and takes no memory.
    pub fn new(a: i64, b: i64, c: i64) -> RangeSplitter
        requires step { c ≢ pos 0 }
        requires count { (n : ℕ) × IsRangeCount a b c n × (n ≤ 4194304) }
        ensures list { IsRange a b c (⟦<RangeSplitter as Splitter>⟧.items result) }
        ensures place { ⟦<RangeSplitter as Splitter>⟧.lo result ≡ 0 }
    {
        RangeSplitter {
            first: a,
            step: c,
            lo: 0,
            hi: range_count(a, b, c) as u32,
        }
    }
}

impl Splitter for RangeSplitter {
    type Item = i64;

    ghost items = { λ s. stepped s.first s.step (s.hi - s.lo) };

    ghost lo = { λ s. s.lo };

    ghost halves = { true };

    fn remaining(&self) -> u32 {
        self.hi - self.lo
    }

    fn span(&self) -> (u32, u32) {
        (self.lo, self.hi)
    }

    fn next(&mut self) -> Option<i64> {
        if self.lo == self.hi {
            return None;
        }
        let first = self.first;
        self.first = steps_on(first, 1, self.step);
        self.lo += 1;
        Some(first)
    }

    fn split(self) -> Cut<Self> {
        match self.remaining() {
            0 | 1 => Cut::One(self),
            n => {
                let (left, right) = self.cut_at(n / 2);
                Cut::Two(left, right)
            }
        }
    }

    fn dup(&self) -> Self {
        RangeSplitter {
            first: self.first,
            step: self.step,
            lo: self.lo,
            hi: self.hi,
        }
    }
}

impl Precise for RangeSplitter {
    ghost halving = { Prim.search rules };

    fn cut_at(self, k: u32) -> (Self, Self) {
        let k = k.min(self.remaining());
        let mid = self.lo + k;
        (
            RangeSplitter {
                first: self.first,
                step: self.step,
                lo: self.lo,
                hi: mid,
            },
            RangeSplitter {
                first: steps_on(self.first, k, self.step),
                step: self.step,
                lo: mid,
                hi: self.hi,
            },
        )
    }
}

//! Ranges of at most 3,000 numbers.
ghost use Rattle.std.specs.Prelude.{◌≡◌, ◌≤◌, length, IfSome};

use par_splitter::{RangeSplitter, Splitter, range_count};

/// The numbers from `a` on and before `b` by steps of `step`, if the step isn't 0 and they are at most 3,000.
pub fn stepping(a: i64, b: i64, step: i64) -> Option<RangeSplitter>
    ensures place { IfSome result (λ s. ⟦<RangeSplitter as Splitter>⟧.lo s ≡ 0) }
    ensures few { IfSome result (λ s. length (⟦<RangeSplitter as Splitter>⟧.items s) ≤ 3000) }
{
    if step == 0 || range_count(a, b, step) > 3000 {
        return None;
    }
    let source = RangeSplitter::new(a, b, step);
    if source.remaining() > 3000 {
        return None;
    }
    Some(source)
}

/// The numbers from `a` on and before `b`, if they are at most 3,000.
pub fn from_to(a: i64, b: i64) -> Option<RangeSplitter>
    ensures place { IfSome result (λ s. ⟦<RangeSplitter as Splitter>⟧.lo s ≡ 0) }
    ensures few { IfSome result (λ s. length (⟦<RangeSplitter as Splitter>⟧.items s) ≤ 3000) }
{
    stepping(a, b, 1)
}

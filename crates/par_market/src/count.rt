//! Counts that only rise.
ghost use Rattle.std.specs.Prelude.{◌≡◌};
ghost use Rattle.par_edge.specs.Count.{raised};

/// Adds one, up to the last value of a `u64`.
pub(crate) fn raise(count: &mut u64)
    ensures { count.new ≡ raised count.old 1 }
{
    *count = count.saturating_add(1);
}

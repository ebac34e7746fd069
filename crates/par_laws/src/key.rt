ghost use Rattle.std.specs.Prelude.{◌≡◌, ℕ, true, IfOk};
ghost use Rattle.std.specs.Cmp.{IsTotalOrder};
ghost use Rattle.std.specs.declared.cmp.Ordering.{Ordering};

use crate::keep::Keep;
use crate::memory::Memory;
use crate::shown::Shown;
use crate::words::Words;
use std::alloc::Global;

/// A key: it has an order and a hash, and both depend on nothing but what is seen of it.
///
/// Equal keys are seen as one value, so they have equal hashes.
pub trait HashKey: Keep + Ord + Drop {
    ghost order: { Self.Value → Self.Value → Ordering };

    ghost hash: { Self.Value → ℕ };

    /// The hash, before its bits are mixed. Takes no memory.
    fn hash32(&self) -> u32
        ensures { result ≡ hash (Self.shown self.now) };

    // `cmp` is the order of what is seen
    ghost ordered: { (a b : Self) → Self.cmp a b ≡ order (Self.shown a) (Self.shown b) };

    // the order is total on all seen values
    ghost order_total: { IsTotalOrder order };

    // equal keys are seen as one value
    ghost told: { (a b : Self) → Self.eq a b ≡ true → Self.shown a ≡ Self.shown b };
}

/// The key of an item, as `group_by` takes it. It answers its definition.
pub trait KeyOf<I: Shown> {
    type K: HashKey;

    ghost keyed: { Self → I.Value → Self.K.Value };

    /// The key of the item. Takes memory only where the key holds memory.
    fn key(&self, alloc: Global, item: &I) -> Result<Self::K, Memory>
        ensures { IfOk result (λ key. Self.K.shown key ≡ keyed self.now (I.shown item.now)) };
}

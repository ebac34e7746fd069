ghost use Rattle.std.specs.Prelude.{◌≡◌, IfOk};

use crate::memory::Memory;
use crate::shown::Shown;
use std::alloc::Global;

/// A way to join two values into one, with a unit. It is associative, so that the parts of a list may be joined in any
/// cut.
pub trait Monoid {
    type T: Shown + Drop;

    // which seen values are values of `T`
    ghost is_value: { Self → Self.T.Value → Type 0 };

    ghost unit: { Self → Self.T.Value };

    ghost joined: { Self → Self.T.Value → Self.T.Value → Self.T.Value };

    /// The unit. Takes memory only where the value holds memory.
    fn zero(&self, alloc: Global) -> Result<Self::T, Memory>
        ensures unit { IfOk result (λ zero. Self.T.shown zero ≡ unit self.now) }
        ensures value { IfOk result (λ zero. is_value self.now (Self.T.shown zero)) };

    /// The first joined with the second.
    fn op(&self, a: Self::T, b: Self::T) -> Result<Self::T, Memory>
        ensures joined { IfOk result (λ both. Self.T.shown both ≡ joined self.now (Self.T.shown a) (Self.T.shown b)) }
        ensures value { IfOk result (λ both. is_value self.now (Self.T.shown both)) };

    /// Tells a proof that what is seen of a value in hand is a value of `T`, and does nothing else.
    fn known(&self, a: &Self::T)
        ensures { is_value self.now (Self.T.shown a.now) };

    ghost associative: { (m : Self) (a b c : Self.T.Value) → joined m (joined m a b) c ≡ joined m a (joined m b c) };

    ghost unit_first: { (m : Self) (a : Self.T.Value) → is_value m a → joined m (unit m) a ≡ a };

    ghost unit_second: { (m : Self) (a : Self.T.Value) → is_value m a → joined m a (unit m) ≡ a };
}

/// A monoid to whose values an item can be added. To add to a joined value is to add to its second part, so that a list
/// may be gathered in parts.
pub trait Gather<I: Shown>: Monoid {
    ghost gathered: { Self → Self.T.Value → I.Value → Self.T.Value };

    /// The value with the item added at its end.
    fn add(&self, alloc: Global, acc: Self::T, item: &I) -> Result<Self::T, Memory>
        ensures gathered { IfOk result (λ more. Self.T.shown more ≡ gathered self.now (Self.T.shown acc) (I.shown item.now)) }
        ensures value { IfOk result (λ more. Self.is_value self.now (Self.T.shown more)) };

    ghost adds: { (m : Self) (a b : Self.T.Value) (x : I.Value) → gathered m (Self.joined m a b) x ≡ Self.joined m a (gathered m b x) };
}

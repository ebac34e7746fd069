//! What a combiner is.
ghost use Rattle.std.specs.Prelude.{◌≡◌, ℕ, ◌+◌, ◌<◌, ◌≤◌, List, [], ◌∷◌, ◌++◌, length, IfOk, IfErr};

use par_laws::{Back, Memory, Shown};
use std::alloc::Global;

/// A builder of a result, to which items are added at its end, and two of which are combined.
///
/// Contracts see by `has` which items it has, in order. A combiner that needs not all of its items may have the same
/// value for several lists, as one that has met a fault; then its result stands for each of them. At most 4,194,304
/// items are combined.
pub trait Combiner: Shown + Sized + Drop {
    type Item: Shown + Drop;

    /// What is made of the items.
    type Out: Drop;

    // The value has these items, in this order.
    ghost has: { Self.Value → List Self.Item.Value → Type 0 };

    // How many items the value has.
    ghost count: { Self.Value → ℕ };

    // The items of the first value, and then those of the second.
    ghost joined: { Self.Value → Self.Value → Self.Value };

    // What is made stands for these items.
    ghost stands: { Self.Out → List Self.Item.Value → Type 0 };

    /// A combiner of no items.
    fn empty(alloc: Global) -> Result<Self, Memory>
        ensures { IfOk result (λ c. has (Self.shown c) []) };

    /// Adds the item at the end. For want of memory alone it hands the item back, and the combiner is as it was.
    fn add(&mut self, item: Self::Item) -> Result<(), Back<Self::Item>>
        requires { count (Self.shown self.old) < 4194304 }
        ensures added { IfOk result (λ _. (xs : List Self.Item.Value) → has (Self.shown self.old) xs → has (Self.shown self.new) (xs ++ Self.Item.shown item ∷ [])) }
        ensures kept { IfErr result (λ _. Self.shown self.new ≡ Self.shown self.old) }
        ensures back { IfErr result (λ refused. refused.item ≡ item) };

    /// One combiner with the items of this one, and then those of the other. Constant time, and takes no memory.
    fn combine(self, other: Self) -> Self
        requires { count (Self.shown self) + count (Self.shown other) ≤ 4194304 }
        ensures { Self.shown result ≡ joined (Self.shown self) (Self.shown other) };

    /// How many items there are. Constant time.
    fn len(&self) -> u32
        ensures { result ≡ count (Self.shown self.now) };

    /// What the items make. Its one error is want of memory.
    fn result(self) -> Result<Self::Out, Memory>
        ensures { IfOk result (λ out. (xs : List Self.Item.Value) → has (Self.shown self) xs → stands out xs) };

    // The count is the number of the items.
    ghost counts: { (v : Self.Value) (xs : List Self.Item.Value) → has v xs → count v ≡ length xs };

    // What is joined has the items of both, in order.
    ghost joins: { (v w : Self.Value) (xs ys : List Self.Item.Value) → has v xs → has w ys → has (joined v w) (xs ++ ys) };
}

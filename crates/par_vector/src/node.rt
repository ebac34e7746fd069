//! What a node of the tree is.
ghost use Rattle.std.specs.Prelude.{◌≡◌, ℕ, ◌<◌, ◌≤◌, ◌^◌, List, [], ◌∷◌, ◌++◌, length, is_ok, if◌then◌else◌, IfErr};
ghost use Rattle.par_vector.specs.Runs.{IsRun};

use par_laws::Back;
use std::alloc::Global;

/// A tree of items whose leaves lie on one level.
pub trait Node: Sized + Drop {
    type Item: Drop;

    /// The items, in order.
    ghost items: { Self → List Self.Item };

    /// How many items a full node has.
    ghost room: { ℕ };

    ghost roomy: { 0 < room };

    /// How many items a full node has.
    fn room() -> u32
        requires { room < 2 ^ 32 }
        ensures { result ≡ room };

    /// Without items. Takes no memory.
    fn empty(alloc: Global) -> Self
        ensures { items result ≡ [] };

    /// The items from place `i` to the end of their leaf. It costs the depth.
    fn run(&self, i: u32) -> &[Self::Item]
        requires small { room < 2 ^ 32 }
        requires within { i < length (items self.now) }
        ensures { IsRun (items self.now) i result.now };

    /// Adds an item at the end, which is place `at`. It costs the depth. For want of memory alone the item comes back, and the
    /// items are as they were.
    fn push(&mut self, alloc: Global, at: u32, item: Self::Item) -> Result<(), Back<Self::Item>>
        requires small { room < 2 ^ 32 }
        requires place { at ≡ length (items self.old) }
        requires room { at < room }
        ensures items { items self.new ≡ (if is_ok result then items self.old ++ item ∷ [] else items self.old) }
        ensures back { IfErr result (λ refused. refused.item ≡ item) };
}

ghost use Rattle.std.specs.Prelude.{◌≡◌, ℕ, ◌+◌, ◌<◌, List, length, Bool, IsTrue, IfOk, IfErr, MatchOption};

use crate::psplit::cut_by_sizes;
use par_laws::{Back, Shown};
use std::alloc::Global;

/// What a split gives: the one splitter again, or two parts in order.
#[derive(Drop)]
pub enum Cut<S> {
    One(S),
    Two(S, S),
}

/// An iterator over a part of a source that can be split in two.
///
/// Contracts see it as `items`, the list still to come, and `lo`, the place of the first of them in the source. Its
/// span is `lo..hi`, with `hi - lo` the number of items left. No call here takes memory. A function that starts threads
/// asks for `Send` and `Sync` itself.
pub trait Splitter: Sized + Drop {
    ghost use Rattle.par_splitter.specs.Parts.{IsDup, IsCut, IsHalved, TookFirst, TookNone};

    type Item: Shown + Drop;

    ghost items: { Self → List Self.Item.Value };

    ghost lo: { Self → ℕ };

    /// Whether the first part of a split always gets `remaining / 2` items.
    ghost halves: { Bool };

    /// The number of items still to come. Constant time.
    fn remaining(&self) -> u32
        ensures { result ≡ length (items self.now) };

    /// The place `lo..hi` of the items still to come. Constant time.
    fn span(&self) -> (u32, u32)
        ensures lo { result.0 ≡ lo self.now }
        ensures hi { result.1 ≡ lo self.now + length (items self.now) };

    /// Takes the first item and raises `lo` by one, or gives `None` exactly where no item is left and changes nothing.
    fn next(&mut self) -> Option<Self::Item>
        ensures { MatchOption result (TookNone items lo self.old self.new) (λ x. TookFirst items lo self.old (Self.Item.shown x) self.new) };

    /// Gives the splitter back where fewer than 2 items are left, and else two adjacent parts with items in both.
    fn split(self) -> Cut<Self>
        ensures cut { IsCut items lo self result }
        ensures half { IsTrue halves → IsHalved items lo self result };

    /// A second splitter over the same items at the same place.
    fn dup(&self) -> Self
        ensures { IsDup items lo self.now result };
}

/// The parts that `psplit` gives.
pub type Parts<S> = Vec<S>;

/// A splitter that can be cut at any place, and that a split halves.
pub trait Precise: Splitter {
    ghost use Rattle.par_splitter.specs.Parts.{IsCutAt};
    ghost use Rattle.par_splitter.specs.Sizes.{ArePartsBySize};

    /// The first `k` items, or all where fewer are left, and the rest. Constant time, and takes no memory.
    fn cut_at(self, k: u32) -> (Self, Self)
        ensures { IsCutAt Self.items Self.lo self k result.0 result.1 };

    /// Cuts the items by the sizes in turn, each part adjacent to the one before it. A size for which too few items are
    /// left gets those that are left. Where items are left over, one more part with them stands last. Linear in the
    /// number of sizes. For want of memory alone it hands the splitter back as it was.
    final fn psplit(self, alloc: Global, sizes: &[u32]) -> Result<Parts<Self>, Back<Self>>
        ensures parts { IfOk result (λ parts. ArePartsBySize Self.items Self.lo self sizes.now parts.items) }
        ensures back { IfErr result (λ refused. refused.item ≡ self) }
    {
        cut_by_sizes(self, alloc, sizes)
    }

    ghost halving: { IsTrue Self.halves };
}

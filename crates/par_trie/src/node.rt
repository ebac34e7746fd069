ghost use Rattle.std.specs.Prelude.{◌≡◌, ℕ, List, ◌++◌, Bool, true, false, IfOk, IfSome, IfNone, OnOk, OnErr};
ghost use Rattle.par_index.specs.Places.{is_among, places_of};

use par_index::{Leaf, Wanted};
use par_laws::Memory;
use std::alloc::Global;

/// A trie over what is left of the hashes on some level.
pub trait Node: Sized + Drop {
    /// The places of the leaves that have this rest, in order of arrival.
    ghost places: { Self → ℕ → List ℕ };

    /// With two leaves.
    fn pair(alloc: Global, first: Leaf, second: Leaf) -> Result<Self, Memory>
        ensures { IfOk result (λ node. (q : ℕ) → places node q ≡ places_of first q ++ places_of second q) };

    /// A place with this rest that is wanted. None exactly where no place there is wanted. Takes no memory.
    fn find<W: Wanted>(&self, rest: u32, wanted: &W) -> Option<u32>
        ensures found { IfSome result (λ at. W.is_wanted wanted.now at ≡ true) }
        ensures absent { IfNone result ((at : ℕ) → is_among at (places self.now rest) ≡ true → W.is_wanted wanted.now at ≡ false) };

    /// One more leaf. A refusal for want of memory leaves the node as it was.
    fn push(&mut self, alloc: Global, leaf: Leaf) -> Result<(), Memory>
        ensures ok { OnOk result ((q : ℕ) → places self.new q ≡ places self.old q ++ places_of leaf q) }
        ensures err { OnErr result ((q : ℕ) → places self.new q ≡ places self.old q) };
}

/// A node behind a pointer, so that what it stands in stays small.
impl<N: Node> Node for Box<N> {
    ghost places = { λ node q. N.places node.value q };

    fn pair(alloc: Global, first: Leaf, second: Leaf) -> Result<Box<N>, Memory> {
        Ok(Box::new(alloc, N::pair(alloc, first, second)?)?)
    }

    fn find<W: Wanted>(&self, rest: u32, wanted: &W) -> Option<u32> {
        (**self).find(rest, wanted)
    }

    fn push(&mut self, alloc: Global, leaf: Leaf) -> Result<(), Memory> {
        (**self).push(alloc, leaf)
    }
}

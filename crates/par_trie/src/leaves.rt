ghost use Rattle.std.specs.Prelude.{◌≡◌, ◌<◌, ◌++◌, ℕ, [], IfOk, IfSome, IfNone, true, false};
ghost use Rattle.par_index.specs.Places.{is_among, places_of, first_such};
ghost use Rattle.par_trie.specs.Places.{places_among, places_of_few, IsLikely};

use crate::node::Node;
use par_index::{Leaf, Wanted};
use par_laws::Memory;
use std::alloc::Global;

/// Up to three leaves side by side, in order of arrival: the first `count` of these.
#[derive(Clone, Copy)]
pub struct Few {
    count: u32,
    leaves: [Leaf; 3],
}

impl Few {
    pub fn none() -> Few
        ensures { (q : ℕ) → places_of_few result q ≡ [] }
    {
        Few {
            count: 0,
            leaves: [Leaf { rest: 0, at: 0 }; 3],
        }
    }

    /// A wanted place under this rest. Where the first leaf with the rest isn't wanted, all are gone through.
    pub fn find<W: Wanted>(&self, rest: u32, wanted: &W) -> Option<u32>
        ensures found { IfSome result (λ at. W.is_wanted wanted.now at ≡ true) }
        ensures absent { IfNone result ((at : ℕ) → is_among at (places_of_few self.now rest) ≡ true → W.is_wanted wanted.now at ≡ false) }
    {
        let likely = self.leaves[likely_in(&self.leaves, rest)];
        if likely.rest != rest {
            return None;
        }
        if wanted.is_at(likely.at) {
            return Some(likely.at);
        }
        find_among(&self.leaves, rest, wanted)
    }

    /// Adds a leaf where there is room, and tells whether there was.
    pub fn push(&mut self, leaf: Leaf) -> bool
        ensures room { result ≡ true → (q : ℕ) → places_of_few self.new q ≡ places_of_few self.old q ++ places_of leaf q }
        ensures full { result ≡ false → (q : ℕ) → places_of_few self.old q ≡ places_among self.old.leaves q }
        ensures same { result ≡ false → self.new ≡ self.old }
    {
        if self.count >= 3 {
            return false;
        }
        self.leaves[self.count as usize] = leaf;
        self.count += 1;
        true
    }

    /// The leaves, where there are three.
    #[inline(always)]
    pub fn all(&self) -> [Leaf; 3]
        ensures { result ≡ self.now.leaves }
    {
        self.leaves
    }

    /// A node of all three leaves and one more.
    #[inline(never)]
    pub fn deepen<N: Node>(&self, alloc: Global, leaf: Leaf) -> Result<N, Memory>
        ensures { IfOk result (λ node. (q : ℕ) → N.places node q ≡ places_among self.now.leaves q ++ places_of leaf q) }
    {
        let [first, second, third] = self.leaves;
        let mut node = N::pair(alloc, first, second)?;
        node.push(alloc, third)?;
        node.push(alloc, leaf)?;
        Ok(node)
    }
}

/// Which of the leaves has this rest, if one of them has it. It takes no jump, since no processor foresees which it is.
#[inline(always)]
fn likely_in(leaves: &[Leaf; 3], rest: u32) -> usize
    ensures below { result < 3 }
    ensures likely { IsLikely leaves.now rest result }
{
    let [first, second, _] = *leaves;
    let later = if second.rest == rest { 1 } else { 2 };
    if first.rest == rest { 0 } else { later }
}

/// The first place among the leaves with this rest that is wanted.
#[cold]
#[inline(never)]
pub fn find_among<W: Wanted>(leaves: &[Leaf], rest: u32, wanted: &W) -> Option<u32>
    ensures { result ≡ first_such (W.is_wanted wanted.now) (places_among leaves.now rest) }
{
    for leaf in leaves {
        if leaf.rest == rest && wanted.is_at(leaf.at) {
            return Some(leaf.at);
        }
    }
    None
}

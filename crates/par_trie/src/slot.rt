ghost use Rattle.std.specs.Prelude.{◌≡◌, ℕ, ◌++◌, IfSome, IfNone, OnOk, OnErr, true, false};
ghost use Rattle.par_index.specs.Places.{is_among, places_of};
ghost use Rattle.par_trie.specs.Slots.{places_at};

use crate::leaves::Few;
use crate::node::Node;
use par_index::{Leaf, Wanted};
use par_laws::Memory;
use std::alloc::Global;

/// What stands at a digit of a wide level: a few leaves, or a further level.
#[derive(Drop)]
pub enum Slot<N> {
    Few(Few),
    Below(N),
}

pub fn find_at<N: Node, W: Wanted>(slot: &Slot<N>, rest: u32, wanted: &W) -> Option<u32>
    ensures found { IfSome result (λ at. W.is_wanted wanted.now at ≡ true) }
    ensures absent { IfNone result ((at : ℕ) → is_among at (places_at N.places slot.now rest) ≡ true → W.is_wanted wanted.now at ≡ false) }
{
    match slot {
        Slot::Few(few) => few.find(rest, wanted),
        Slot::Below(node) => node.find(rest, wanted),
    }
}

/// One more leaf at a digit. A refusal leaves the slot as it was.
#[inline(always)]
pub fn push_at<N: Node>(slot: &mut Slot<N>, alloc: Global, leaf: Leaf) -> Result<(), Memory>
    ensures ok { OnOk result ((q : ℕ) → places_at N.places slot.new q ≡ places_at N.places slot.old q ++ places_of leaf q) }
    ensures err { OnErr result ((q : ℕ) → places_at N.places slot.new q ≡ places_at N.places slot.old q) }
{
    match slot {
        Slot::Below(node) => node.push(alloc, leaf),
        Slot::Few(few) => {
            if few.push(leaf) {
                return Ok(());
            }
            let node = few.deepen(alloc, leaf)?;
            *slot = Slot::Below(node);
            Ok(())
        }
    }
}

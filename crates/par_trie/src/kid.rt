ghost use Rattle.std.specs.Prelude.{◌≡◌, ℕ, ◌++◌, IfSome, IfNone, OnOk, OnErr, true, false};
ghost use Rattle.par_index.specs.Places.{is_among, places_of};
ghost use Rattle.par_trie.specs.Below.{places_at};

use crate::node::Node;
use par_index::{Leaf, Wanted};
use par_laws::Memory;
use std::alloc::Global;

/// What stands below a digit.
#[derive(Drop)]
pub enum Kid<N> {
    One(Leaf),
    Below(Box<N>),
}

pub fn find_in<N: Node, W: Wanted>(kid: &Kid<N>, rest: u32, wanted: &W) -> Option<u32>
    ensures found { IfSome result (λ at. W.is_wanted wanted.now at ≡ true) }
    ensures absent { IfNone result ((at : ℕ) → is_among at (places_at N.places kid.now rest) ≡ true → W.is_wanted wanted.now at ≡ false) }
{
    match kid {
        Kid::One(leaf) => {
            if leaf.rest == rest && wanted.is_at(leaf.at) {
                Some(leaf.at)
            } else {
                None
            }
        }
        Kid::Below(node) => node.find(rest, wanted),
    }
}

/// One more leaf below a digit. A refusal leaves the kid as it was.
pub fn push_in<N: Node>(kid: &mut Kid<N>, alloc: Global, leaf: Leaf) -> Result<(), Memory>
    ensures ok { OnOk result ((q : ℕ) → places_at N.places kid.new q ≡ places_at N.places kid.old q ++ places_of leaf q) }
    ensures err { OnErr result ((q : ℕ) → places_at N.places kid.new q ≡ places_at N.places kid.old q) }
{
    match kid {
        Kid::Below(node) => node.push(alloc, leaf),
        Kid::One(old) => {
            let node = Box::new(alloc, N::pair(alloc, *old, leaf)?)?;
            *kid = Kid::Below(node);
            Ok(())
        }
    }
}

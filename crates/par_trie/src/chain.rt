ghost use Rattle.std.specs.Prelude.{◌≡◌, ℕ, List};

use crate::leaves::find_among;
use crate::node::Node;
use par_index::{Leaf, Wanted};
use par_laws::Memory;
use std::alloc::Global;

/// The leaves of one mixed hash, below the last level.
#[derive(Drop)]
pub struct Chain {
    leaves: Vec<Leaf>,
}

impl Node for Chain {
    ghost use Rattle.par_trie.specs.Places.{places_among};

    ghost places = { λ chain q. places_among chain.leaves.items q };

    fn pair(alloc: Global, first: Leaf, second: Leaf) -> Result<Chain, Memory> {
        let mut leaves = Vec::with_capacity(alloc, 2)?;
        leaves.push_reserved(first);
        leaves.push_reserved(second);
        Ok(Chain { leaves })
    }

    fn find<W: Wanted>(&self, rest: u32, wanted: &W) -> Option<u32> {
        find_among(&self.leaves, rest, wanted)
    }

    fn push(&mut self, _alloc: Global, leaf: Leaf) -> Result<(), Memory> {
        self.leaves.push(leaf)?;
        Ok(())
    }
}

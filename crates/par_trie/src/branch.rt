ghost use Rattle.std.specs.Prelude.{ℕ, List, length};
ghost use Rattle.par_trie.specs.Places.{IsIndex};

use crate::kid::{Kid, find_in, push_in};
use crate::node::Node;
use par_index::{Leaf, Wanted};
use par_laws::Memory;
use std::alloc::Global;

/// A level of the trie, by the low five bits of what is left of the hash. A digit's place in `kids` is one less than
/// its number in `index`, which is 0 where the digit has no kid.
#[derive(Drop)]
pub struct Branch<N> {
    index: [u8; 32],
    kids: Vec<Kid<N>>,
    ghost indexed: { IsIndex index (length kids.items) },
}

impl<N: Node> Node for Branch<N> {
    ghost use Rattle.par_trie.specs.Below.{places_in};

    ghost places = { λ branch q. places_in N.places branch.index branch.kids.items q };

    fn pair(alloc: Global, first: Leaf, second: Leaf) -> Result<Branch<N>, Memory> {
        let mut branch = Branch {
            index: [0; 32],
            kids: Vec::new(alloc),
        };
        branch.push(alloc, first)?;
        branch.push(alloc, second)?;
        Ok(branch)
    }

    fn find<W: Wanted>(&self, rest: u32, wanted: &W) -> Option<u32> {
        let number = self.index[(rest % 32) as usize];
        if number == 0 {
            return None;
        }
        find_in(&self.kids[number as usize - 1], rest / 32, wanted)
    }

    fn push(&mut self, alloc: Global, leaf: Leaf) -> Result<(), Memory> {
        let digit = (leaf.rest % 32) as usize;
        let inner = Leaf {
            rest: leaf.rest / 32,
            at: leaf.at,
        };
        let number = self.index[digit];
        if number == 0 {
            self.kids.push(Kid::One(inner))?;
            self.index[digit] = self.kids.len() as u8;
            return Ok(());
        }
        push_in(&mut self.kids[number as usize - 1], alloc, inner)
    }
}

ghost use Rattle.std.specs.Prelude.{◌≡◌, ℕ, List, length};
ghost use Rattle.par_trie.specs.Rows.{IsTwofold};

use crate::leaves::Few;
use crate::node::Node;
use crate::row::{push_in_row, row_of};
use crate::slot::{Slot, find_at};
use par_index::{Leaf, Wanted};
use par_laws::Memory;
use std::alloc::Global;

/// Two levels of the trie, each by five bits of what is left of the hash. A digit of the upper level has a few leaves, or
/// else a row of 32 slots, one for each digit of the lower level. All rows stand in one vector, so that no level has to be
/// read between this node and a slot. `index` has the number of a digit's row, from 1 on, and 0 where it has none.
#[derive(Drop)]
pub struct Twofold<N> {
    index: [u8; 32],
    slots: Vec<Slot<N>>,
    few: Vec<Few>,
    ghost twofold: { IsTwofold index (length few.items) (length slots.items) },
}

impl<N: Node> Node for Twofold<N> {
    ghost use Rattle.par_trie.specs.Rows.{places_in};

    ghost places = { λ node q. places_in N.places node.index node.few.items node.slots.items q };

    fn pair(alloc: Global, first: Leaf, second: Leaf) -> Result<Twofold<N>, Memory> {
        let mut node = Twofold {
            index: [0; 32],
            slots: Vec::new(alloc),
            few: vec![in alloc; Few::none(); 32]?,
        };
        node.push(alloc, first)?;
        node.push(alloc, second)?;
        Ok(node)
    }

    fn find<W: Wanted>(&self, rest: u32, wanted: &W) -> Option<u32> {
        let digit = (rest % 32) as usize;
        let inner = rest / 32;
        let number = self.index[digit] as usize;
        if number == 0 {
            return self.few[digit].find(inner, wanted);
        }
        let place = (number - 1) * 32 + (inner % 32) as usize;
        find_at(&self.slots[place], inner / 32, wanted)
    }

    fn push(&mut self, alloc: Global, leaf: Leaf) -> Result<(), Memory> {
        let digit = (leaf.rest % 32) as usize;
        let inner = Leaf {
            rest: leaf.rest / 32,
            at: leaf.at,
        };
        let number = self.index[digit] as usize;
        if number > 0 {
            return push_in_row(&mut self.slots, number - 1, alloc, inner);
        }
        if self.few[digit].push(inner) {
            return Ok(());
        }
        let mut row = row_of(alloc, &self.few[digit], inner)?;
        self.slots.append(&mut row)?;
        self.index[digit] = (self.slots.len() / 32) as u8;
        Ok(())
    }
}

//! The lowest level.
use crate::node::Node;
use par_laws::Back;
use std::alloc::Global;
use std::marker::Model;

/// Up to 32 items.
#[derive(Drop)]
pub struct Leaf<T> {
    items: Vec<T>,
}

impl<T> Model for Leaf<T> {
    ghost use Rattle.std.specs.Prelude.{List, ◌≤◌, length};

    ghost Value = { List T };

    ghost view = { λ leaf. leaf.items.items };

    ghost invariant = { λ leaf. length leaf.items.items ≤ 32 };
}

impl<T: Drop> Node for Leaf<T> {
    ghost use Rattle.std.proofs.Common.{arith};

    type Item = T;

    ghost items = { λ leaf. leaf };

    ghost room = { 32 };

    ghost roomy = { omega arith };

    fn room() -> u32 {
        32
    }

    fn empty(alloc: Global) -> Leaf<T> {
        Leaf {
            items: Vec::new(alloc),
        }
    }

    fn run(&self, i: u32) -> &[T] {
        self.items.as_slice().split_at(i as usize).1
    }

    fn push(&mut self, _alloc: Global, _at: u32, item: T) -> Result<(), Back<T>> {
        self.items.push(item)?;
        Ok(())
    }
}

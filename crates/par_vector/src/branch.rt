//! The levels above the lowest.
ghost use Rattle.std.specs.Prelude.{◌≡◌, ◌+◌, ◌*◌, ◌<◌, ◌≤◌, ◌^◌, [], ◌∷◌, ◌++◌, length, IfErr, OnOk, OnErr};
ghost use Rattle.par_vector.specs.Kids.{HasOneMore};

use crate::node::Node;
use par_laws::Back;
use std::alloc::Global;
use std::marker::Model;

/// Up to 32 nodes of the level below. Each but the last is full, and none is empty.
#[derive(Drop)]
pub struct Branch<N: Node> {
    kids: Vec<N>,
}

impl<N: Node> Model for Branch<N> {
    ghost use Rattle.std.specs.Prelude.{List, ◌≤◌, length};
    ghost use Rattle.std.specs.Coded.{coded_list};
    ghost use Rattle.std.specs.List.{flat_map};
    ghost use Rattle.par_vector.specs.Packed.{IsPacked};

    ghost Value = { List N.Item };

    ghost coded = { coded_list N.Item.code };

    ghost view = { λ b. flat_map N.items b.kids.items };

    ghost invariant = { λ b. (length b.kids.items ≤ 32) × IsPacked N.items N.room b.kids.items };
}

// Adds a node with one item.
fn push_kid<N: Node>(kids: &mut Vec<N>, alloc: Global, item: N::Item) -> Result<(), Back<N::Item>>
    requires { N.room < 2 ^ 32 }
    ensures ok { OnOk result (HasOneMore N.items kids.old.items item kids.new.items) }
    ensures err { OnErr result (kids.new.items ≡ kids.old.items) }
    ensures back { IfErr result (λ refused. refused.item ≡ item) }
{
    let Ok(()) = kids.push(N::empty(alloc)) else {
        return Err(Back { item });
    };
    let last = kids.len() - 1;
    let pushed = kids[last].push(alloc, 0, item);
    if pushed.is_err() {
        let _empty = kids.pop();
    }
    pushed
}

impl<N: Node> Node for Branch<N> {
    ghost use Rattle.std.proofs.Common.{arith};

    type Item = N::Item;

    ghost items = { λ b. b };

    ghost room = { 32 * N.room };

    ghost roomy = { omega (arith, N.roomy) };

    fn room() -> u32 {
        32 * N::room()
    }

    fn empty(alloc: Global) -> Branch<N> {
        Branch {
            kids: Vec::new(alloc),
        }
    }

    fn run(&self, i: u32) -> &[N::Item] {
        let room = N::room();
        self.kids[(i / room) as usize].run(i % room)
    }

    fn push(&mut self, alloc: Global, at: u32, item: N::Item) -> Result<(), Back<N::Item>> {
        let room = N::room();
        if at % room == 0 {
            push_kid(&mut self.kids, alloc, item)
        } else {
            self.kids[(at / room) as usize].push(alloc, at % room, item)
        }
    }
}

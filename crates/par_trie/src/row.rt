ghost use Rattle.std.specs.Prelude.{◌≡◌, ◌≢◌, ◌≤◌, ◌++◌, ◌+◌, ◌*◌, ℕ, length, IfOk, OnOk, OnErr};
ghost use Rattle.par_index.specs.Places.{places_of};
ghost use Rattle.par_trie.specs.Places.{places_among};
ghost use Rattle.par_trie.specs.Slots.{places_in};
ghost use Rattle.par_trie.specs.Rows.{places_in_row};

use crate::leaves::Few;
use crate::node::Node;
use crate::slot::{Slot, push_at};
use crate::wide::{fill, push_among};
use par_index::Leaf;
use par_laws::Memory;
use std::alloc::Global;

/// The 32 slots of a level with these leaves, which are three, and one more.
#[inline(never)]
pub fn row_of<N: Node>(alloc: Global, few: &Few, leaf: Leaf) -> Result<Vec<Slot<N>>, Memory>
    ensures count { IfOk result (λ row. length row.items ≡ 32) }
    ensures places { IfOk result (λ row. (q : ℕ) → places_in N.places row.items q ≡ places_among few.now.leaves q ++ places_of leaf q) }
{
    let [first, second, third] = few.all();
    let mut row = Vec::new(alloc);
    fill(&mut row)?;
    push_among(&mut row, alloc, first)?;
    push_among(&mut row, alloc, second)?;
    push_among(&mut row, alloc, third)?;
    push_among(&mut row, alloc, leaf)?;
    Ok(row)
}

/// One more leaf in a row of 32 slots. A refusal leaves all rows as they were.
#[inline(always)]
pub fn push_in_row<N: Node>(
    slots: &mut Vec<Slot<N>>,
    row: usize,
    alloc: Global,
    leaf: Leaf,
) -> Result<(), Memory>
    requires { row * 32 + 32 ≤ length slots.old.items }
    ensures count { length slots.new.items ≡ length slots.old.items }
    ensures ok { OnOk result ((q : ℕ) → places_in_row N.places slots.new.items row q ≡ places_in_row N.places slots.old.items row q ++ places_of leaf q) }
    ensures others { (i q : ℕ) → i ≢ row → places_in_row N.places slots.new.items i q ≡ places_in_row N.places slots.old.items i q }
    ensures err { OnErr result ((q : ℕ) → places_in_row N.places slots.new.items row q ≡ places_in_row N.places slots.old.items row q) }
{
    let inner = Leaf {
        rest: leaf.rest / 32,
        at: leaf.at,
    };
    push_at(
        &mut slots[row * 32 + (leaf.rest % 32) as usize],
        alloc,
        inner,
    )
}

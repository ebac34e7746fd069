ghost use Rattle.std.specs.Prelude.{◌≡◌, ◌<◌, ◌≤◌, ◌++◌, ℕ, [], length, OnOk, OnErr};
ghost use Rattle.par_index.specs.Places.{places_of};
ghost use Rattle.par_trie.specs.Slots.{places_in};

use crate::leaves::Few;
use crate::node::Node;
use crate::slot::{Slot, find_at, push_at};
use par_index::{Leaf, Wanted};
use par_laws::Memory;
use std::alloc::Global;

/// A level of the trie with a slot for each digit, the low five bits of what is left of the hash: going down a level
/// reads one slot. A level has its 32 slots from its first leaf on.
#[derive(Drop)]
pub struct Wide<N> {
    slots: Vec<Slot<N>>,
}

impl<N: Node> Wide<N> {
    /// Without leaves. Takes no memory.
    pub fn empty(alloc: Global) -> Wide<N>
        ensures { (q : ℕ) → ⟦<Wide<N> as Node>⟧.places result q ≡ [] }
    {
        Wide {
            slots: Vec::new(alloc),
        }
    }
}

impl<N: Node> Node for Wide<N> {
    ghost use Rattle.par_trie.specs.Slots.{places_in};

    ghost places = { λ wide q. places_in N.places wide.slots.items q };

    fn pair(alloc: Global, first: Leaf, second: Leaf) -> Result<Wide<N>, Memory> {
        let mut wide = Wide::empty(alloc);
        wide.push(alloc, first)?;
        wide.push(alloc, second)?;
        Ok(wide)
    }

    fn find<W: Wanted>(&self, rest: u32, wanted: &W) -> Option<u32> {
        match self.slots.get((rest % 32) as usize) {
            Some(slot) => find_at(slot, rest / 32, wanted),
            None => None,
        }
    }

    #[inline(always)]
    fn push(&mut self, alloc: Global, leaf: Leaf) -> Result<(), Memory> {
        widen(&mut self.slots)?;
        push_among(&mut self.slots, alloc, leaf)
    }
}

/// One more leaf among the 32 slots of a level. A refusal leaves them as they were.
#[inline(always)]
pub fn push_among<N: Node>(
    slots: &mut Vec<Slot<N>>,
    alloc: Global,
    leaf: Leaf,
) -> Result<(), Memory>
    requires { 32 ≤ length slots.old.items }
    ensures count { length slots.new.items ≡ length slots.old.items }
    ensures ok { OnOk result ((q : ℕ) → places_in N.places slots.new.items q ≡ places_in N.places slots.old.items q ++ places_of leaf q) }
    ensures err { OnErr result ((q : ℕ) → places_in N.places slots.new.items q ≡ places_in N.places slots.old.items q) }
{
    let inner = Leaf {
        rest: leaf.rest / 32,
        at: leaf.at,
    };
    push_at(&mut slots[(leaf.rest % 32) as usize], alloc, inner)
}

/// Free slots up to the 32nd, where they aren't there yet.
#[inline(always)]
fn widen<N: Node>(slots: &mut Vec<Slot<N>>) -> Result<(), Memory>
    ensures room { OnOk result (32 ≤ length slots.new.items) }
    ensures same { (q : ℕ) → places_in N.places slots.new.items q ≡ places_in N.places slots.old.items q }
{
    if slots.len() >= 32 {
        return Ok(());
    }
    fill(slots)
}

/// Free slots up to the 32nd.
#[inline(never)]
pub fn fill<N: Node>(slots: &mut Vec<Slot<N>>) -> Result<(), Memory>
    requires { length slots.old.items < 32 }
    ensures count { OnOk result (length slots.new.items ≡ 32) }
    ensures same { (q : ℕ) → places_in N.places slots.new.items q ≡ places_in N.places slots.old.items q }
{
    let present = slots.len();
    slots.reserve(32 - present)?;
    for _ in present..32 {
        slots.push_reserved(Slot::Few(Few::none()));
    }
    Ok(())
}

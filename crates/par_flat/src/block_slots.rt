ghost use Rattle.std.specs.Prelude.{◌≡◌, ℕ, ◌+◌, ◌<◌, ◌≤◌, ◌||◌, ◌&&◌, ◌==◌, length, IfOk, OnOk, OnErr};
ghost use Rattle.par_flat.specs.Slots.{is_in, taken};
ghost use Rattle.par_flat.specs.Blocks.{home_in, IsBlock};

use crate::slots::{Looked, Slot, gap_in, look};
use par_index::{Index, Leaf, Wanted};
use par_laws::Memory;
use std::alloc::Global;
use std::marker::Model;

/// The places of keys of one bucket by their mixed hashes: the slots of a block, and past its end the leftovers, which
/// are those that found no free slot from their homes on.
#[derive(Drop)]
pub struct BlockSlots {
    shift: u32,
    pub(crate) size: u32,
    count: u32,
    pub(crate) slots: Vec<Slot>,
}

impl Model for BlockSlots {
    ghost use Rattle.std.specs.Prelude.{◌≡◌, List};
    ghost use Rattle.par_flat.specs.declared.slots.Slot.{Slot};

    ghost Value = { List Slot };

    ghost use Rattle.par_flat.specs.Slots.{taken};
    ghost use Rattle.par_flat.specs.Blocks.{IsBlock};

    ghost view = { λ block. block.slots.items };

    ghost invariant = { λ block. IsBlock block.shift block.size block.slots.items × (block.count ≡ taken block.slots.items) };
}

impl BlockSlots {
    /// A block's slots in a table of this room, all free.
    pub fn with_room(alloc: Global, room: u32) -> Result<BlockSlots, Memory>
        requires { room ≤ 18 }
        ensures { IfOk result (λ block. taken block ≡ 0) }
    {
        let size = 1u32 << room;
        let slots = vec![in alloc; Slot::Free; size as usize]?;
        Ok(BlockSlots {
            shift: 27 - room,
            size,
            count: 0,
            slots,
        })
    }
}

impl Index for BlockSlots {
    ghost use Rattle.par_flat.specs.Slots.{is_in, taken};

    ghost has = { is_in };

    ghost count = { taken };

    fn find<W: Wanted>(&self, hash: u32, wanted: &W) -> Option<u32> {
        let home = home_of(self.shift, self.size, hash);
        match look(&self.slots[home..], hash, wanted) {
            Looked::Found(at) => Some(at),
            Looked::Gap => None,
            Looked::End => None,
        }
    }

    fn push(&mut self, hash: u32) -> Result<(), Memory> {
        let leaf = Leaf {
            rest: hash,
            at: self.count,
        };
        put_in_block(&mut self.slots, self.shift, self.size, leaf)?;
        self.count += 1;
        Ok(())
    }
}

fn home_of(shift: u32, size: u32, hash: u32) -> usize
    requires shift { shift < 32 }
    requires size { 0 < size }
    ensures home { result ≡ home_in shift size hash }
    ensures within { result < size }
{
    ((hash >> shift) % size) as usize
}

/// Puts a leaf into the first free slot from its home to the block's end, or else past the end.
fn put_in_block(slots: &mut Vec<Slot>, shift: u32, size: u32, leaf: Leaf) -> Result<(), Memory>
    requires block { IsBlock shift size slots.old.items }
    ensures block { IsBlock shift size slots.new.items }
    ensures count { OnOk result (taken slots.new.items ≡ taken slots.old.items + 1) }
    ensures leaves { OnOk result ((q a : ℕ) → is_in slots.new.items q a ≡ (is_in slots.old.items q a || ((leaf.rest == q) && (leaf.at == a)))) }
    ensures err { OnErr result (slots.new.items ≡ slots.old.items) }
{
    let home = home_of(shift, size, leaf.rest);
    let first = home + gap_in(&slots[home..]);
    if first < slots.len() {
        slots[first] = Slot::Taken(leaf);
        return Ok(());
    }
    slots.push(Slot::Taken(leaf))?;
    Ok(())
}

ghost use Rattle.std.specs.Prelude.{◌≡◌, ℕ, ◌+◌, ◌-◌, ◌*◌, ◌<◌, ◌≤◌, ◌^◌, ◌||◌, ◌&&◌, ◌==◌, length, [], ◌∷◌, IfOk, OnOk, OnErr, true, false, replicate};
ghost use Rattle.par_flat.specs.declared.slots.Slot.TheVariants.{Free};
ghost use Rattle.par_flat.specs.Slots.{is_in, taken, AreClear, IsTable};

use crate::slots::{Slot, find, put};
use par_index::{Index, Leaf, Wanted};
use par_laws::{MAX_ITEMS, Memory};
use std::alloc::Global;
use std::marker::Model;

/// The places of keys by their mixed hashes, in slots, of which at most half are taken.
#[derive(Drop)]
pub struct Slots {
    alloc: Global,
    pub(crate) room: u32,
    count: u32,
    slots: Vec<Slot>,
}

impl Model for Slots {
    ghost use Rattle.std.specs.Prelude.{◌≡◌, List};
    ghost use Rattle.par_flat.specs.declared.slots.Slot.{Slot};

    ghost Value = { List Slot };

    ghost use Rattle.par_flat.specs.Slots.{IsTable, taken};

    ghost view = { λ table. table.slots.items };

    ghost invariant = { λ table. IsTable table.room table.slots.items × (table.count ≡ taken table.slots.items) };
}

impl Slots {
    /// The slots of a room, all free.
    pub fn with_room(alloc: Global, room: u32) -> Result<Slots, Memory>
        requires { room ≤ 18 }
        ensures { IfOk result (λ table. taken table ≡ 0) }
    {
        let slots = spread(alloc, &[], room)?;
        Ok(Slots {
            alloc,
            room,
            count: 0,
            slots,
        })
    }
}

impl Slots {
    /// Doubles the slots where one more would take more than half of them. A refusal leaves them as they were.
    fn make_room(&mut self) -> Result<(), Memory>
        requires { taken self.old < MAX_ITEMS }
        ensures room { OnOk result (taken self.new * 2 + 2 ≤ length self.new) }
        ensures count { taken self.new ≡ taken self.old }
        ensures leaves { (q a : ℕ) → is_in self.new q a ≡ is_in self.old q a }
    {
        if self.count as usize * 2 + 2 <= self.slots.len() {
            return Ok(());
        }
        let slots = spread(self.alloc, self.slots.as_slice(), self.room + 1)?;
        self.slots = slots;
        self.room += 1;
        Ok(())
    }
}

impl Index for Slots {
    ghost use Rattle.par_flat.specs.Slots.{is_in, taken};

    ghost has = { is_in };

    ghost count = { taken };

    fn find<W: Wanted>(&self, hash: u32, wanted: &W) -> Option<u32> {
        let home = (hash >> (27 - self.room)) as usize;
        find(self.slots.as_slice(), home, hash, wanted)
    }

    fn push(&mut self, hash: u32) -> Result<(), Memory> {
        self.make_room()?;
        let leaf = Leaf {
            rest: hash,
            at: self.count,
        };
        put(self.slots.as_mut_slice(), 27 - self.room, leaf);
        self.count += 1;
        Ok(())
    }
}

/// Puts what a slot holds into other slots.
fn put_again(slots: &mut [Slot], shift: u32, slot: Slot)
    requires shift { shift < 32 }
    requires homes { 2 ^ 32 ≤ length slots.old * 2 ^ shift }
    requires room { taken slots.old < length slots.old }
    requires clear { AreClear shift slots.old }
    ensures clear { AreClear shift slots.new }
    ensures count { taken slots.new ≡ taken slots.old + taken (slot ∷ []) }
    ensures leaves { (q a : ℕ) → is_in slots.new q a ≡ (is_in slots.old q a || is_in (slot ∷ []) q a) }
{
    match slot {
        Slot::Free => {}
        Slot::Taken(leaf) => put(slots, shift, leaf),
    }
}

fn put_all(new: &mut [Slot], shift: u32, slots: &[Slot])
    requires shift { shift < 32 }
    requires homes { 2 ^ 32 ≤ length new.old * 2 ^ shift }
    requires room { taken slots.now < length new.old }
    requires free { new.old ≡ replicate (length new.old) Free }
    ensures clear { AreClear shift new.new }
    ensures count { taken new.new ≡ taken slots.now }
    ensures leaves { (q a : ℕ) → is_in new.new q a ≡ is_in slots.now q a }
{
    for slot in slots {
        put_again(new, shift, *slot);
    }
}

/// What some slots hold, in the slots of another room.
fn spread(alloc: Global, slots: &[Slot], room: u32) -> Result<Vec<Slot>, Memory>
    requires room { room ≤ 18 }
    requires half { taken slots.now * 2 ≤ 32 * 2 ^ room }
    ensures table { IfOk result (λ new. IsTable room new.items) }
    ensures count { IfOk result (λ new. taken new.items ≡ taken slots.now) }
    ensures leaves { IfOk result (λ new. (q a : ℕ) → is_in new.items q a ≡ is_in slots.now q a) }
{
    let mut new = vec![in alloc; Slot::Free; 32 << room as usize]?;
    put_all(new.as_mut_slice(), 27 - room, slots);
    Ok(new)
}

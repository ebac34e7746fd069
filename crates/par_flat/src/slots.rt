ghost use Rattle.std.specs.Prelude.{◌≡◌, ◌≢◌, ℕ, ◌+◌, ◌<◌, ◌≤◌, ◌^◌, length, IfSome, IfNone, true, false, ◌/◌, ◌||◌, ◌&&◌, ◌==◌};
ghost use Rattle.par_flat.specs.Slots.{looked, is_in, taken, turned, IsClear, first_free, AreClear};

use par_index::{Leaf, Wanted};

/// A place of the table.
#[derive(Clone, Copy)]
pub enum Slot {
    Free,
    Taken(Leaf),
}

/// What a walk over slots came to.
#[derive(Clone, Copy)]
pub enum Looked {
    Found(u32),
    Gap,
    End,
}

pub fn look<W: Wanted>(slots: &[Slot], rest: u32, wanted: &W) -> Looked
    ensures { result ≡ looked (W.is_wanted wanted.now) rest slots.now }
{
    for slot in slots {
        match slot {
            Slot::Free => return Looked::Gap,
            Slot::Taken(leaf) => {
                if leaf.rest == rest && wanted.is_at(leaf.at) {
                    return Looked::Found(leaf.at);
                }
            }
        }
    }
    Looked::End
}

/// The wanted place among those with this hash, looked for from the home slot on and round the end.
pub fn find<W: Wanted>(slots: &[Slot], home: usize, rest: u32, wanted: &W) -> Option<u32>
    requires home { home ≤ length slots.now }
    requires clear { IsClear rest (turned home slots.now) }
    ensures found { IfSome result (λ at. W.is_wanted wanted.now at ≡ true) }
    ensures absent { IfNone result ((at : ℕ) → is_in slots.now rest at ≡ true → W.is_wanted wanted.now at ≡ false) }
{
    match look(&slots[home..], rest, wanted) {
        Looked::Found(at) => Some(at),
        Looked::Gap => None,
        Looked::End => match look(&slots[..home], rest, wanted) {
            Looked::Found(at) => Some(at),
            Looked::Gap => None,
            Looked::End => None,
        },
    }
}

pub fn gap_in(slots: &[Slot]) -> usize
    ensures within { result ≤ length slots.now }
    ensures first { result ≡ first_free slots.now }
{
    for (i, slot) in slots.iter().enumerate() {
        if let Slot::Free = slot {
            return i;
        }
    }
    slots.len()
}

/// Puts a leaf into the first free slot, from its home on and round the end.
pub fn put(slots: &mut [Slot], shift: u32, leaf: Leaf)
    requires shift { shift < 32 }
    requires home { leaf.rest / 2 ^ shift ≤ length slots.old }
    requires room { taken slots.old < length slots.old }
    requires clear { AreClear shift slots.old }
    ensures clear { AreClear shift slots.new }
    ensures count { taken slots.new ≡ taken slots.old + 1 }
    ensures leaves { (q a : ℕ) → is_in slots.new q a ≡ (is_in slots.old q a || ((leaf.rest == q) && (leaf.at == a))) }
{
    let home = (leaf.rest >> shift) as usize;
    let late = home + gap_in(&slots[home..]);
    if late < slots.len() {
        slots[late] = Slot::Taken(leaf);
        return;
    }
    let early = gap_in(&slots[..home]);
    slots[early] = Slot::Taken(leaf);
}

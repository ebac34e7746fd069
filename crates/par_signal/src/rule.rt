//! The table under the flags: three words, its rule, and what each step tells.
ghost use Rattle.std.specs.Prelude.{List, Bool, []};
ghost use Rattle.par_signal.specs.Rule.{Kept, begun, spent};
ghost use Rattle.par_signal.specs.Plays.{loaded_low, loaded_high, loaded_abort, lowered, raised, aborted, memory_aborted, cut_left, cut_right, glued};

use atomic_table::{Join, Play, Seat, Split, TableRule};
use std::marker::{Brand, Model, PhantomData};
use std::snapshot::Snapshot;

pub const LOW: usize = 0;

pub const HIGH: usize = 1;

pub const ABORT: usize = 2;

/// The value of the abort flag for want of memory.
pub const MEMORY_WORD: u64 = 1 << 63;

/// What the table keeps for a seat. Only contracts see it, and no value is ever made.
#[derive(Drop)]
pub struct View {
    unmade: (),
}

impl Model for View {
    ghost use Rattle.par_signal.specs.Rule.{Known, spent};

    ghost Value = { Known };

    ghost view = { λ _. spent };
}

/// The rule of the flags. Its key tells the marks.
pub struct FlagRule;

/// The seat of a table whose one use is that this seat's view has the marks.
pub type Told = Snapshot<Seat<(), View>>;

impl TableRule<(), View, Told> for FlagRule {
    ghost holds = { λ key. Kept key.value.me.0.seen.of };

    ghost first = { λ key. begun key.value.me.0.seen.of };
}

/// The marks that a table is told.
pub(crate) trait Telling {
    ghost list: { List Bool };
}

impl Telling for Brand {
    ghost list = { [] };
}

/// The rule of a table that only tells its seat the marks.
pub(crate) struct Tells<B> {
    telling: PhantomData<B>,
}

impl<B: Telling> TableRule<(), View, ()> for Tells<B> {
    ghost holds = { λ _ _. Unit {0} };

    ghost first = { λ _. begun B.list };
}

pub(crate) struct LoadLow;

impl Play<(), View> for LoadLow {
    ghost then = { loaded_low };
}

pub(crate) struct LoadHigh;

impl Play<(), View> for LoadHigh {
    ghost then = { loaded_high };
}

pub(crate) struct LoadAbort;

impl Play<(), View> for LoadAbort {
    ghost then = { loaded_abort };
}

pub(crate) struct Lower;

impl Play<(), View> for Lower {
    ghost then = { lowered };
}

pub(crate) struct Raise;

impl Play<(), View> for Raise {
    ghost then = { raised };
}

pub(crate) struct AbortBy;

impl Play<(), View> for AbortBy {
    ghost then = { aborted };
}

pub(crate) struct AbortMemory;

impl Play<(), View> for AbortMemory {
    ghost then = { memory_aborted };
}

/// A seat is split.
pub(crate) struct Cut;

impl Split<View> for Cut {
    ghost left = { cut_left };

    ghost right = { cut_right };
}

/// A seat is joined into another.
pub(crate) struct Glue;

impl Join<View> for Glue {
    ghost both = { glued };

    ghost spent = { spent };
}

//! The signals and their seats, and what contracts see of them.
use crate::rule::{FlagRule, Told, View};
use atomic_table::{Seat, Table};
use std::alloc::Global;
use std::marker::Model;

/// The three flags, which threads share through a `&`. Contracts see which flags these are, and their marks.
/// Every call with a seat asks that it is a seat of these flags; those of `open` and `split_seat` are, and stay so.
#[derive(Drop)]
pub struct Signals {
    pub(crate) table: Table<(), View, Told, FlagRule, Global>,
}

impl Model for Signals {
    ghost use Rattle.std.specs.Prelude.{◌≡◌, ◌≤◌, length};
    ghost use Rattle.par_signal.specs.Seen as seen;

    ghost Value = { seen.Flags };

    ghost view = { λ s. record { table = s.table.shared.table_id; marks = s.table.shared.key.value.me.0.seen.of } };

    ghost invariant = { λ s. (s.table.shared.table_id.words ≡ 3) × (length s.table.shared.key.value.me.0.seen.of ≤ 4194304) };
}

/// A thread's leave to step on the flags. Contracts see what it has seen of each flag and the steps that it took.
/// It has no bytes.
#[derive(Drop)]
pub struct SignalSeat {
    pub(crate) seat: Seat<(), View>,
}

impl Model for SignalSeat {
    ghost use Rattle.par_signal.specs.Seen.{Seen};
    ghost use Rattle.par_signal.specs.Rule.{located, IsSeat};

    ghost Value = { Seen };

    ghost view = { λ s. located s.seat.table_id s.seat.me.0.seen };

    ghost invariant = { λ s. IsSeat s.seat.me };
}

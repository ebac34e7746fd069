//! The board and its seats, and what contracts see of them.
//!
//! The structs are generic in what a slot holds, and the names that callers use are aliases: so the check finds which of
//! them may cross threads.
use crate::load::Load;
use crate::rule::{BoardRule, Key, View};
use atomic_table::{Seat, Table, TableRule};
use par_task::Job;
use std::alloc::Global;
use std::marker::Model;

/// A board over a job, with a slot of the type `S` for each node. Callers name it `Board`.
#[derive(Drop)]
pub struct BoardOf<'a, S, J: Job, P: TableRule<S, View<J>, Key<J>>> {
    pub(crate) job: &'a J,
    pub(crate) n: u32,
    pub(crate) table: Table<S, View<J>, Key<J>, P, Global>,
}

impl<'a, S, J: Job, P: TableRule<S, View<J>, Key<J>>> Model for BoardOf<'a, S, J, P> {
    ghost use Rattle.std.specs.Prelude.{◌≡◌, ◌≤◌, Some, length};
    ghost use Rattle.par_board.specs.Seen.{Boards};

    ghost Value = { Boards J };

    ghost view = { λ b. record { of = record { table = b.table.shared.table_id; job = Some b.table.shared.key.value }; job = b.table.shared.key.value } };

    ghost invariant = { λ b. (b.table.shared.table_id.words ≡ 2048) × (b.table.shared.table_id.slots ≡ 2048) × (b.n ≤ 4194304) × (length (J.source b.job.now) ≡ b.n) × (b.table.shared.key.value ≡ b.job.now) };
}

/// A thread's leave to step on a board whose slots have the type `S`. Callers name it `BoardSeat`. It has no bytes.
#[derive(Drop)]
pub struct SeatOf<S, J> {
    pub(crate) seat: Seat<S, View<J>>,
}

impl<S, J> Model for SeatOf<S, J> {
    ghost use Rattle.std.specs.Prelude.{◌≡◌, true, []};
    ghost use Rattle.par_board.specs.Seen.{Seen};
    ghost use Rattle.par_board.specs.Rule.{located};

    ghost Value = { Seen J };

    ghost view = { λ s. located s.seat.table_id s.seat.me.0 };

    ghost invariant = { λ s. (s.seat.me.0.live ≡ true) × (s.seat.me.1 ≡ []) };
}

/// What lies in a node's slot: a splitter or a part, or nothing.
pub type Slot<J> = Option<Load<J>>;

/// A board of nodes 1 to 2,047, which threads share through a `&`. It borrows its job. Contracts see which board it is,
/// and the job's plain data. Every call with a seat asks that it is a seat of this board; those of `open` and
/// `split_seat` are, and stay so.
pub type Board<'a, J> = BoardOf<'a, Option<Load<J>>, J, BoardRule>;

/// A thread's leave to step on the board of a job. Contracts see what it owns, what it holds and which steps it took.
/// It has no bytes.
pub type BoardSeat<J> = SeatOf<Option<Load<J>>, J>;

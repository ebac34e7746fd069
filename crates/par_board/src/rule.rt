//! The table under the board: its rule, what it keeps for a seat, and what each step tells.
ghost use Rattle.std.specs.Prelude.{Some, length};
ghost use Rattle.par_board.specs.Calls.{left_of, right_of, joined};
ghost use Rattle.par_board.specs.Rule.{Kept, begun, spent};
ghost use Rattle.par_board.specs.Plays.{looked, claimed, lifted, laid, finished, filled, offered, took, closed};

use crate::load::Load;
use atomic_table::{Join, Play, Split, TableRule};
use par_task::Job;
use std::marker::{Model, PhantomData};
use std::snapshot::Snapshot;

/// What the table keeps for a seat. Only contracts see it, and no value is ever made.
pub struct View<J> {
    unmade: PhantomData<J>,
}

impl<J> Model for View<J> {
    ghost use Rattle.par_board.specs.Rule.{Known, spent};

    ghost Value = { Known J };

    ghost view = { λ _. spent };
}

/// What the table is told once: the job's plain data.
pub type Key<J> = Snapshot<J>;

/// The rule of the board.
pub struct BoardRule;

impl<J: Job> TableRule<Option<Load<J>>, View<J>, Key<J>> for BoardRule {
    ghost holds = { λ key. Kept (Some key.value) (length (J.source key.value)) };

    ghost first = { λ key. begun (Some key.value) };
}

/// A load of a node's word.
pub(crate) struct Look;

impl<J: Job> Play<Option<Load<J>>, View<J>> for Look {
    ghost then = { looked };
}

/// An offered node is taken.
pub(crate) struct Take;

impl<J: Job> Play<Option<Load<J>>, View<J>> for Take {
    ghost then = { claimed };
}

/// A load with which the slot of a held node goes out with the seat.
pub(crate) struct Lift;

impl<J: Job> Play<Option<Load<J>>, View<J>> for Lift {
    ghost then = { lifted };
}

/// A load with which the slot of a held node comes home.
pub(crate) struct Lay;

impl<J: Job> Play<Option<Load<J>>, View<J>> for Lay {
    ghost then = { laid };
}

/// A held node is done.
pub(crate) struct Finish;

impl<J: Job> Play<Option<Load<J>>, View<J>> for Finish {
    ghost then = { finished };
}

/// A free node is filled, with a free tree below it.
pub(crate) struct Fill;

impl<J: Job> Play<Option<Load<J>>, View<J>> for Fill {
    ghost then = { filled };
}

/// A filled node is offered.
pub(crate) struct Offer;

impl<J: Job> Play<Option<Load<J>>, View<J>> for Offer {
    ghost then = { offered };
}

/// A done node is taken back by the seat that opened it.
pub(crate) struct TakeBack;

impl<J: Job> Play<Option<Load<J>>, View<J>> for TakeBack {
    ghost then = { took };
}

/// A node that was taken back is merged.
pub(crate) struct Close;

impl<J: Job> Play<Option<Load<J>>, View<J>> for Close {
    ghost then = { closed };
}

/// A seat is split.
pub(crate) struct Cut;

impl<J> Split<View<J>> for Cut {
    ghost left = { left_of };

    ghost right = { right_of };
}

/// A seat is joined into another.
pub(crate) struct Glue;

impl<J> Join<View<J>> for Glue {
    ghost both = { joined };

    ghost spent = { spent };
}

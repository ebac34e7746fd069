//! What one thread of a run has.
use crate::tracked::Tracked;
use par_board::{SeatOf, Slot};
use par_signal::SignalSeat;
use par_task::Leaf;

/// A seat on the board and one of the signals, with the leaves that they ran, by turn.
///
/// The struct is generic in all its parts, so that the check finds which workers may cross threads.
#[derive(Drop)]
pub(crate) struct WorkerOf<S, K> {
    pub(crate) seat: SeatOf<S, K>,
    pub(crate) signal: SignalSeat,
    pub(crate) number: u32,
    pub(crate) leaves: Vec<Leaf>,
}

pub(crate) type Worker<J> = WorkerOf<Slot<Tracked<J>>, Tracked<J>>;

/// A worker with its seat at the market.
#[derive(Drop)]
pub(crate) struct HandOf<S, K, P> {
    pub(crate) worker: WorkerOf<S, K>,
    pub(crate) place: P,
}

pub(crate) type Hand<J, P> = HandOf<Slot<Tracked<J>>, Tracked<J>, P>;

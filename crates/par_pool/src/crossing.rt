//! That threads may share a run, and take their workers along.
use crate::bundle::Bundle;
use crate::shared::Run;
use crate::tracked::Tracked;
use crate::worker::Hand;
use par_board::Board;
use par_market::{DequeMarket, DequeSeat};
use par_task::Job;

fn sent<T: Send>(value: T) -> T {
    value
}

fn shared<T: Sync>(value: &T) -> &T {
    value
}

/// A bundle may be sent to another thread where its part may.
pub(crate) fn bundle_crosses<P: Send>(bundle: Bundle<P>) -> Bundle<P> {
    sent(bundle)
}

/// Threads may share the board of a run where they may share its job, and the job's splitters and parts may be sent.
pub(crate) fn board_crosses<'t, 'a, J: Job + Sync>(
    board: &'t Board<'a, Tracked<J>>,
) -> &'t Board<'a, Tracked<J>>
where
    J::Split: Send,
    J::Part: Send,
{
    shared(board)
}

/// A worker may be sent to another thread where the job's splitters and parts may.
pub(crate) fn hand_crosses<J: Job>(hand: Hand<J, DequeSeat>) -> Hand<J, DequeSeat>
where
    J::Split: Send,
    J::Part: Send,
{
    sent(hand)
}

/// Threads may share a run where they may share its job, its test and its gate, and the splitters and parts may be sent.
pub(crate) fn run_crosses<'t, 'w, 'r, 'a, J: Job + Sync, G: Sync>(
    run: &'t Run<'w, 'r, 'a, J, G, DequeMarket>,
) -> &'t Run<'w, 'r, 'a, J, G, DequeMarket>
where
    J::Split: Send,
    J::Part: Send,
    J::Pred: Sync,
{
    shared(run)
}

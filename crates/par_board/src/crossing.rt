//! That a board and its seats may cross threads, where the job's splitters and parts may.
use crate::board::{Board, BoardSeat};
use par_task::Job;

fn sent<T: Send>(value: T) -> T {
    value
}

fn shared<T: Sync>(value: &T) -> &T {
    value
}

/// A seat may be sent to another thread where the job's splitters and parts may.
pub(crate) fn seat_crosses<J: Job>(seat: BoardSeat<J>) -> BoardSeat<J>
where
    J::Split: Send,
    J::Part: Send,
{
    sent(seat)
}

/// Threads may share a board where they may share its job, and the job's splitters and parts may be sent.
pub(crate) fn board_crosses<'t, 'a, J: Job + Sync>(board: &'t Board<'a, J>) -> &'t Board<'a, J>
where
    J::Split: Send,
    J::Part: Send,
{
    shared(board)
}

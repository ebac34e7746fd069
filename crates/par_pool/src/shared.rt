//! What all workers of a run share.
ghost use Rattle.std.specs.Prelude.{◌≡◌};

use crate::tracked::Tracked;
use par_board::Board;
use par_signal::Signals;
use par_task::Job;
use std::alloc::Global;

/// A job as its workers run it: with its test, and who is told of its leaves.
#[derive(Drop)]
pub(crate) struct WorkOf<'r, J, P, G> {
    pub(crate) alloc: Global,
    pub(crate) job: &'r J,
    pub(crate) inner: &'r P,
    pub(crate) gate: &'r G,
    // How many items a leaf has at most, while there are nodes.
    pub(crate) least: u32,
}

pub(crate) type Work<'r, J, G> = WorkOf<'r, J, <J as Job>::Pred, G>;

/// The job and its test, and where its workers meet.
///
/// The struct is generic in all its parts, so that the check finds where threads may share it.
#[derive(Drop)]
pub(crate) struct RunOf<'w, 'r, J, P, B, G, M> {
    pub(crate) alloc: Global,
    pub(crate) job: &'w J,
    pub(crate) inner: &'w P,
    pub(crate) signals: &'r Signals,
    pub(crate) gate: &'w G,
    pub(crate) board: &'r B,
    pub(crate) market: &'r M,
    pub(crate) least: u32,
}

impl<'w, 'r, J, P, B, G, M> RunOf<'w, 'r, J, P, B, G, M> {
    /// The run of a job over these flags, this board and this market.
    pub(crate) fn over(
        work: &WorkOf<'w, J, P, G>,
        signals: &'r Signals,
        board: &'r B,
        market: &'r M,
    ) -> RunOf<'w, 'r, J, P, B, G, M>
        ensures work { (result.job.now ≡ work.now.job.now) × (result.inner.now ≡ work.now.inner.now) × (result.least ≡ work.now.least) }
        ensures places { (result.signals.now ≡ signals.now) × (result.board.now ≡ board.now) × (result.market.now ≡ market.now) }
    {
        RunOf {
            alloc: work.alloc,
            job: work.job,
            inner: work.inner,
            signals,
            gate: work.gate,
            board,
            market,
            least: work.least,
        }
    }
}

pub(crate) type Run<'w, 'r, 'a, J, G, M> = RunOf<
    'w,
    'r,
    J,
    <J as Job>::Pred,
    Board<'a, Tracked<J>>,
    G,
    M,
>;

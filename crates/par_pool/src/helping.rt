//! What each worker does.
ghost use Rattle.std.specs.Prelude.{◌≡◌, ◌≤◌};
ghost use Rattle.par_task.specs.Marking.{marks_of};
ghost use Rattle.par_pool.specs.Own.{IsResting};
ghost use Rattle.par_pool.specs.World.{IsWorld};

use crate::crew::Helper;
use crate::pause::Pause;
use crate::shared::Run;
use crate::worker::{Hand, Worker};
use par_board::NodeState;
use par_edge::Gate;
use par_laws::Test;
use par_market::{Market, find};
use par_splitter::Splitter;
use par_task::Job;
use std::sync::Wait;

impl<'w, 'r, 'a, J: Job, G: Gate, M> Run<'w, 'r, 'a, J, G, M> {
    // Whether the root's part is done.
    fn is_over(&self, worker: &mut Worker<J>) -> bool
        requires { IsResting J.kind (marks_of J.kind (J.verdicts self.now.job.now)) self.now.board.now.of self.now.signals.now worker.old.number worker.old.seat worker.old.signal worker.old.leaves.items }
        ensures { IsResting J.kind (marks_of J.kind (J.verdicts self.now.job.now)) self.now.board.now.of self.now.signals.now worker.new.number worker.new.seat worker.new.signal worker.new.leaves.items }
    {
        let state = self.board.state(&mut worker.seat, 1);
        state == NodeState::Done || state == NodeState::Merging || state == NodeState::Merged
    }
}

impl<'w, 'r, 'a, J: Job, G: Gate, M: Market> Helper<Hand<J, M::Seat>> for Run<'w, 'r, 'a, J, G, M> {
    ghost fit = { λ r h. IsWorld J.kind (J.source r.job.now) (J.verdicts r.job.now) (J.Pred.verdict r.inner.now) r.signals.now.marks × (r.board.now.job.job.value ≡ r.job.now) × (1 ≤ r.least) × IsResting J.kind (marks_of J.kind (J.verdicts r.job.now)) r.board.now.of r.signals.now h.worker.number h.worker.seat h.worker.signal h.worker.leaves.items × M.is_of r.market.now h.place };

    // Serves nodes that it finds through the market, until the root is done. The caller begins with the root.
    fn help<R: Wait>(&self, rt: &R, worker: Hand<J, M::Seat>) -> Hand<J, M::Seat> {
        let mut hand = worker;
        if hand.worker.number == 0 {
            self.serve(rt, &mut hand.place, &mut hand.worker, 1);
        }
        let mut pause = Pause::new();
        for _ in rt.forever() {
            if self.is_over(&mut hand.worker) {
                break;
            }
            match find(rt, self.market, &mut hand.place) {
                Some(ticket) => {
                    pause.end();
                    self.serve(rt, &mut hand.place, &mut hand.worker, ticket.node);
                }
                None => pause.rest(rt),
            }
        }
        hand
    }
}

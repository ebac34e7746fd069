//! A node claimed, cut, offered, run and finished.
ghost use Rattle.std.specs.Prelude.{◌≡◌, ◌<◌, ◌≤◌};
ghost use Rattle.par_task.specs.Marking.{marks_of};
ghost use Rattle.par_pool.specs.Own.{IsResting};
ghost use Rattle.par_pool.specs.World.{IsWorld};

use crate::bundle::merged;
use crate::shared::Run;
use crate::worker::Worker;
use par_board::{Claim, tree_laws};
use par_edge::Gate;
use par_laws::Test;
use par_market::Market;
use par_splitter::Splitter;
use par_task::{Chain, Job, chain};
use std::sync::Wait;

impl<'w, 'r, 'a, J: Job, G: Gate, M: Market> Run<'w, 'r, 'a, J, G, M> {
    /// Claims the node where it is offered, and brings it to its end.
    pub(crate) fn serve<R: Wait>(&self, rt: &R, place: &mut M::Seat, worker: &mut Worker<J>, k: u32)
        requires world { IsWorld J.kind (J.source self.now.job.now) (J.verdicts self.now.job.now) (J.Pred.verdict self.now.inner.now) self.now.signals.now.marks }
        requires tracked { self.now.board.now.job.job.value ≡ self.now.job.now }
        requires least { 1 ≤ self.now.least }
        requires worker { IsResting J.kind (marks_of J.kind (J.verdicts self.now.job.now)) self.now.board.now.of self.now.signals.now worker.old.number worker.old.seat worker.old.signal worker.old.leaves.items }
        requires node { (0 < k) × (k < 2048) }
        requires place { M.is_of self.now.market.now place.old }
        ensures place { M.is_of self.now.market.now place.new }
        ensures number { worker.new.number ≡ worker.old.number }
        ensures worker { IsResting J.kind (marks_of J.kind (J.verdicts self.now.job.now)) self.now.board.now.of self.now.signals.now worker.new.number worker.new.seat worker.new.signal worker.new.leaves.items }
    {
        tree_laws();
        let split = match self.board.claim(&mut worker.seat, k) {
            Claim::Mine(split) => split,
            Claim::Elsewhere(_) => return,
        };
        let Chain { node, head, tails } = chain(self.alloc, split, k, self.least);
        self.offer_tails(rt, place, &mut worker.seat, k, tails);
        let mut part = self.run_part(worker, node, head);
        let mut at = node;
        while at > k {
            let next = self.settle(rt, worker, at + 1);
            part = merged(self.job, part, next);
            at /= 2;
        }
        self.board.finish(&mut worker.seat, k, part);
    }
}

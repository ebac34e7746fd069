//! A tail run by its owner where nobody has claimed it, and collected.
ghost use Rattle.std.specs.Prelude.{◌≡◌, ℕ, ◌<◌, true, false};
ghost use Rattle.par_board.specs.Tree.{below};
ghost use Rattle.par_board.specs.Seen.{not_held, owns_at, holds_at};
ghost use Rattle.par_board.specs.Calls.{HasOpen, HoldsSame, OwnsSame};
ghost use Rattle.par_task.specs.Marking.{marks_of};
ghost use Rattle.par_pool.specs.Bundles.{IsBundle};
ghost use Rattle.par_pool.specs.Own.{IsWorker};
ghost use Rattle.par_pool.specs.Tails.{IsShut, IsSettled, WasCollected};
ghost use Rattle.par_pool.specs.World.{IsWorld};

use crate::bundle::Bundle;
use crate::pause::Pause;
use crate::shared::Run;
use crate::tracked::Tracked;
use crate::worker::Worker;
use par_board::{BoardSeat, Claim, Collect, tree_laws};
use par_edge::Gate;
use par_laws::{Shown, Test};
use par_splitter::Splitter;
use par_task::Job;
use std::sync::Wait;

impl<'w, 'r, 'a, J: Job, G: Gate, M> Run<'w, 'r, 'a, J, G, M> {
    /// Claims the node and runs it whole, where it is still offered.
    fn try_node(&self, worker: &mut Worker<J>, k: u32)
        requires world { IsWorld J.kind (J.source self.now.job.now) (J.verdicts self.now.job.now) (J.Pred.verdict self.now.inner.now) self.now.signals.now.marks }
        requires tracked { self.now.board.now.job.job.value ≡ self.now.job.now }
        requires worker { IsWorker J.kind (marks_of J.kind (J.verdicts self.now.job.now)) self.now.board.now.of self.now.signals.now worker.old.number worker.old.seat worker.old.signal worker.old.leaves.items }
        requires node { (0 < k) × (k < 2048) }
        requires loose { holds_at worker.old.seat k ≡ not_held }
        ensures number { worker.new.number ≡ worker.old.number }
        ensures worker { IsWorker J.kind (marks_of J.kind (J.verdicts self.now.job.now)) self.now.board.now.of self.now.signals.now worker.new.number worker.new.seat worker.new.signal worker.new.leaves.items }
        ensures holds { HoldsSame worker.old.seat worker.new.seat }
        ensures owns { (m : ℕ) → m < 2048 → below k m ≡ false → owns_at worker.new.seat m ≡ owns_at worker.old.seat m }
        ensures shut { (m : ℕ) → m < 2048 → IsShut (owns_at worker.old.seat m) → IsShut (owns_at worker.new.seat m) }
    {
        let split = match self.board.claim(&mut worker.seat, k) {
            Claim::Mine(split) => split,
            Claim::Elsewhere(_) => return,
        };
        let part = self.run_part(worker, k, split);
        self.board.finish(&mut worker.seat, k, part);
    }

    /// Collects the node, as often as it takes.
    pub(crate) fn wait_for<R: Wait>(
        &self,
        rt: &R,
        seat: &mut BoardSeat<Tracked<J>>,
        k: u32,
    ) -> Bundle<J::Part>
        requires tracked { self.now.board.now.job.job.value ≡ self.now.job.now }
        requires board { seat.old.of ≡ self.now.board.now.of }
        requires node { (0 < k) × (k < 2048) }
        requires opened { (lo : ℕ) × (hi : ℕ) × HasOpen k lo hi seat.old }
        ensures board { seat.new.of ≡ self.now.board.now.of }
        ensures collected { WasCollected k seat.old seat.new }
        ensures bundle { (lo hi : ℕ) → HasOpen k lo hi seat.old → IsBundle J.kind (marks_of J.kind (J.verdicts self.now.job.now)) (J.good self.now.job.now) (J.merges self.now.job.now) J.Part.shown lo hi result }
    {
        let mut pause = Pause::new();
        for _ in rt.forever() {
            if let Collect::Got(part) = self.board.collect(seat, k) {
                return part;
            }
            pause.rest(rt);
        }
        unreachable!()
    }

    /// The bundle of an open node: run whole where it is still offered, and else waited for.
    pub(crate) fn settle<R: Wait>(&self, rt: &R, worker: &mut Worker<J>, k: u32) -> Bundle<J::Part>
        requires world { IsWorld J.kind (J.source self.now.job.now) (J.verdicts self.now.job.now) (J.Pred.verdict self.now.inner.now) self.now.signals.now.marks }
        requires tracked { self.now.board.now.job.job.value ≡ self.now.job.now }
        requires worker { IsWorker J.kind (marks_of J.kind (J.verdicts self.now.job.now)) self.now.board.now.of self.now.signals.now worker.old.number worker.old.seat worker.old.signal worker.old.leaves.items }
        requires node { (0 < k) × (k < 2048) }
        requires loose { holds_at worker.old.seat k ≡ not_held }
        requires opened { (lo : ℕ) × (hi : ℕ) × HasOpen k lo hi worker.old.seat }
        ensures number { worker.new.number ≡ worker.old.number }
        ensures worker { IsWorker J.kind (marks_of J.kind (J.verdicts self.now.job.now)) self.now.board.now.of self.now.signals.now worker.new.number worker.new.seat worker.new.signal worker.new.leaves.items }
        ensures settled { IsSettled k worker.old.seat worker.new.seat }
        ensures bundle { (lo hi : ℕ) → HasOpen k lo hi worker.old.seat → IsBundle J.kind (marks_of J.kind (J.verdicts self.now.job.now)) (J.good self.now.job.now) (J.merges self.now.job.now) J.Part.shown lo hi result }
    {
        tree_laws();
        self.try_node(worker, k);
        self.wait_for(rt, &mut worker.seat, k)
    }
}

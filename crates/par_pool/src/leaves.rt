//! One leaf of a worker.
ghost use Rattle.std.specs.Prelude.{◌≡◌, ◌∷◌, ◌++◌, [], ◌+◌, length, IfOk, if◌then◌else◌};
ghost use Rattle.par_task.specs.Spans.{IsSpan};
ghost use Rattle.par_task.specs.Marking.{marks_of};
ghost use Rattle.par_pool.specs.Bundles.{IsBundle};
ghost use Rattle.par_pool.specs.Own.{IsWorker};
ghost use Rattle.par_pool.specs.World.{IsWorld};

use crate::bundle::Bundle;
use crate::shared::Run;
use crate::worker::Worker;
use par_edge::Gate;
use par_laws::{Memory, Probe, Shown, Test};
use par_splitter::Splitter;
use par_task::{Job, Leaf, Place, run_leaf};
use std::alloc::Global;

// Notes a leaf in the worker's list.
fn note(leaves: &mut Vec<Leaf>, leaf: Leaf) -> bool
    ensures { leaves.new.items ≡ (if result then leaves.old.items ++ leaf ∷ [] else leaves.old.items) }
{
    leaves.push(leaf).is_ok()
}

// The list of one leaf.
fn alone(alloc: Global, leaf: Leaf) -> Result<Vec<Leaf>, Memory>
    ensures { IfOk result (λ v. v.items ≡ leaf ∷ []) }
{
    let mut leaves = Vec::new(alloc);
    leaves.push(leaf)?;
    Ok(leaves)
}

impl<'w, 'r, 'a, J: Job, G: Gate, M> Run<'w, 'r, 'a, J, G, M> {
    // Says by the signals that memory is wanting.
    fn want(&self, worker: &mut Worker<J>) -> Bundle<J::Part>
        requires { IsWorker J.kind (marks_of J.kind (J.verdicts self.now.job.now)) self.now.board.now.of self.now.signals.now worker.old.number worker.old.seat worker.old.signal worker.old.leaves.items }
        ensures same { (worker.new.number ≡ worker.old.number) × (worker.new.seat ≡ worker.old.seat) }
        ensures worker { IsWorker J.kind (marks_of J.kind (J.verdicts self.now.job.now)) self.now.board.now.of self.now.signals.now worker.new.number worker.new.seat worker.new.signal worker.new.leaves.items }
        ensures bundle { result ≡ Bundle.Wanting }
    {
        self.signals.abort_memory(&mut worker.signal);
        Bundle::Wanting
    }

    /// Runs a part of the source as one leaf. Where memory is wanting it says so by the signals, and gives nothing.
    pub(crate) fn run_part(
        &self,
        worker: &mut Worker<J>,
        node: u32,
        input: J::Split,
    ) -> Bundle<J::Part>
        requires world { IsWorld J.kind (J.source self.now.job.now) (J.verdicts self.now.job.now) (J.Pred.verdict self.now.inner.now) self.now.signals.now.marks }
        requires part { IsSpan (J.source self.now.job.now) (J.Split.lo input) (J.Split.items input) }
        requires worker { IsWorker J.kind (marks_of J.kind (J.verdicts self.now.job.now)) self.now.board.now.of self.now.signals.now worker.old.number worker.old.seat worker.old.signal worker.old.leaves.items }
        ensures same { (worker.new.number ≡ worker.old.number) × (worker.new.seat ≡ worker.old.seat) }
        ensures worker { IsWorker J.kind (marks_of J.kind (J.verdicts self.now.job.now)) self.now.board.now.of self.now.signals.now worker.new.number worker.new.seat worker.new.signal worker.new.leaves.items }
        ensures bundle { IsBundle J.kind (marks_of J.kind (J.verdicts self.now.job.now)) (J.good self.now.job.now) (J.merges self.now.job.now) J.Part.shown (J.Split.lo input) (J.Split.lo input + length (J.Split.items input)) result }
    {
        let Ok(turn) = u32::try_from(worker.leaves.len()) else {
            return self.want(worker);
        };
        let place = Place {
            node,
            seat: worker.number,
            turn,
        };
        let mut probe = Probe::new(self.inner);
        let Ok((part, leaf)) = run_leaf(
            self.alloc,
            self.job,
            input,
            &mut probe,
            self.signals,
            &mut worker.signal,
            place,
            self.gate,
        ) else {
            return self.want(worker);
        };
        if !note(&mut worker.leaves, leaf) {
            return self.want(worker);
        }
        match alone(self.alloc, leaf) {
            Ok(leaves) => Bundle::Whole(part, leaves),
            Err(_) => self.want(worker),
        }
    }
}

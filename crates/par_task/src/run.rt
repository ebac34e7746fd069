//! A job run by one thread.
ghost use Rattle.std.specs.Prelude.{◌≡◌, ◌∷◌, ◌++◌, [], ℕ, ◌+◌, ◌<◌, ◌≤◌, ◌^◌, length, map, IfOk};
ghost use Rattle.par_task.specs.Spans.{IsSpan};
ghost use Rattle.par_task.specs.Marking.{marks_of};
ghost use Rattle.par_task.specs.Seats.{IsLater};
ghost use Rattle.par_task.specs.Audits.{IsAudit, IsLeafed, Comes, threshold_of};
ghost use Rattle.par_task.specs.Alone.{IsOneChain, TestsInAll};
ghost use Rattle.par_task.specs.Runs.{IsRun};

use crate::audit::{Audit, Leaf};
use crate::cutting::chain;
use crate::job::Job;
use crate::tails::Chain;
use par_edge::Gate;
use par_laws::{Memory, Probe, Shown};
use par_signal::{Marks, SignalSeat, Signals};
use par_splitter::Splitter;
use std::alloc::Global;

/// How many items a leaf has at most, while there are numbers for its parts: `n` at level 1, and else
/// `1 + n / (8 * level)`.
pub fn threshold(n: u32, level: u32) -> u32
    requires { (1 ≤ level) × (level ≤ 64) }
    ensures { result ≡ threshold_of n level }
{
    if level == 1 { n } else { 1 + n / (8 * level) }
}

/// Where a leaf stands: its node, who runs it, and how many leaves that seat has run before.
#[derive(Clone, Copy, Debug)]
pub struct Place {
    pub node: u32,
    pub seat: u32,
    pub turn: u32,
}

/// Runs one leaf of a job, after the gate was told of it, and notes what it did. Its one error is want of memory.
pub fn run_leaf<J: Job, G: Gate>(
    alloc: Global,
    job: &J,
    input: J::Split,
    probe: &mut Probe<'_, J::Pred>,
    signals: &Signals,
    seat: &mut SignalSeat,
    place: Place,
    gate: &G,
) -> Result<(J::Part, Leaf), Memory>
    requires part { IsSpan (J.source job.now) (J.Split.lo input) (J.Split.items input) }
    requires test { map (J.Pred.verdict probe.old.inner) (J.source job.now) ≡ J.verdicts job.now }
    requires marks { signals.now.marks ≡ marks_of J.kind (J.verdicts job.now) }
    requires seat { seat.old.of ≡ signals.now }
    requires room { probe.old.made + length (J.Split.items input) < 2 ^ 64 }
    ensures test { probe.new.inner ≡ probe.old.inner }
    ensures seat { IsLater seat.old seat.new }
    ensures leaf { IfOk result (λ r. IsRun J.kind (marks_of J.kind (J.verdicts job.now)) (J.good job.now) (J.Split.lo input) (length (J.Split.items input)) place.node place.seat place.turn probe.old.made probe.new.made seat.old seat.new (J.Part.shown r.0) r.1) }
{
    let (lo, hi) = input.span();
    let before = probe.made();
    gate.begin(place.seat, place.node, lo, hi);
    let done = job.leaf(alloc, input, probe, signals, seat)?;
    let leaf = Leaf {
        node: place.node,
        lo,
        hi,
        seat: place.seat,
        turn: place.turn,
        flag: done.flag,
        tested: probe.made() - before,
    };
    Ok((done.part, leaf))
}

fn note(leaves: &mut Vec<Leaf>, leaf: Leaf) -> Result<(), Memory>
    ensures { IfOk result (λ _. leaves.new.items ≡ leaves.old.items ++ leaf ∷ []) }
{
    match leaves.push(leaf) {
        Ok(()) => Ok(()),
        Err(_) => Err(Memory),
    }
}

/// Runs a job whole on one thread, and answers its part and its audit.
///
/// The source is cut into the chain of node 1. The head runs first, and then the tails from the nearest to the farthest,
/// each as one leaf of seat 0. The gate is told of each leaf before it begins. An empty source has one leaf, over
/// nothing. `marks` are the marks of the job's test over the source. The one error is want of memory.
pub fn run_alone<J: Job, M: Marks, G: Gate>(
    alloc: Global,
    job: &J,
    inner: &J::Pred,
    marks: &M,
    source: J::Split,
    level: u32,
    gate: &G,
) -> Result<(J::Part, Audit), Memory>
    requires source { (J.Split.lo source ≡ 0) × (J.Split.items source ≡ J.source job.now) }
    requires small { length (J.source job.now) ≤ 4194304 }
    requires level { (1 ≤ level) × (level ≤ 64) }
    requires test { map (J.Pred.verdict inner.now) (J.source job.now) ≡ J.verdicts job.now }
    requires marks { M.marks marks.now ≡ marks_of J.kind (J.verdicts job.now) }
    ensures good { IfOk result (λ r. J.good job.now 0 (length (J.source job.now)) (J.Part.shown r.0)) }
    ensures comes { IfOk result (λ r. Comes (IsLeafed J.kind (marks_of J.kind (J.verdicts job.now)) (J.good job.now)) (J.merges job.now) r.1 (J.Part.shown r.0)) }
    ensures audit { IfOk result (λ r. IsAudit J.kind (marks_of J.kind (J.verdicts job.now)) (length (J.source job.now)) (threshold_of (length (J.source job.now)) level) 1 r.1) }
    ensures chain { IfOk result (λ r. IsOneChain r.1) }
    ensures tested { IfOk result (λ r. TestsInAll J.kind (marks_of J.kind (J.verdicts job.now)) r.1) }
{
    let n = source.remaining();
    let (signals, mut seat) = Signals::open(alloc, marks, n)?;
    let mut probe = Probe::new(inner);
    let mut leaves = Vec::new(alloc);
    let Chain {
        node,
        head,
        mut tails,
    } = chain(alloc, source, 1, threshold(n, level));
    let place = Place {
        node,
        seat: 0,
        turn: 0,
    };
    let (mut part, first) = run_leaf(
        alloc, job, head, &mut probe, &signals, &mut seat, place, gate,
    )?;
    note(&mut leaves, first)?;
    let mut turn = 1;
    while let Some((node, tail)) = tails.pop_front() {
        let place = Place {
            node,
            seat: 0,
            turn,
        };
        let (next, leaf) = run_leaf(
            alloc, job, tail, &mut probe, &signals, &mut seat, place, gate,
        )?;
        note(&mut leaves, leaf)?;
        part = job.merge(part, next)?;
        turn += 1;
    }
    Ok((part, Audit::of(leaves)))
}

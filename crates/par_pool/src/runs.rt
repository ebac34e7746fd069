//! One run of a job by several workers.
ghost use Rattle.std.specs.Prelude.{◌≡◌, ℕ, ◌<◌, ◌≤◌, [], length, map, IfOk, All, vec_len};
ghost use Rattle.par_task.specs.Marking.{marks_of};
ghost use Rattle.par_board.specs.Calls.{HasOpen, HoldsNothing, OwnsTree};
ghost use Rattle.par_pool.specs.Bundles.{IsBundle};
ghost use Rattle.par_pool.specs.Lists.{IsList};
ghost use Rattle.par_pool.specs.Own.{IsOwn, IsResting};
ghost use Rattle.par_pool.specs.World.{IsWorld};

use crate::bundle::Bundle;
use crate::crew::help_all;
use crate::shared::{Run, RunOf, Work};
use crate::tracked::Tracked;
use crate::worker::{Hand, HandOf, WorkerOf};
use par_board::{Board, BoardSeat};
use par_edge::Gate;
use par_laws::{Memory, Shown, Test};
use par_market::{DequeMarket, Market, Ticket};
use par_signal::{Marks, SignalSeat, Signals};
use par_splitter::Splitter;
use par_task::{Job, Leaf};
use std::alloc::Global;
use std::snapshot::Snapshot;
use std::sync::Wait;
use std::thread::Threads;

// A worker, with seats that are split from the first ones.
fn hire<'a, J: Job, P: Drop>(
    alloc: Global,
    signals: &Signals,
    board: &Board<'a, Tracked<J>>,
    root: &mut BoardSeat<Tracked<J>>,
    signal: &mut SignalSeat,
    place: P,
    number: u32,
) -> Result<Hand<J, P>, Memory>
    requires root { root.old.of ≡ board.now.of }
    requires signal { signal.old.of ≡ signals.now }
    ensures hand { IfOk result (λ h. IsResting J.kind (marks_of J.kind (J.verdicts board.now.job.job.value)) board.now.of signals.now h.worker.number h.worker.seat h.worker.signal h.worker.leaves.items × (h.place ≡ place)) }
    ensures root { (root.new.of ≡ root.old.of) × (root.new.owns ≡ root.old.owns) × (root.new.holds ≡ root.old.holds) }
    ensures signal { signal.new.of ≡ signals.now }
{
    let seat = board.split_seat(alloc, root)?;
    let signal = signals.split_seat(alloc, signal)?;
    Ok(HandOf {
        worker: WorkerOf {
            seat,
            signal,
            number,
            leaves: Vec::new(alloc),
        },
        place,
    })
}

// A worker for each of the places, with numbers from 1 on.
fn hire_all<'a, J: Job, M: Market>(
    alloc: Global,
    signals: &Signals,
    board: &Board<'a, Tracked<J>>,
    root: &mut BoardSeat<Tracked<J>>,
    signal: &mut SignalSeat,
    _market: &M,
    places: Vec<M::Seat>,
) -> Result<Vec<Hand<J, M::Seat>>, Memory>
    requires root { root.old.of ≡ board.now.of }
    requires signal { signal.old.of ≡ signals.now }
    requires places { (vec_len places < 64) × All (M.is_of _market.now) places.items }
    ensures hands { IfOk result (λ v. All (λ h. IsResting J.kind (marks_of J.kind (J.verdicts board.now.job.job.value)) board.now.of signals.now h.worker.number h.worker.seat h.worker.signal h.worker.leaves.items × M.is_of _market.now h.place) v.items) }
    ensures root { (root.new.of ≡ root.old.of) × (root.new.owns ≡ root.old.owns) × (root.new.holds ≡ root.old.holds) }
    ensures signal { signal.new.of ≡ signals.now }
{
    let mut hands = Vec::with_capacity(alloc, places.len())?;
    let mut number = 1;
    for place in places {
        hands.push(hire(alloc, signals, board, root, signal, place, number)?)?;
        number += 1;
    }
    Ok(hands)
}

// The lists of the workers' leaves, the first worker's first.
fn lists_of<J: Job, P: Drop>(
    alloc: Global,
    _job: &J,
    first: Hand<J, P>,
    others: Vec<Hand<J, P>>,
) -> Result<Vec<Vec<Leaf>>, Memory>
    requires first { IsOwn J.kind (marks_of J.kind (J.verdicts _job.now)) first.worker.number first.worker.signal first.worker.leaves.items }
    requires others { All (λ h. IsOwn J.kind (marks_of J.kind (J.verdicts _job.now)) h.worker.number h.worker.signal h.worker.leaves.items) others.items }
    ensures { IfOk result (λ v. All (λ l. IsList J.kind (marks_of J.kind (J.verdicts _job.now)) l.items) v.items) }
{
    let mut lists = Vec::with_capacity(alloc, others.len())?;
    lists.push(leaves_of(_job, first))?;
    for hand in others {
        lists.push(leaves_of(_job, hand))?;
    }
    Ok(lists)
}

// The leaves of a worker.
fn leaves_of<J: Job, P: Drop>(_job: &J, hand: Hand<J, P>) -> Vec<Leaf>
    requires { IsOwn J.kind (marks_of J.kind (J.verdicts _job.now)) hand.worker.number hand.worker.signal hand.worker.leaves.items }
    ensures { IsList J.kind (marks_of J.kind (J.verdicts _job.now)) result.items }
{
    let HandOf { worker, place: _ } = hand;
    let WorkerOf {
        seat: _,
        signal: _,
        number: _,
        leaves,
    } = worker;
    leaves
}

// The ticket of the root, over n items.
fn whole(n: u32) -> Ticket {
    Ticket {
        node: 1,
        lo: 0,
        hi: n,
    }
}

// A worker for each of the places, the caller's first.
fn hire_crew<J: Job, G, K: Market>(
    run: &Run<'_, '_, '_, J, G, K>,
    root: &mut BoardSeat<Tracked<J>>,
    signal: &mut SignalSeat,
    mut places: Vec<K::Seat>,
) -> Result<(Hand<J, K::Seat>, Vec<Hand<J, K::Seat>>), Memory>
    requires root { root.old.of ≡ run.now.board.now.of }
    requires signal { signal.old.of ≡ run.now.signals.now }
    requires places { (1 ≤ vec_len places) × (vec_len places ≤ 64) × All (K.is_of run.now.market.now) places.items }
    ensures first { IfOk result (λ h. IsResting J.kind (marks_of J.kind (J.verdicts run.now.board.now.job.job.value)) run.now.board.now.of run.now.signals.now h.0.worker.number h.0.worker.seat h.0.worker.signal h.0.worker.leaves.items × K.is_of run.now.market.now h.0.place) }
    ensures others { IfOk result (λ h. All (λ w. IsResting J.kind (marks_of J.kind (J.verdicts run.now.board.now.job.job.value)) run.now.board.now.of run.now.signals.now w.worker.number w.worker.seat w.worker.signal w.worker.leaves.items × K.is_of run.now.market.now w.place) h.1.items) }
    ensures root { (root.new.of ≡ root.old.of) × (root.new.owns ≡ root.old.owns) × (root.new.holds ≡ root.old.holds) }
{
    let (alloc, signals, board) = (run.alloc, run.signals, run.board);
    let place = places.remove(0);
    let first = hire(alloc, signals, board, root, signal, place, 0)?;
    let others = hire_all(alloc, signals, board, root, signal, run.market, places)?;
    Ok((first, others))
}

// The workers of a run, one for each of the places, work until the root is done: what it gives, and the lists of leaves.
fn work_all<J: Job + Sync, G: Gate + Sync, K: Market + Sync, R: Threads + Wait + Sync>(
    rt: &R,
    run: &Run<'_, '_, '_, J, G, K>,
    mut root: BoardSeat<Tracked<J>>,
    mut signal: SignalSeat,
    places: Vec<K::Seat>,
) -> Result<(Bundle<J::Part>, Vec<Vec<Leaf>>), Memory>
where
    J::Split: Send,
    J::Part: Send,
    J::Pred: Send + Sync,
    K::Seat: Send,
    <J::Split as Splitter>::Item: Send,
    requires world { IsWorld J.kind (J.source run.now.job.now) (J.verdicts run.now.job.now) (J.Pred.verdict run.now.inner.now) run.now.signals.now.marks }
    requires tracked { run.now.board.now.job.job.value ≡ run.now.job.now }
    requires least { 1 ≤ run.now.least }
    requires root { (root.of ≡ run.now.board.now.of) × HasOpen 1 0 (length (J.source run.now.job.now)) root }
    requires signal { signal.of ≡ run.now.signals.now }
    requires places { (1 ≤ vec_len places) × (vec_len places ≤ 64) × All (K.is_of run.now.market.now) places.items }
    ensures bundle { IfOk result (λ r. IsBundle J.kind (marks_of J.kind (J.verdicts run.now.job.now)) (J.good run.now.job.now) (J.merges run.now.job.now) J.Part.shown 0 (length (J.source run.now.job.now)) r.0) }
    ensures lists { IfOk result (λ r. All (λ l. IsList J.kind (marks_of J.kind (J.verdicts run.now.job.now)) l.items) r.1.items) }
{
    let (mut first, others) = hire_crew(run, &mut root, &mut signal, places)?;
    let _ = run
        .market
        .post(rt, &mut first.place, whole(run.board.count()));
    let (first, others) = help_all(rt, run.alloc, run, first, others);
    let bundle = run.wait_for(rt, &mut root, 1);
    Ok((bundle, lists_of(run.alloc, run.job, first, others)?))
}

/// Runs the job by workers that meet at this market, one for each of its places, 1 to 64: what the root gives, and the
/// leaves of each worker by turn, by its number.
pub(crate) fn run_on<
    J: Job + Sync,
    M: Marks,
    G: Gate + Sync,
    K: Market + Sync,
    R: Threads + Wait + Sync,
>(
    rt: &R,
    work: &Work<'_, J, G>,
    marks: &M,
    source: J::Split,
    market: &K,
    places: Vec<K::Seat>,
) -> Result<(Bundle<J::Part>, Vec<Vec<Leaf>>), Memory>
where
    J::Split: Send,
    J::Part: Send,
    J::Pred: Send + Sync,
    K::Seat: Send,
    <J::Split as Splitter>::Item: Send,
    requires source { (J.Split.lo source ≡ 0) × (J.Split.items source ≡ J.source work.now.job.now) }
    requires small { length (J.source work.now.job.now) ≤ 4194304 }
    requires test { map (J.Pred.verdict work.now.inner.now) (J.source work.now.job.now) ≡ J.verdicts work.now.job.now }
    requires marks { M.marks marks.now ≡ marks_of J.kind (J.verdicts work.now.job.now) }
    requires least { 1 ≤ work.now.least }
    requires places { (1 ≤ vec_len places) × (vec_len places ≤ 64) × All (K.is_of market.now) places.items }
    ensures bundle { IfOk result (λ r. IsBundle J.kind (marks_of J.kind (J.verdicts work.now.job.now)) (J.good work.now.job.now) (J.merges work.now.job.now) J.Part.shown 0 (length (J.source work.now.job.now)) r.0) }
    ensures lists { IfOk result (λ r. All (λ l. IsList J.kind (marks_of J.kind (J.verdicts work.now.job.now)) l.items) r.1.items) }
{
    let n = source.remaining();
    let (signals, signal) = Signals::open(work.alloc, marks, n)?;
    let tracked = Tracked {
        job: Snapshot::of(work.job),
    };
    let (board, mut root) = Board::open(work.alloc, &tracked, n)?;
    board.offer(&mut root, 1, source);
    let run = RunOf::over(work, &signals, &board, market);
    work_all(rt, &run, root, signal, places)
}

/// Runs the job on so many workers, 1 to 64, over deques: what the root gives, and the leaves of each worker by turn, by its
/// number.
pub(crate) fn run_all<J: Job + Sync, M: Marks, G: Gate + Sync, R: Threads + Wait + Sync>(
    rt: &R,
    work: &Work<'_, J, G>,
    marks: &M,
    source: J::Split,
    workers: u32,
) -> Result<(Bundle<J::Part>, Vec<Vec<Leaf>>), Memory>
where
    J::Split: Send,
    J::Part: Send,
    J::Pred: Send + Sync,
    <J::Split as Splitter>::Item: Send,
    requires source { (J.Split.lo source ≡ 0) × (J.Split.items source ≡ J.source work.now.job.now) }
    requires small { length (J.source work.now.job.now) ≤ 4194304 }
    requires test { map (J.Pred.verdict work.now.inner.now) (J.source work.now.job.now) ≡ J.verdicts work.now.job.now }
    requires marks { M.marks marks.now ≡ marks_of J.kind (J.verdicts work.now.job.now) }
    requires workers { (1 ≤ workers) × (workers ≤ 64) }
    requires least { 1 ≤ work.now.least }
    ensures bundle { IfOk result (λ r. IsBundle J.kind (marks_of J.kind (J.verdicts work.now.job.now)) (J.good work.now.job.now) (J.merges work.now.job.now) J.Part.shown 0 (length (J.source work.now.job.now)) r.0) }
    ensures lists { IfOk result (λ r. All (λ l. IsList J.kind (marks_of J.kind (J.verdicts work.now.job.now)) l.items) r.1.items) }
{
    let (market, places) = DequeMarket::open(work.alloc, workers)?;
    run_on(rt, work, marks, source, &market, places)
}

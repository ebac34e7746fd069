ghost use Rattle.std.specs.Prelude.{◌≡◌, ◌<◌, ◌≤◌, length, All, vec_len};

use super::*;
use crate::bundle::Bundle;
use crate::check::is_tiling;
use crate::run::crew;
use crate::runs::run_on;
use crate::shared::WorkOf;
use par_edge::{Gate, OpenGate};
use par_laws::{Memory, Never, Probe};
use par_market::{DequeMarket, LockedMarket, Market};
use par_signal::{Marks, SignalSeat, Signals};
use par_splitter::{RangeSplitter, Splitter, range_count};
use par_task::{Audit, Done, Job, Leaf, run_alone, threshold};
use std::alloc::Global;
use std::sync::Wait;
use std::sync::atomic::{AtomicU64, Ordering};
use std::test::Fail;
use std::thread;
use std::thread::Threads;

/// How often the gate looks for another seat before it gives up.
const TURNS: u32 = 1_000_000_000;

/// One place a node, by its number.
const NODES: usize = 2048;

/// Lists the numbers from 0 on in their order, and tests none.
#[derive(Drop)]
struct Listing {
    source: RangeSplitter,
    ghost begins: { ⟦<RangeSplitter as Splitter>⟧.lo source ≡ 0 },
    ghost small: { length (⟦<RangeSplitter as Splitter>⟧.items source) ≤ 4194304 },
}

// So many numbers.
fn numbers(n: u32) -> Option<Listing> {
    let end = i64::from(n);
    if range_count(0, end, 1) > 4_194_304 {
        return None;
    }
    let source = RangeSplitter::new(0, end, 1);
    if source.remaining() != n || n > 4_194_304 {
        return None;
    }
    Some(Listing { source })
}

// The numbers of a part, in order.
fn listed(alloc: Global, mut part: RangeSplitter) -> Result<Vec<i64>, Memory> {
    let mut items = Vec::new(alloc);
    for _ in 0..part.remaining() {
        if let Some(item) = part.next() {
            items.push(item)?;
        }
    }
    Ok(items)
}

impl Job for Listing {
    ghost use Rattle.std.specs.Prelude.{map, ◌++◌};
    ghost use Rattle.par_laws.specs.declared.test.Verdict.TheVariants.{Fail};
    ghost use Rattle.par_task.specs.Marking.{no_test};
    ghost use Rattle.std.proofs.Common.{sym, ◌∙◌};

    type Split = RangeSplitter;

    type Pred = Never;

    type Part = Vec<i64>;

    ghost kind = { no_test };

    ghost source = { λ j. ⟦<RangeSplitter as Splitter>⟧.items j.source };

    ghost verdicts = { λ j. map (λ _. Fail) (⟦<RangeSplitter as Splitter>⟧.items j.source) };

    ghost good = { λ _ _ _ _. Unit {0} };

    ghost merges = { λ _ a b c. c ≡ a ++ b };

    fn leaf(
        &self,
        alloc: Global,
        input: RangeSplitter,
        _probe: &mut Probe<'_, Never>,
        _signals: &Signals,
        _seat: &mut SignalSeat,
    ) -> Result<Done<Vec<i64>>, Memory> {
        Ok(Done {
            part: listed(alloc, input)?,
            flag: self.source.remaining(),
        })
    }

    fn merge(&self, left: Vec<i64>, right: Vec<i64>) -> Result<Vec<i64>, Memory> {
        let mut all = left;
        let mut more = right;
        all.append(&mut more)?;
        Ok(all)
    }

    ghost joins = { λ _ _ _ _ _ _ _ _ _ _ _ _ _. tt };

    ghost one_merge = { λ _ a b c d p q. p ∙ sym q };
}

impl Marks for Listing {
    ghost use Rattle.std.specs.Prelude.{map};
    ghost use Rattle.par_laws.specs.declared.test.Verdict.TheVariants.{Fail};
    ghost use Rattle.par_task.specs.Marking.{no_test, marks_of};

    ghost marks = { λ j. marks_of no_test (map (λ _. Fail) (⟦<RangeSplitter as Splitter>⟧.items j.source)) };
}

/// What a run answered.
#[derive(Drop)]
struct Ran {
    part: Vec<i64>,
    audit: Audit,
}

// What one worker answers.
fn ran_alone(alloc: Global, job: &Listing, level: u32) -> Result<Ran, Memory>
    requires { (1 ≤ level) × (level ≤ 64) }
{
    let source = job.source.dup();
    let (part, audit) = run_alone(alloc, job, &Never, job, source, level, &OpenGate)?;
    Ok(Ran { part, audit })
}

// What the workers of a market answer, where their leaves tile the numbers and are those of their lists.
fn ran_at<K: Market + Sync, R: Threads + Wait + Sync>(
    rt: &R,
    alloc: Global,
    job: &Listing,
    market: &K,
    places: Vec<K::Seat>,
    least: u32,
) -> Result<Option<Ran>, Memory>
where
    K::Seat: Send,
    requires places { (1 ≤ vec_len places) × (vec_len places ≤ 64) × All (K.is_of market.now) places.items }
    requires least { 1 ≤ least }
{
    let workers = places.len() as u32;
    let work = WorkOf {
        alloc,
        job,
        inner: &Never,
        gate: &OpenGate,
        least,
    };
    let (bundle, lists) = run_on(rt, &work, job, job.source.dup(), market, places)?;
    let Bundle::Whole(part, leaves) = bundle else {
        return Err(Memory);
    };
    let n = job.source.remaining();
    if is_tiling(alloc, &leaves, &lists, n, least, workers)? {
        let audit = Audit::of(leaves);
        return Ok(Some(Ran { part, audit }));
    }
    Ok(None)
}

// The same over deques.
fn ran_at_deques<R: Threads + Wait + Sync>(
    rt: &R,
    alloc: Global,
    job: &Listing,
    workers: u32,
    least: u32,
) -> Result<Option<Ran>, Memory>
    requires workers { (1 ≤ workers) × (workers ≤ 64) }
    requires least { 1 ≤ least }
{
    let (market, places) = DequeMarket::open(alloc, workers)?;
    ran_at(rt, alloc, job, &market, places, least)
}

// The same over one queue behind a lock.
fn ran_at_lock<R: Threads + Wait + Sync>(
    rt: &R,
    alloc: Global,
    job: &Listing,
    workers: u32,
    least: u32,
) -> Result<Option<Ran>, Memory>
    requires workers { (1 ≤ workers) × (workers ≤ 64) }
    requires least { 1 ≤ least }
{
    let (market, places) = LockedMarket::open(alloc, workers)?;
    ran_at(rt, alloc, job, &market, places, least)
}

// Whether a leaf ends there.
fn ends_at(leaves: &[Leaf], hi: u32) -> bool {
    for leaf in leaves {
        if leaf.hi == hi {
            return true;
        }
    }
    false
}

// Whether a run answered what one worker does: the same part, by leaves of which some end wherever one of its leaves does.
fn agrees(ran: &Option<Ran>, alone: &Ran) -> bool {
    let Some(ran) = ran else {
        return false;
    };
    for leaf in alone.audit.leaves() {
        if !ends_at(ran.audit.leaves(), leaf.hi) {
            return false;
        }
    }
    ran.part == alone.part
}

// Whether as many workers answer what one does, over both markets.
fn workers_agree<R: Threads + Wait + Sync>(
    rt: &R,
    alloc: Global,
    n: u32,
    level: u32,
    workers: u32,
) -> Result<bool, Memory>
    requires level { (1 ≤ level) × (level ≤ 64) }
    requires workers { (1 ≤ workers) × (workers ≤ 64) }
{
    let Some(job) = numbers(n) else {
        return Ok(false);
    };
    let least = threshold(n, level).max(1);
    let alone = ran_alone(alloc, &job, level)?;
    let by_deques = ran_at_deques(rt, alloc, &job, workers, least)?;
    let by_lock = ran_at_lock(rt, alloc, &job, workers, least)?;
    Ok(agrees(&by_deques, &alone) && agrees(&by_lock, &alone))
}

#[test]
fn workers_answer_what_one_does(rt: HostRuntime) -> Result<(), Fail> {
    for n in [0, 1, 2, 3, 100, 1_000] {
        for _ in 0..10 {
            assert!(rt;
                workers_agree(&rt, rt.alloc(), n, 8, 2)?,
                "2 workers at {n}"
            );
            assert!(rt;
                workers_agree(&rt, rt.alloc(), n, 8, 4)?,
                "4 workers at {n}"
            );
        }
    }
    Ok(())
}

/// Holds the first leaf that is begun until another seat has begun one, and notes each call by its node.
#[derive(Drop)]
struct Noting {
    // The seat that began first and 1, or 0.
    first: AtomicU64,
    // 1 where another seat has begun a leaf.
    another: AtomicU64,
    // How often it was called for each node, and the last call.
    calls: Vec<AtomicU64>,
    told: Vec<AtomicU64>,
}

// A number for the span and the seat of a leaf.
fn code(seat: u32, lo: u32, hi: u32) -> u64 {
    (u64::from(seat) << 52) ^ (u64::from(lo) << 26) ^ u64::from(hi)
}

// A word a node.
fn words(alloc: Global) -> Result<Vec<AtomicU64>, Memory> {
    let mut words = Vec::with_capacity(alloc, NODES)?;
    for _ in 0..NODES {
        words.push(AtomicU64::new(0))?;
    }
    Ok(words)
}

impl Noting {
    fn new(alloc: Global) -> Result<Noting, Memory> {
        Ok(Noting {
            first: AtomicU64::new(0),
            another: AtomicU64::new(0),
            calls: words(alloc)?,
            told: words(alloc)?,
        })
    }

    // Whether another seat than the first came.
    fn is_shared(&self) -> bool {
        self.another.load(Ordering::SeqCst) != 0
    }

    // Waits for another seat, so many turns at most.
    fn hold(&self) {
        for turn in 0..TURNS {
            if self.is_shared() {
                return;
            }
            if turn % 256 == 0 {
                thread::yield_now();
            }
        }
    }

    // How often it was called.
    fn count(&self) -> u64 {
        let mut count: u64 = 0;
        for calls in &self.calls {
            count = count.wrapping_add(calls.load(Ordering::SeqCst));
        }
        count
    }

    // Whether it was called once for the leaf's node, with its span and seat.
    fn has(&self, leaf: &Leaf) -> bool {
        let node = leaf.node as usize;
        let (Some(calls), Some(told)) = (self.calls.get(node), self.told.get(node)) else {
            return false;
        };
        calls.load(Ordering::SeqCst) == 1
            && told.load(Ordering::SeqCst) == code(leaf.seat, leaf.lo, leaf.hi)
    }

    // Whether it was called for these leaves, and for no others.
    fn has_just(&self, leaves: &[Leaf]) -> bool {
        for leaf in leaves {
            if !self.has(leaf) {
                return false;
            }
        }
        self.count() == leaves.len() as u64
    }
}

impl Gate for Noting {
    fn begin(&self, seat: u32, node: u32, lo: u32, hi: u32) {
        if let Some(calls) = self.calls.get(node as usize) {
            calls.fetch_add(1, Ordering::SeqCst);
        }
        if let Some(told) = self.told.get(node as usize) {
            told.store(code(seat, lo, hi), Ordering::SeqCst);
        }
        let own = u64::from(seat) + 1;
        match self
            .first
            .compare_exchange(0, own, Ordering::SeqCst, Ordering::SeqCst)
        {
            Ok(_) => self.hold(),
            Err(first) if first != own => self.another.store(1, Ordering::SeqCst),
            Err(_) => {}
        }
    }
}

// What a pool answers.
fn ran_by<G: Gate + Sync, R: Threads + Wait + Sync>(
    rt: &R,
    alloc: Global,
    job: &Listing,
    plan: &Plan<'_, G>,
) -> Result<Ran, Memory>
    requires level { (1 ≤ plan.now.level) × (plan.now.level ≤ 64) }
    requires workers { (1 ≤ plan.now.workers) × (plan.now.workers ≤ 64) }
{
    let (part, audit) = run_job(rt, alloc, job, &Never, job, job.source.dup(), plan)?;
    Ok(Ran { part, audit })
}

// How many seats ran leaves, up to 2.
fn seats_of(leaves: &[Leaf]) -> u32 {
    for leaf in leaves {
        if leaf.seat != leaves[0].seat {
            return 2;
        }
    }
    u32::from(!leaves.is_empty())
}

#[test]
fn the_audit_has_the_leaves_that_were_run(rt: HostRuntime) -> Result<(), Fail> {
    let Some(job) = numbers(1_000) else {
        panic!(rt; "1,000 numbers")
    };
    let gate = Noting::new(rt.alloc())?;
    let plan = Plan {
        workers: 4,
        level: 8,
        gate: &gate,
    };
    let ran = ran_by(&rt, rt.alloc(), &job, &plan)?;
    if !gate.is_shared() {
        // No other seat came, as where a thread gets no memory.
        return Err(Memory.into());
    }
    assert!(rt; gate.has_just(ran.audit.leaves()));
    assert_eq!(rt; seats_of(ran.audit.leaves()), 2);
    assert_eq!(rt; ran.part, listed(rt.alloc(), job.source.dup())?);
    Ok(())
}

// Where the first leaf begins that another seat ran than the one that ran the first items, in a run by two workers of whom
// one waits for the other.
fn first_stolen<R: Threads + Wait + Sync>(
    rt: &R,
    alloc: Global,
    n: u32,
) -> Result<Option<u32>, Memory> {
    let Some(job) = numbers(n) else {
        return Ok(None);
    };
    let gate = Noting::new(alloc)?;
    let plan = Plan {
        workers: 2,
        level: 8,
        gate: &gate,
    };
    let ran = ran_by(rt, alloc, &job, &plan)?;
    let leaves = ran.audit.leaves();
    for leaf in leaves {
        if leaf.seat != leaves[0].seat && leaf.turn == 0 {
            return Ok(Some(leaf.lo));
        }
    }
    Ok(None)
}

#[test]
fn a_thief_takes_the_half_that_is_farthest(rt: HostRuntime) -> Result<(), Fail> {
    assert_eq!(rt; first_stolen(&rt, rt.alloc(), 1_000)?, Some(500));
    assert_eq!(rt; first_stolen(&rt, rt.alloc(), 4_096)?, Some(2_048));
    Ok(())
}

// Whether 64 workers at level 64 answer what one does, leaf by leaf.
fn most_workers_agree<R: Threads + Wait + Sync>(
    rt: &R,
    alloc: Global,
    n: u32,
) -> Result<bool, Memory> {
    let Some(job) = numbers(n) else {
        return Ok(false);
    };
    let plan = Plan {
        workers: 64,
        level: 64,
        gate: &OpenGate,
    };
    let alone = ran_alone(alloc, &job, 64)?;
    let ran = ran_by(rt, alloc, &job, &plan)?;
    Ok(ran.part == alone.part && ran.audit.leaves() == alone.audit.leaves())
}

#[test]
fn most_workers_on_one_item_and_on_none(rt: HostRuntime) -> Result<(), Fail> {
    assert!(rt; most_workers_agree(&rt, rt.alloc(), 0)?);
    assert!(rt; most_workers_agree(&rt, rt.alloc(), 1)?);
    Ok(())
}

#[test]
fn no_more_workers_than_leaves(rt: HostRuntime) {
    assert_eq!(rt; crew(0, 1, 64), 1);
    assert_eq!(rt; crew(7, 7, 64), 1);
    assert_eq!(rt; crew(100, 99, 64), 2);
    assert_eq!(rt; crew(3, 1, 64), 3);
    assert_eq!(rt; crew(100, 2, 64), 64);
    assert_eq!(rt; crew(1_000, 1, 4), 4);
}

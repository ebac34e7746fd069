//! Many jobs on several threads, each beside the same job on one.
//!
//! Sizes, levels, numbers of workers and marks are drawn with a seed that is fixed. Each job must answer what one thread
//! answers, by leaves of which one ends wherever one of that thread's does; a search may name any item that passes. How many
//! jobs there were and how many answered otherwise goes to standard output. How many leaves helpers ran, which hangs on
//! the machine, goes to standard error.
#![tactic(auto)]

ghost use Rattle.std.specs.Prelude.{◌≡◌, ◌<◌, ◌≤◌, length, IfSome};

use par_edge::OpenGate;
use par_jobs::{
    Front, Listing, Nothing, Sifted, Sought, front_alone, front_pooled, search_alone,
    search_pooled, sift_alone, sift_pooled,
};
use par_laws::{Mapper, Memory, Test, Verdict};
use par_pool::Plan;
use par_splitter::ArraySplitter;
use par_task::{Audit, Leaf};
use std::alloc::Global;
use std::io;
use std::marker::PhantomData;
use std::sync::Wait;
use std::thread::Threads;

/// How many items there are; each source is a beginning of them.
const ITEMS: i64 = 16_384;

/// How many times the three jobs are run.
const ROUNDS: u32 = 670;

/// The test that a number is `least` or more.
#[derive(Clone, Copy)]
struct AtLeast {
    least: i64,
}

impl<'a> Test<&'a i64> for AtLeast {
    ghost use Rattle.pool_runs.specs.Passing.{at_least};

    ghost verdict = { λ t x. at_least t.least x };

    fn test(&self, item: &&'a i64) -> Verdict {
        if self.least <= **item {
            Verdict::Pass
        } else {
            Verdict::Fail
        }
    }
}

/// The number that a reference points to.
#[derive(Clone, Copy)]
struct Value;

impl<'a> Mapper<&'a i64, i64> for Value {
    ghost mapped = { λ _ x. x };

    fn map(&self, _alloc: Global, item: &&'a i64) -> Result<i64, Memory> {
        Ok(**item)
    }
}

/// What a job answered: the numbers that it kept, a place, and its leaves.
#[derive(Drop)]
struct Ran {
    kept: Vec<i64>,
    place: u32,
    audit: Audit,
}

/// Those that pass.
fn of_sifted(alloc: Global, sifted: Sifted<Vec<i64>, Nothing>, audit: Audit) -> Ran {
    match sifted {
        Sifted::Got(kept, _) => Ran {
            kept,
            place: 0,
            audit,
        },
        Sifted::Fell(_) => Ran {
            kept: Vec::new(alloc),
            place: 1,
            audit,
        },
    }
}

/// Those before the first that passes, and its place.
fn of_front(front: Front<Vec<i64>>, audit: Audit) -> Ran {
    Ran {
        kept: front.kept,
        place: front.end,
        audit,
    }
}

/// Whether one that passes was found: 0 where none was, 1 where it passes, and 2 where it does not.
fn of_sought(alloc: Global, items: &[i64], least: i64, sought: Sought, audit: Audit) -> Ran {
    let place = match sought {
        Sought::Found(i) => match items.get(i as usize) {
            Some(item) if least <= *item => 1,
            _ => 2,
        },
        Sought::Fell(_) => 2,
        Sought::Nowhere => 0,
    };
    Ran {
        kept: Vec::new(alloc),
        place,
        audit,
    }
}

/// The three jobs by a plan.
fn by_threads<R: Threads + Wait + Sync>(
    rt: &R,
    alloc: Global,
    items: &[i64],
    test: &AtLeast,
    plan: &Plan<'_, OpenGate>,
) -> Result<(Ran, Ran, Ran), Memory>
    requires few { length items.now ≤ 4194304 }
    requires level { (1 ≤ plan.now.level) × (plan.now.level ≤ 64) }
    requires workers { (1 ≤ plan.now.workers) × (plan.now.workers ≤ 64) }
{
    let list = Listing {
        of: &Value,
        out: PhantomData,
    };
    let (sifted, a) = sift_pooled(
        rt,
        alloc,
        ArraySplitter::new(items),
        test,
        &list,
        &Nothing,
        plan,
    )?;
    let (front, b) = front_pooled(rt, alloc, ArraySplitter::new(items), test, &list, plan)?;
    let (sought, c) = search_pooled(rt, alloc, ArraySplitter::new(items), test, plan)?;
    Ok((
        of_sifted(alloc, sifted, a),
        of_front(front, b),
        of_sought(alloc, items, test.least, sought, c),
    ))
}

/// The three jobs on one thread.
fn by_one(
    alloc: Global,
    items: &[i64],
    test: &AtLeast,
    level: u32,
) -> Result<(Ran, Ran, Ran), Memory>
    requires few { length items.now ≤ 4194304 }
    requires level { (1 ≤ level) × (level ≤ 64) }
{
    let list = Listing {
        of: &Value,
        out: PhantomData,
    };
    let gate = &OpenGate;
    let (sifted, a) = sift_alone(
        alloc,
        ArraySplitter::new(items),
        test,
        &list,
        &Nothing,
        level,
        gate,
    )?;
    let (front, b) = front_alone(alloc, ArraySplitter::new(items), test, &list, level, gate)?;
    let (sought, c) = search_alone(alloc, ArraySplitter::new(items), test, level, gate)?;
    Ok((
        of_sifted(alloc, sifted, a),
        of_front(front, b),
        of_sought(alloc, items, test.least, sought, c),
    ))
}

/// Whether a leaf ends there.
fn ends_at(leaves: &[Leaf], hi: u32) -> bool {
    for leaf in leaves {
        if leaf.hi == hi {
            return true;
        }
    }
    false
}

/// Whether some leaf ends wherever one of the others does.
fn is_finer(leaves: &[Leaf], others: &[Leaf]) -> bool {
    for other in others {
        if !ends_at(leaves, other.hi) {
            return false;
        }
    }
    true
}

/// Whether so many workers answered what one did.
fn is_same(ran: &Ran, alone: &Ran, workers: u32) -> bool {
    let (leaves, others) = (ran.audit.leaves(), alone.audit.leaves());
    let told = if workers == 1 {
        leaves == others
    } else {
        is_finer(leaves, others)
    };
    told && ran.place == alone.place && ran.kept == alone.kept
}

/// How many leaves helpers ran.
fn helped(audit: &Audit) -> u64 {
    let mut count: u64 = 0;
    for leaf in audit.leaves() {
        if leaf.seat != 0 {
            count = count.wrapping_add(1);
        }
    }
    count
}

/// What came of all jobs so far.
#[derive(Clone, Copy)]
struct Tally {
    /// How many jobs were run.
    jobs: u64,
    /// How many of them answered otherwise than one thread.
    wrong: u64,
    /// How many leaves helpers ran.
    helped: u64,
}

impl Tally {
    /// With one job more.
    fn with(self, ran: &Ran, alone: &Ran, workers: u32) -> Tally {
        Tally {
            jobs: self.jobs.wrapping_add(1),
            wrong: self
                .wrong
                .wrapping_add(u64::from(!is_same(ran, alone, workers))),
            helped: self.helped.wrapping_add(helped(&ran.audit)),
        }
    }
}

/// The plan of so many workers at a level, where these are of a plan.
fn plan(workers: u32, level: u32) -> Option<Plan<'static, OpenGate>>
    ensures { IfSome result (λ p. (1 ≤ p.level) × (p.level ≤ 64) × (1 ≤ p.workers) × (p.workers ≤ 64)) }
{
    if workers == 0 || workers > 64 || level == 0 || level > 64 {
        return None;
    }
    Some(Plan {
        workers,
        level,
        gate: &OpenGate,
    })
}

/// Runs the three jobs by a plan and on one thread.
fn run_all<R: Threads + Wait + Sync>(
    rt: &R,
    alloc: Global,
    items: &[i64],
    test: &AtLeast,
    plan: &Plan<'_, OpenGate>,
    tally: Tally,
) -> Result<Tally, Memory>
    requires few { length items.now ≤ 4194304 }
    requires level { (1 ≤ plan.now.level) × (plan.now.level ≤ 64) }
    requires workers { (1 ≤ plan.now.workers) × (plan.now.workers ≤ 64) }
{
    let level = plan.level;
    let workers = plan.workers;
    let (a, b, c) = by_threads(rt, alloc, items, test, plan)?;
    let (x, y, z) = by_one(alloc, items, test, level)?;
    let tally = tally.with(&a, &x, workers);
    let tally = tally.with(&b, &y, workers);
    Ok(tally.with(&c, &z, workers))
}

/// Numbers that look as if they were drawn.
#[derive(Drop)]
struct Draws {
    state: u64,
}

impl Draws {
    /// The next number, below the limit.
    fn below(&mut self, limit: u32) -> u32
        requires { 1 ≤ limit }
        ensures { result < limit }
    {
        self.state = self
            .state
            .wrapping_mul(6_364_136_223_846_793_005)
            .wrapping_add(1_442_695_040_888_963_407);
        ((self.state >> 33) % u64::from(limit)) as u32
    }

    /// A number below 2^`scale` for some scale up to `most`, so that small numbers are not rare.
    fn scaled(&mut self, most: u32) -> u32
        requires { most ≤ 20 }
    {
        let scale = self.below(most + 1);
        self.below(1 << scale)
    }
}

fn main(rt: HostRuntime) -> io::Result<()> {
    let mut items = Vec::with_capacity(rt.alloc(), ITEMS as usize)?;
    for i in 0..ITEMS {
        items.push(i % 1_000)?;
    }
    let mut draws = Draws { state: 2_026 };
    let mut tally = Tally {
        jobs: 0,
        wrong: 0,
        helped: 0,
    };
    for round in 0..ROUNDS {
        let size = draws.scaled(14) as usize;
        let test = AtLeast {
            least: i64::from(draws.scaled(10)),
        };
        let workers = if round % 32 == 0 {
            64
        } else {
            draws.scaled(4).wrapping_add(1)
        };
        let Some(plan) = plan(workers, 1 + draws.below(64)) else {
            continue;
        };
        if size <= items.len() && size <= 16_384 {
            tally = run_all(&rt, rt.alloc(), &items[..size], &test, &plan, tally).unwrap_or(tally);
        }
    }
    println!(rt;
        "{} jobs, {} with another answer than one thread's",
        tally.jobs, tally.wrong
    )?;
    println!(rt; "helpers ran leaves: {}", tally.helped > 0)?;
    eprintln!(rt; "helpers ran {} leaves", tally.helped)
}

//! Calls of the library over 4,194,304 numbers, by 1 to 4 workers, in one run.
//!
//! What each call gave goes to standard output. The best times go to standard error, and how many times as fast as by one
//! worker each was.
#![tactic(auto)]

ghost use Rattle.std.specs.Prelude.{◌≡◌, ◌≤◌, length};
ghost use Rattle.par_laws.specs.Wrapping.{wrapped_product};
ghost use Rattle.bench_pool.specs.Passing.{stirred, stirred_more};

use par_access::{count, index_where, last_index_where, sum};
use par_combiner::ArrayCombiner;
use par_edge::OpenGate;
use par_laws::{Mapper, Memory, Test, Tried, Verdict};
use par_pool::Plan;
use par_splitter::{ArraySplitter, Splitter};
use par_transform::{filter, map};
use std::alloc::Global;
use std::io;
use std::sync::Wait;
use std::thread::Threads;
use std::time::{Clock, Duration, Instant};

const ITEMS: usize = 4_194_304;

const ROUNDS: u32 = 7;

const MOST_WORKERS: u32 = 4;

/// The test that a number is `least` or more.
#[derive(Clone, Copy, Debug)]
struct AtLeast {
    least: i64,
}

impl<'a> Test<&'a i64> for AtLeast {
    ghost use Rattle.bench_pool.specs.Passing.{at_least};

    ghost verdict = { λ t x. at_least t.least x };

    fn test(&self, item: &&'a i64) -> Verdict {
        if self.least <= **item {
            Verdict::Pass
        } else {
            Verdict::Fail
        }
    }
}

/// A number as it is.
#[derive(Clone, Copy, Debug)]
struct Itself;

impl<'a> Mapper<&'a i64, i64> for Itself {
    ghost mapped = { λ _ x. x };

    fn map(&self, _alloc: Global, item: &&'a i64) -> Result<i64, Memory> {
        Ok(**item)
    }
}

fn times(a: i64, b: i64) -> i64
    ensures { result ≡ wrapped_product a b }
{
    a.wrapping_mul(b)
}

fn stirred(x: i64) -> i64
    ensures { result ≡ stirred x }
{
    times(times(x, x), x)
}

fn stirred_more(x: i64) -> i64
    ensures { result ≡ stirred_more x }
{
    stirred(stirred(stirred(stirred(x))))
}

/// A number that takes some 25 ns to make.
#[derive(Clone, Copy, Debug)]
struct Churned;

impl<'a> Mapper<&'a i64, i64> for Churned {
    ghost use Rattle.bench_pool.specs.Passing.{churned};

    ghost mapped = { λ _ x. churned x };

    fn map(&self, _alloc: Global, item: &&'a i64) -> Result<i64, Memory> {
        let half = stirred_more(stirred_more(stirred_more(stirred_more(**item))));
        Ok(stirred_more(stirred_more(stirred_more(stirred_more(half)))))
    }
}

/// What is asked of the numbers.
#[derive(Clone, Copy, Debug)]
enum Question {
    SumOfChurned,
    Sum,
    Count,
    Filter,
    Map,
    FirstOf(i64),
    LastOf(i64),
}

fn got(tried: Tried<i64>) -> i64 {
    match tried {
        Tried::Got(answer) => answer,
        Tried::Fault(_) => -2,
    }
}

/// How many numbers were kept.
fn size(kept: Tried<Vec<i64>>) -> i64 {
    match kept {
        Tried::Got(kept) => kept.len() as i64,
        Tried::Fault(_) => -2,
    }
}

/// The answer, by the library's call.
fn answer<R: Threads + Wait + Sync>(
    rt: &R,
    alloc: Global,
    question: Question,
    items: &[i64],
    workers: u32,
) -> Result<i64, Memory>
    requires few { length items.now ≤ 4194304 }
    requires workers { (1 ≤ workers) × (workers ≤ 64) }
{
    let source = ArraySplitter::new(items);
    let plan = Plan {
        workers,
        level: 8,
        gate: &OpenGate,
    };
    match question {
        Question::SumOfChurned => Ok(sum(rt, alloc, source, &Churned, &plan)?.0),
        Question::Sum => Ok(sum(rt, alloc, source, &Itself, &plan)?.0),
        Question::Count => {
            let test = AtLeast { least: 0 };
            match count(rt, alloc, source, &test, &plan)?.0 {
                Tried::Got(count) => Ok(i64::from(count)),
                Tried::Fault(_) => Ok(-2),
            }
        }
        Question::Filter => {
            let test = AtLeast { least: 0 };
            let (kept, _) = filter::<_, ArrayCombiner<i64>, _, _, _, _>(
                rt, alloc, source, &test, &Itself, &plan,
            )?;
            Ok(size(kept))
        }
        Question::Map => {
            let (made, _) = map::<_, ArrayCombiner<i64>, _, _, _>(
                rt, alloc, source, &Itself, &plan,
            )?;
            Ok(made.len() as i64)
        }
        Question::FirstOf(least) => {
            Ok(got(index_where(rt, alloc, source, &AtLeast { least }, &plan)?.0))
        }
        Question::LastOf(least) => {
            Ok(got(last_index_where(rt, alloc, source, &AtLeast { least }, &plan)?.0))
        }
    }
}

/// Numbers of all sizes but the greatest, in no order.
fn numbers(alloc: Global) -> Result<Vec<i64>, Memory> {
    let mut items = Vec::with_capacity(alloc, ITEMS)?;
    let mut value: i64 = 1;
    for _ in 0..ITEMS {
        items.push(value.min(i64::MAX - 1))?;
        value = value
            .wrapping_mul(6_364_136_223_846_793_005)
            .wrapping_add(1);
    }
    Ok(items)
}

/// How many hundredths of one time make the other.
fn hundredths(time: Duration, of: Duration) -> u128 {
    let whole = of.as_micros();
    if whole == 0 {
        return 0;
    }
    time.as_micros().wrapping_mul(100) / whole
}

/// What a call gave by so many workers, and its best time.
#[derive(Clone, Copy, Debug)]
struct Asked {
    workers: u32,
    found: i64,
    best: Duration,
}

/// Asks a question many times.
fn ask<R: Threads + Wait + Sync + Clock>(
    rt: &R,
    alloc: Global,
    question: Question,
    items: &[i64],
    workers: u32,
) -> io::Result<Asked>
    requires few { length items.now ≤ 4194304 }
    requires workers { (1 ≤ workers) × (workers ≤ 64) }
{
    let mut best = Duration::MAX;
    let mut found = 0;
    for _ in 0..ROUNDS {
        let start = Instant::now(rt)?;
        found = answer(rt, alloc, question, items, workers).unwrap_or(-3);
        best = best.min(start.elapsed(rt)?);
    }
    Ok(Asked {
        workers,
        found,
        best,
    })
}

/// Tells what a call gave, and how long it took beside one worker.
fn tell(rt: &HostRuntime, name: &str, asked: Asked, alone: Asked) -> io::Result<()> {
    println!(rt; "{name} by {}: {}", asked.workers, asked.found)?;
    eprintln!(rt;
        "{name} by {}: {} us, {} hundredths as fast",
        asked.workers,
        asked.best.as_micros(),
        hundredths(alone.best, asked.best)
    )
}

fn main(rt: HostRuntime) -> io::Result<()> {
    let Ok(items) = numbers(rt.alloc()) else {
        return Err(io::Error::from(io::ErrorKind::OutOfMemory));
    };
    if items.len() != ITEMS {
        return Ok(());
    }
    let questions = [
        ("sum of churned numbers", Question::SumOfChurned),
        ("sum", Question::Sum),
        ("count", Question::Count),
        ("filter", Question::Filter),
        ("map", Question::Map),
        ("search of all", Question::FirstOf(i64::MAX)),
        ("search that ends early", Question::FirstOf(i64::MAX / 8)),
        ("last of all", Question::LastOf(i64::MIN)),
    ];
    for (name, question) in questions {
        let alone = ask(&rt, rt.alloc(), question, items.as_slice(), 1)?;
        tell(&rt, name, alone, alone)?;
        for workers in 2..=MOST_WORKERS {
            let asked = ask(&rt, rt.alloc(), question, items.as_slice(), workers)?;
            tell(&rt, name, asked, alone)?;
        }
    }
    Ok(())
}

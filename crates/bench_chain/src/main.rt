//! Chains of calls over 4,194,304 numbers on one thread, beside the same chains over plain vectors.
//!
//! One chain filters and then sums what is left; the other maps into an array. What each gave goes to standard output. The
//! best times, and the calls' in percent of the plain loops', go to standard error.
#![tactic(auto)]

ghost use Rattle.std.specs.Prelude.{◌≡◌, ◌≤◌, length};

use par_access::sum_alone;
use par_combiner::ArrayCombiner;
use par_edge::OpenGate;
use par_laws::{Mapper, Memory, Test, Tried, Verdict};
use par_splitter::{ArraySplitter, Precise, Splitter};
use par_transform::{filter_alone, map_alone};
use std::alloc::Global;
use std::io;
use std::time::{Duration, Instant};

const ITEMS: usize = 4_194_304;

const ROUNDS: usize = 9;

/// The test that a number is `least` or more.
#[derive(Drop)]
struct AtLeast {
    least: i64,
}

impl<'a> Test<&'a i64> for AtLeast {
    ghost use Rattle.bench_chain.specs.Passing.{at_least};

    ghost verdict = { λ t x. at_least t.least x };

    fn test(&self, item: &&'a i64) -> Verdict {
        if self.least <= **item {
            Verdict::Pass
        } else {
            Verdict::Fail
        }
    }
}

/// A number as it is.
#[derive(Drop)]
struct Itself;

impl<'a> Mapper<&'a i64, i64> for Itself {
    ghost mapped = { λ _ x. x };

    fn map(&self, _alloc: Global, item: &&'a i64) -> Result<i64, Memory> {
        Ok(**item)
    }
}

/// The numbers that pass, in an array.
fn filtered<S: Precise, P: Test<S::Item>, F: Mapper<S::Item, i64>>(
    alloc: Global,
    source: S,
    test: &P,
    of: &F,
) -> Result<Vec<i64>, Memory>
    requires place { S.lo source ≡ 0 }
    requires few { length (S.items source) ≤ 4194304 }
{
    let (kept, _) = filter_alone::<S, ArrayCombiner<i64>, OpenGate, P, F>(
        alloc, source, test, of, 1, &OpenGate,
    )?;
    match kept {
        Tried::Got(kept) => Ok(kept),
        Tried::Fault(_) => Ok(Vec::new(alloc)),
    }
}

/// The sum of the numbers.
fn summed<S: Splitter, F: Mapper<S::Item, i64>>(
    alloc: Global,
    source: S,
    of: &F,
) -> Result<i64, Memory>
    requires place { S.lo source ≡ 0 }
    requires few { length (S.items source) ≤ 4194304 }
{
    let (sum, _) = sum_alone(alloc, source, of, 1, &OpenGate)?;
    Ok(sum)
}

/// What `of` makes of the numbers, in an array.
fn mapped<S: Precise, F: Mapper<S::Item, i64>>(
    alloc: Global,
    source: S,
    of: &F,
) -> Result<Vec<i64>, Memory>
    requires place { S.lo source ≡ 0 }
    requires few { length (S.items source) ≤ 4194304 }
{
    let (made, _) = map_alone::<S, ArrayCombiner<i64>, OpenGate, F>(
        alloc, source, of, 1, &OpenGate,
    )?;
    Ok(made)
}

/// The sum of the numbers that are `least` or more, by the calls of the library.
fn sum_by_calls(alloc: Global, items: &[i64], least: i64) -> Result<i64, Memory>
    requires { length items.now ≤ 4194304 }
{
    let kept = filtered(
        alloc,
        ArraySplitter::new(items),
        &AtLeast { least },
        &Itself,
    )?;
    if kept.len() > ITEMS {
        return Ok(0);
    }
    summed(alloc, ArraySplitter::new(kept.as_slice()), &Itself)
}

/// The same sum over plain vectors.
fn sum_by_vectors(alloc: Global, items: &[i64], least: i64) -> Result<i64, Memory> {
    let mut kept = Vec::new(alloc);
    for item in items {
        if least <= *item {
            kept.push(*item)?;
        }
    }
    let mut sum: i64 = 0;
    for item in kept.as_slice() {
        sum = sum.wrapping_add(*item);
    }
    Ok(sum)
}

/// How many numbers a copy has that is made item by item into a plain vector.
fn copied(alloc: Global, items: &[i64]) -> Result<usize, Memory> {
    let mut made = Vec::new(alloc);
    for item in items {
        made.push(*item)?;
    }
    Ok(made.len())
}

/// Numbers of all sizes.
fn numbers(alloc: Global) -> Result<Vec<i64>, Memory> {
    let mut items = Vec::with_capacity(alloc, ITEMS)?;
    let mut value: i64 = 1;
    for _ in 0..ITEMS {
        items.push(value)?;
        value = value
            .wrapping_mul(6_364_136_223_846_793_005)
            .wrapping_add(1);
    }
    Ok(items)
}

/// What a time is in percent of another.
fn percent(time: Duration, of: Duration) -> u128 {
    let whole = of.as_micros();
    if whole == 0 {
        return 0;
    }
    time.as_micros().wrapping_mul(100) / whole
}

/// The times of the calls and of the plain loops.
#[derive(Drop)]
struct Times {
    calls: Duration,
    plain: Duration,
}

impl Times {
    fn none() -> Times {
        Times {
            calls: Duration::MAX,
            plain: Duration::MAX,
        }
    }

    fn tell(&self, rt: &HostRuntime, name: &str) -> io::Result<()> {
        eprintln!(rt;
            "{name}: calls {} us, plain {} us, {} percent",
            self.calls.as_micros(),
            self.plain.as_micros(),
            percent(self.calls, self.plain)
        )
    }
}

/// Runs both chains of sums in turn, many times.
fn measure_sums(rt: &HostRuntime, items: &[i64]) -> io::Result<()>
    requires { length items.now ≤ 4194304 }
{
    let mut times = Times::none();
    let mut sums = (0, 0);
    for round in 0..ROUNDS {
        let least = (round % 2) as i64;
        let start = Instant::now(rt)?;
        sums.0 = sum_by_calls(rt.alloc(), items, least).unwrap_or(0);
        times.calls = times.calls.min(start.elapsed(rt)?);
        let start = Instant::now(rt)?;
        sums.1 = sum_by_vectors(rt.alloc(), items, least).unwrap_or(0);
        times.plain = times.plain.min(start.elapsed(rt)?);
    }
    println!(rt; "filter and sum: {} {}", sums.0, sums.1)?;
    times.tell(rt, "filter and sum")
}

/// Runs both maps in turn, many times.
fn measure_maps(rt: &HostRuntime, items: &[i64]) -> io::Result<()>
    requires { length items.now ≤ 4194304 }
{
    let mut times = Times::none();
    let mut lengths = (0, 0);
    for _ in 0..ROUNDS {
        let start = Instant::now(rt)?;
        let made = mapped(rt.alloc(), ArraySplitter::new(items), &Itself);
        lengths.0 = made.map(|made| made.len()).unwrap_or(0);
        times.calls = times.calls.min(start.elapsed(rt)?);
        let start = Instant::now(rt)?;
        lengths.1 = copied(rt.alloc(), items).unwrap_or(0);
        times.plain = times.plain.min(start.elapsed(rt)?);
    }
    println!(rt; "map: {} {}", lengths.0, lengths.1)?;
    times.tell(rt, "map")
}

fn main(rt: HostRuntime) -> io::Result<()> {
    let Ok(items) = numbers(rt.alloc()) else {
        return Err(io::Error::from(io::ErrorKind::OutOfMemory));
    };
    if items.len() > ITEMS {
        return Ok(());
    }
    measure_sums(&rt, items.as_slice())?;
    measure_maps(&rt, items.as_slice())
}

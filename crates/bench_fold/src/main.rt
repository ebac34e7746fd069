//! A fold of 4,194,304 items through a splitter, a test and a monoid, beside the same loop over a plain slice.
//!
//! Both sums go to standard output. The best time of each and their ratio go to standard error.
#![tactic(auto)]

ghost use Rattle.std.specs.Prelude.{◌≡◌, ◌≤◌, length};

use par_laws::{Mapper, Memory, Monoid, Sum, Test, Verdict};
use par_splitter::{ArraySplitter, Splitter};
use std::alloc::Global;
use std::io;
use std::time::{Duration, Instant};

const ITEMS: usize = 4_194_304;

const ROUNDS: usize = 9;

/// The test that a number is `least` or more.
#[derive(Drop)]
struct AtLeast {
    least: i64,
}

impl<'a> Test<&'a i64> for AtLeast {
    ghost use Rattle.bench_fold.specs.Passing.{at_least};

    ghost verdict = { λ t x. at_least t.least x };

    fn test(&self, item: &&'a i64) -> Verdict {
        if self.least <= **item {
            Verdict::Pass
        } else {
            Verdict::Fail
        }
    }
}

/// A number as it is.
#[derive(Drop)]
struct Itself;

impl<'a> Mapper<&'a i64, i64> for Itself {
    ghost mapped = { λ _ x. x };

    fn map(&self, _alloc: Global, item: &&'a i64) -> Result<i64, Memory> {
        Ok(**item)
    }
}

/// The fold of what the items that pass become.
fn fold_passing<S: Splitter, P: Test<S::Item>, M: Monoid, F: Mapper<S::Item, M::T>>(
    alloc: Global,
    mut input: S,
    test: &P,
    how: &M,
    of: &F,
) -> Result<M::T, Memory> {
    let mut folded = how.zero(alloc)?;
    while let Some(item) = input.next() {
        if let Verdict::Pass = test.test(&item) {
            folded = how.op(folded, of.map(alloc, &item)?)?;
        }
    }
    Ok(folded)
}

/// The same sum by a loop over the slice.
fn sum_plain(items: &[i64], least: i64) -> i64 {
    let mut sum: i64 = 0;
    for item in items {
        if least <= *item {
            sum = sum.wrapping_add(*item);
        }
    }
    sum
}

fn main(rt: HostRuntime) -> io::Result<()> {
    let mut items = Vec::with_capacity(rt.alloc(), ITEMS)?;
    let mut value: i64 = 1;
    for _ in 0..ITEMS {
        items.push(value)?;
        value = value
            .wrapping_mul(6_364_136_223_846_793_005)
            .wrapping_add(1);
    }
    let mut best_splitter = Duration::MAX;
    let mut best_plain = Duration::MAX;
    let mut sums = (0, 0);
    for round in 0..ROUNDS {
        let least = (round % 2) as i64;
        let start = Instant::now(&rt)?;
        if items.len() <= ITEMS {
            let input = ArraySplitter::new(items.as_slice());
            match fold_passing(rt.alloc(), input, &AtLeast { least }, &Sum, &Itself) {
                Ok(sum) => sums.0 = sum,
                Err(Memory) => return Err(io::Error::from(io::ErrorKind::OutOfMemory)),
            }
        }
        best_splitter = best_splitter.min(start.elapsed(&rt)?);
        let start = Instant::now(&rt)?;
        sums.1 = sum_plain(items.as_slice(), least);
        best_plain = best_plain.min(start.elapsed(&rt)?);
    }
    println!(rt; "splitter {}\nplain {}", sums.0, sums.1)?;
    eprintln!(rt;
        "splitter {} us, plain {} us",
        best_splitter.as_micros(),
        best_plain.as_micros()
    )
}

//! Calls that cut by index. They run no job and have no audit.
ghost use Rattle.std.specs.Prelude.{◌≡◌, ◌≤◌, length, map, take, drop, min, slice_range, IfOk};
ghost use Rattle.par_lists.specs.Cuts.{place};

use par_combiner::Combiner;
use par_laws::{Mapper, Memory, Shown};
use par_lists::place_of;
use par_splitter::{Precise, Splitter};
use std::alloc::Global;

/// A number of items as a splitter takes it, which has no more items than that.
fn as_count(n: u64) -> u32
    ensures { result ≡ min n 4294967295 }
{
    n.min(u64::from(u32::MAX)) as u32
}

/// What `of` makes of all items, in order.
fn made_of<S: Splitter, C: Combiner, F: Mapper<S::Item, C::Item>>(
    alloc: Global,
    source: S,
    of: &F,
) -> Result<C::Out, Memory>
    requires { length (S.items source) ≤ 4194304 }
    ensures { IfOk result (λ out. C.stands out (map (F.mapped of.now) (S.items source))) }
{
    let mut rest = source;
    let mut made = C::empty(alloc)?;
    while let Some(item) = rest.next() {
        made.add(of.map(alloc, &item)?)?;
    }
    made.result()
}

/// What `of` makes of the first `n` items, or of all where there are fewer. A negative `n` takes nothing. Scala: `take`.
///
/// Linear in what is kept; the one error is want of memory.
pub fn take<S: Precise, C: Combiner, F: Mapper<S::Item, C::Item>>(
    alloc: Global,
    source: S,
    n: i64,
    of: &F,
) -> Result<C::Out, Memory>
    requires { length (S.items source) ≤ 4194304 }
    ensures { IfOk result (λ out. C.stands out (map (F.mapped of.now) (take (place n) (S.items source)))) }
{
    let (front, _) = source.cut_at(as_count(place_of(n)));
    made_of::<S, C, F>(alloc, front, of)
}

/// What `of` makes of the items but the first `n`. A negative `n` drops nothing. Scala: `drop`.
///
/// Linear in what is kept; the one error is want of memory.
pub fn drop<S: Precise, C: Combiner, F: Mapper<S::Item, C::Item>>(
    alloc: Global,
    source: S,
    n: i64,
    of: &F,
) -> Result<C::Out, Memory>
    requires { length (S.items source) ≤ 4194304 }
    ensures { IfOk result (λ out. C.stands out (map (F.mapped of.now) (drop (place n) (S.items source)))) }
{
    let (_, rest) = source.cut_at(as_count(place_of(n)));
    made_of::<S, C, F>(alloc, rest, of)
}

/// What `of` makes of the items from index `a` on and before index `b`. A negative index counts as 0. Scala: `slice`.
///
/// Linear in what is kept; the one error is want of memory.
pub fn slice<S: Precise, C: Combiner, F: Mapper<S::Item, C::Item>>(
    alloc: Global,
    source: S,
    a: i64,
    b: i64,
    of: &F,
) -> Result<C::Out, Memory>
    requires { length (S.items source) ≤ 4194304 }
    ensures { IfOk result (λ out. C.stands out (map (F.mapped of.now) (slice_range (S.items source) (place a) (place b)))) }
{
    let from = place_of(a);
    let count = place_of(b).saturating_sub(from);
    let (_, rest) = source.cut_at(as_count(from));
    let (part, _) = rest.cut_at(as_count(count));
    made_of::<S, C, F>(alloc, part, of)
}

/// What `take` and `drop` make, by the same `n`. Scala: `splitAt`.
///
/// Linear in what is kept; the one error is want of memory.
pub fn split_at<S: Precise, C: Combiner, F: Mapper<S::Item, C::Item>>(
    alloc: Global,
    source: S,
    n: i64,
    of: &F,
) -> Result<(C::Out, C::Out), Memory>
    requires { length (S.items source) ≤ 4194304 }
    ensures first { IfOk result (λ out. C.stands out.0 (map (F.mapped of.now) (take (place n) (S.items source)))) }
    ensures second { IfOk result (λ out. C.stands out.1 (map (F.mapped of.now) (drop (place n) (S.items source)))) }
{
    let (front, rest) = source.cut_at(as_count(place_of(n)));
    let front = made_of::<S, C, F>(alloc, front, of)?;
    Ok((front, made_of::<S, C, F>(alloc, rest, of)?))
}

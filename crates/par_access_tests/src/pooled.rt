//! What no clause says of the calls on several threads: that they end, and answer where there is memory.
ghost use Rattle.std.specs.Prelude.{◌≡◌, ◌≤◌};

use crate::tests::{Alike, There};
use par_access::{
    aggregate, count, exists, find, fold, forall, index_where, last_index_where, max, min, product,
    reduce_option, same_elements, segment_length, sum,
};
use par_edge::OpenGate;
use par_laws::{Least, Not, Sum, Tried};
use par_pool::Plan;
use par_splitter::Splitter;
use std::alloc::Global;
use std::process::Abort;
use std::sync::Wait;
use std::test::Fail;
use std::thread::Threads;
use test_rules::{Rule, Same, from_to, tested};

/// By how many workers each call is run.
const WORKERS: [u32; 4] = [1, 2, 4, 64];

/// Passes 700 and more.
const FROM_700: Rule = Rule {
    least: 700,
    faulty: -1,
};

fn folds_by<R: Threads + Wait + Sync + Abort>(
    rt: &R,
    alloc: Global,
    plan: &Plan<'_, OpenGate>,
) -> Result<(), Fail>
    requires workers { (1 ≤ plan.now.workers) × (plan.now.workers ≤ 64) }
    requires level { (1 ≤ plan.now.level) × (plan.now.level ≤ 64) }
{
    let source = from_to(1, 1000).ok_or("few")?;
    let (found, audit) = sum(rt, alloc, source.dup(), &Same, plan)?;
    assert!(rt; found == 499_500 && audit.leaves().len() > 1);
    let (found, _) = fold(rt, alloc, source.dup(), &Sum, &Same, plan)?;
    assert_eq!(rt; found, 499_500);
    let (found, _) = aggregate(rt, alloc, source.dup(), &Sum, plan)?;
    assert_eq!(rt; found, 499_500);
    let (found, _) = min(rt, alloc, source.dup(), &Same, plan)?;
    assert_eq!(rt; found, Some(1));
    let (found, _) = max(rt, alloc, source.dup(), &Same, plan)?;
    assert_eq!(rt; found, Some(999));
    let (found, _) = reduce_option(rt, alloc, source, &Least, &There, plan)?;
    assert_eq!(rt; found, Some(Some(1)));
    let source = from_to(1, 21).ok_or("few")?;
    let (found, _) = product(rt, alloc, source, &Same, plan)?;
    assert_eq!(rt; found, 2_432_902_008_176_640_000);
    Ok(())
}

#[test]
fn folds_on_threads(rt: HostRuntime) -> Result<(), Fail> {
    for workers in WORKERS {
        let plan = Plan {
            workers,
            level: 4,
            gate: &OpenGate,
        };
        folds_by(&rt, rt.alloc(), &plan)?;
    }
    Ok(())
}

fn searches_by<R: Threads + Wait + Sync + Abort>(
    rt: &R,
    alloc: Global,
    plan: &Plan<'_, OpenGate>,
) -> Result<(), Fail>
    requires workers { (1 ≤ plan.now.workers) × (plan.now.workers ≤ 64) }
    requires level { (1 ≤ plan.now.level) × (plan.now.level ≤ 64) }
{
    let source = from_to(0, 1000).ok_or("few")?;
    let (found, _) = index_where(rt, alloc, source.dup(), &FROM_700, plan)?;
    assert_eq!(rt; found, Tried::Got(700));
    let (found, _) = last_index_where(rt, alloc, source.dup(), &FROM_700, plan)?;
    assert_eq!(rt; found, Tried::Got(999));
    let (found, audit) = count(rt, alloc, source.dup(), &FROM_700, plan)?;
    assert!(rt; found == Tried::Got(300) && tested(&audit) == 1000);
    let (found, _) = find(rt, alloc, source.dup(), &FROM_700, plan)?;
    assert!(rt; matches!(found, Tried::Got(Some(place)) if place >= 700));
    let (found, _) = exists(rt, alloc, source.dup(), &FROM_700, plan)?;
    assert_eq!(rt; found, Tried::Got(true));
    let (found, _) = forall(rt, alloc, source.dup(), &FROM_700, plan)?;
    assert_eq!(rt; found, Tried::Got(false));
    let below = Not { inner: FROM_700 };
    let (found, _) = segment_length(rt, alloc, source.dup(), &below, 600, plan)?;
    assert_eq!(rt; found, Tried::Got(100));
    let (found, _) = same_elements(rt, alloc, source.dup(), source, &Alike, plan)?;
    assert_eq!(rt; found, Tried::Got(true));
    Ok(())
}

#[test]
fn searches_on_threads(rt: HostRuntime) -> Result<(), Fail> {
    for workers in WORKERS {
        let plan = Plan {
            workers,
            level: 4,
            gate: &OpenGate,
        };
        searches_by(&rt, rt.alloc(), &plan)?;
    }
    Ok(())
}

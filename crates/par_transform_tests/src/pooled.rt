//! What no clause says of the calls on several threads: that they end, and answer where there is memory.
ghost use Rattle.std.specs.Prelude.{◌≡◌, ◌≤◌};

use crate::tests::{Ints, Pairs, Square, Twice, are_got, is_got};
use par_edge::OpenGate;
use par_laws::Not;
use par_pool::Plan;
use par_splitter::{RangeSplitter, Splitter};
use par_transform::{
    collect, drop_while, filter, filter_not, flat_map, map, partition, reverse, span, take_while,
    zip, zip_with_index,
};
use std::alloc::Global;
use std::process::Abort;
use std::sync::Wait;
use std::test::Fail;
use std::thread::Threads;
use test_rules::{Rule, Same, stepping, tested};

/// By how many workers each call is run.
const WORKERS: [u32; 4] = [1, 2, 4, 64];

/// The numbers 0 to 6.
const LOW: [i64; 7] = [0, 1, 2, 3, 4, 5, 6];

/// The numbers 7 to 19.
const HIGH: [i64; 13] = [7, 8, 9, 10, 11, 12, 13, 14, 15, 16, 17, 18, 19];

/// Passes 7 and more.
const FROM_SEVEN: Rule = Rule {
    least: 7,
    faulty: -1,
};

fn choices_by<R: Threads + Wait + Sync + Abort>(
    rt: &R,
    alloc: Global,
    plan: &Plan<'_, OpenGate>,
) -> Result<(), Fail>
    requires workers { (1 ≤ plan.now.workers) × (plan.now.workers ≤ 64) }
    requires level { (1 ≤ plan.now.level) × (plan.now.level ≤ 64) }
{
    let source = stepping(0, 20, 1).ok_or("few")?;
    let (kept, audit) = filter::<RangeSplitter, Ints, OpenGate, Rule, Same, R>(
        rt,
        alloc,
        source.dup(),
        &FROM_SEVEN,
        &Same,
        plan,
    )?;
    assert!(rt; is_got(&kept, HIGH.as_slice()) && tested(&audit) == 20);
    let (kept, _) = filter_not::<RangeSplitter, Ints, OpenGate, Rule, Same, R>(
        rt,
        alloc,
        source.dup(),
        &FROM_SEVEN,
        &Same,
        plan,
    )?;
    assert!(rt; is_got(&kept, LOW.as_slice()));
    let (kept, _) = collect::<RangeSplitter, Ints, OpenGate, Rule, Same, R>(
        rt,
        alloc,
        source.dup(),
        &FROM_SEVEN,
        &Same,
        plan,
    )?;
    assert!(rt; is_got(&kept, HIGH.as_slice()));
    let (parts, _) = partition::<RangeSplitter, Ints, OpenGate, Rule, Same, R>(
        rt,
        alloc,
        source,
        &FROM_SEVEN,
        &Same,
        plan,
    )?;
    assert!(rt; are_got(&parts, HIGH.as_slice(), LOW.as_slice()));
    Ok(())
}

fn fronts_by<R: Threads + Wait + Sync + Abort>(
    rt: &R,
    alloc: Global,
    plan: &Plan<'_, OpenGate>,
) -> Result<(), Fail>
    requires workers { (1 ≤ plan.now.workers) × (plan.now.workers ≤ 64) }
    requires level { (1 ≤ plan.now.level) × (plan.now.level ≤ 64) }
{
    let below = Not { inner: FROM_SEVEN };
    let source = stepping(0, 20, 1).ok_or("few")?;
    let (front, _) = take_while::<RangeSplitter, Ints, OpenGate, Not<Rule>, Same, R>(
        rt,
        alloc,
        source.dup(),
        &below,
        &Same,
        plan,
    )?;
    assert!(rt; is_got(&front, LOW.as_slice()));
    let (rest, _) = drop_while::<RangeSplitter, Ints, OpenGate, Not<Rule>, Same, R>(
        rt,
        alloc,
        source.dup(),
        &below,
        &Same,
        plan,
    )?;
    assert!(rt; is_got(&rest, HIGH.as_slice()));
    let (parts, _) = span::<RangeSplitter, Ints, OpenGate, Not<Rule>, Same, R>(
        rt, alloc, source, &below, &Same, plan,
    )?;
    assert!(rt; are_got(&parts, LOW.as_slice(), HIGH.as_slice()));
    Ok(())
}

fn each_by<R: Threads + Wait + Sync + Abort>(
    rt: &R,
    alloc: Global,
    plan: &Plan<'_, OpenGate>,
) -> Result<(), Fail>
    requires workers { (1 ≤ plan.now.workers) × (plan.now.workers ≤ 64) }
    requires level { (1 ≤ plan.now.level) × (plan.now.level ≤ 64) }
{
    let source = stepping(0, 5, 1).ok_or("few")?;
    let (made, _) = map::<RangeSplitter, Ints, OpenGate, Square, R>(
        rt,
        alloc,
        source.dup(),
        &Square,
        plan,
    )?;
    assert_eq!(rt; made.as_slice(), [0i64, 1, 4, 9, 16].as_slice());
    let (made, _) = reverse::<RangeSplitter, Ints, OpenGate, Same, R>(
        rt,
        alloc,
        source.dup(),
        &Same,
        plan,
    )?;
    assert_eq!(rt; made.as_slice(), [4i64, 3, 2, 1, 0].as_slice());
    let (made, _) = flat_map::<RangeSplitter, Ints, OpenGate, Twice, R>(
        rt, alloc, source, &Twice, plan,
    )?;
    assert_eq!(rt;
        made.as_slice(),
        [0i64, 0, 1, 1, 2, 2, 3, 3, 4, 4].as_slice()
    );
    Ok(())
}

fn pairs_by<R: Threads + Wait + Sync + Abort>(
    rt: &R,
    alloc: Global,
    plan: &Plan<'_, OpenGate>,
) -> Result<(), Fail>
    requires workers { (1 ≤ plan.now.workers) × (plan.now.workers ≤ 64) }
    requires level { (1 ≤ plan.now.level) × (plan.now.level ≤ 64) }
{
    let source = stepping(0, 5, 1).ok_or("few")?;
    let other = stepping(10, 13, 1).ok_or("few")?;
    let (made, _) = zip::<RangeSplitter, Pairs, OpenGate, RangeSplitter, Same, R>(
        rt, alloc, source, other, &Same, plan,
    )?;
    assert_eq!(rt;
        made.as_slice(),
        [(0i64, 10i64), (1, 11), (2, 12)].as_slice()
    );
    let source = stepping(7, 10, 1).ok_or("few")?;
    let (made, _) = zip_with_index::<RangeSplitter, Pairs, OpenGate, Same, R>(
        rt, alloc, source, &Same, plan,
    )?;
    assert_eq!(rt; made.as_slice(), [(7i64, 0i64), (8, 1), (9, 2)].as_slice());
    Ok(())
}

#[test]
fn chooses_on_threads(rt: HostRuntime) -> Result<(), Fail> {
    for workers in WORKERS {
        let plan = Plan {
            workers,
            level: 4,
            gate: &OpenGate,
        };
        choices_by(&rt, rt.alloc(), &plan)?;
        fronts_by(&rt, rt.alloc(), &plan)?;
    }
    Ok(())
}

#[test]
fn makes_on_threads(rt: HostRuntime) -> Result<(), Fail> {
    for workers in WORKERS {
        let plan = Plan {
            workers,
            level: 4,
            gate: &OpenGate,
        };
        each_by(&rt, rt.alloc(), &plan)?;
        pairs_by(&rt, rt.alloc(), &plan)?;
    }
    Ok(())
}

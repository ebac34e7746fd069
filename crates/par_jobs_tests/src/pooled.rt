//! What no clause says of the runs on several threads: that they end, and answer where there is memory.
ghost use Rattle.std.specs.Prelude.{◌≡◌, ◌≤◌};

use par_edge::OpenGate;
use par_jobs::{
    Counting, Folding, Listing, Sifted, Sought, front_pooled, gather_pooled, last_pooled,
    search_pooled, sift_pooled, spanned_pooled,
};
use par_laws::Sum;
use par_pool::Plan;
use par_splitter::Splitter;
use std::alloc::Global;
use std::marker::PhantomData;
use std::process::Abort;
use std::sync::Wait;
use std::test::Fail;
use std::thread::Threads;
use test_rules::{Rule, Same, from_to};

/// Passes 7 and more.
const FROM_SEVEN: Rule = Rule {
    least: 7,
    faulty: -1,
};

// The six runs over 0 to 19 by a plan.
fn runs_by<R: Threads + Wait + Sync + Abort>(
    rt: &R,
    alloc: Global,
    plan: &Plan<'_, OpenGate>,
) -> Result<(), Fail>
    requires workers { (1 ≤ plan.now.workers) × (plan.now.workers ≤ 64) }
    requires level { (1 ≤ plan.now.level) × (plan.now.level ≤ 64) }
{
    let list = Listing {
        of: &Same,
        out: PhantomData,
    };
    let source = from_to(0, 20).ok_or("few")?;
    let (sum, _) = gather_pooled(rt, alloc, source.dup(), &Folding { how: &Sum }, plan)?;
    assert_eq!(rt; sum, 190);
    let (part, _) = sift_pooled(
        rt,
        alloc,
        source.dup(),
        &FROM_SEVEN,
        &Counting,
        &Counting,
        plan,
    )?;
    assert!(rt; matches!(part, Sifted::Got(13, 7)));
    let (front, _) = front_pooled(rt, alloc, source.dup(), &FROM_SEVEN, &list, plan)?;
    assert!(rt; front.end == 7 && front.kept.len() == 7);
    let (parts, _) = spanned_pooled(rt, alloc, source.dup(), &FROM_SEVEN, &list, plan)?;
    assert!(rt; parts.end == 7 && parts.prefix.len() == 7 && parts.suffix.len() == 13);
    let (sought, _) = search_pooled(rt, alloc, source.dup(), &FROM_SEVEN, plan)?;
    assert!(rt; matches!(sought, Sought::Found(place) if place >= 7));
    let (above, _) = last_pooled(rt, alloc, source, &FROM_SEVEN, plan)?;
    assert_eq!(rt; above, 20);
    Ok(())
}

#[test]
fn runs_on_threads(rt: HostRuntime) -> Result<(), Fail> {
    for workers in [1, 2, 4, 64] {
        let plan = Plan {
            workers,
            level: 4,
            gate: &OpenGate,
        };
        runs_by(&rt, rt.alloc(), &plan)?;
    }
    Ok(())
}

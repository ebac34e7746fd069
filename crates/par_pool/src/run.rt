//! A job run by several threads.
ghost use Rattle.std.specs.Prelude.{◌≡◌, ◌≤◌, length, map, IfOk};
ghost use Rattle.par_task.specs.Marking.{marks_of};
ghost use Rattle.par_task.specs.Audits.{IsLeafed, Comes};
ghost use Rattle.par_task.specs.Manners.{IsRunBy};
ghost use Rattle.par_pool.specs.Plans.{planned};

use crate::bundle::Bundle;
use crate::check::is_tiling;
use crate::plan::Plan;
use crate::runs::run_all;
use crate::shared::WorkOf;
use par_edge::Gate;
use par_laws::{Memory, Shown, Test};
use par_signal::Marks;
use par_splitter::Splitter;
use par_task::{Audit, Job, run_alone, threshold};
use std::alloc::Global;
use std::sync::Wait;
use std::thread::Threads;

// As many nodes as a tree of 2,047 has at its lowest level.
const MOST_LEAVES: u32 = 1024;

// How many workers serve a job of n items: no more than it can have leaves. What is cut has more than t items, so no leaf
// of several has fewer than half of t.
pub(crate) fn crew(n: u32, t: u32, workers: u32) -> u32
    requires { 1 ≤ workers }
    ensures { (1 ≤ result) × (result ≤ workers) }
{
    if n <= t {
        1
    } else {
        let least = (t / 2 + t % 2).max(1);
        workers.min(n / least).clamp(1, MOST_LEAVES)
    }
}

// The job as workers run it by the plan, with leaves of `t` items or fewer.
fn work_of<'r, J, P, G>(
    alloc: Global,
    job: &'r J,
    inner: &'r P,
    plan: &Plan<'r, G>,
    t: u32,
) -> WorkOf<'r, J, P, G>
    ensures job { (result.job.now ≡ job.now) × (result.inner.now ≡ inner.now) }
    ensures least { 1 ≤ result.least }
{
    WorkOf {
        alloc,
        job,
        inner,
        gate: plan.gate,
        least: t.max(1),
    }
}

/// Runs a job on several threads, and answers its part and its audit: what `run_alone` answers, but for which seat ran
/// which leaf.
///
/// The caller is seat 0. The helpers, seats 1 and on, are started once, at most one less than the plan's workers and than
/// the leaves that the job can have; one that can't be started is not there. All have ended when the call returns. A job that
/// has one leaf is run by the caller alone. The gate is told of each leaf before it begins. `marks` are the marks of the job's
/// test over the source. The one error is want of memory: a leaf that finds none asks all others to end by
/// `abort_memory`, and the whole answer is `Memory`.
///
/// The leaves that the answer comes from are compared with the lists of the seats that ran them. Were these not the same,
/// or did they not tile the source, the job would be run anew by the caller alone.
pub fn run_job<J: Job + Sync, M: Marks, G: Gate + Sync, R: Threads + Wait + Sync>(
    rt: &R,
    alloc: Global,
    job: &J,
    inner: &J::Pred,
    marks: &M,
    source: J::Split,
    plan: &Plan<'_, G>,
) -> Result<(J::Part, Audit), Memory>
where
    J::Split: Send,
    J::Part: Send,
    J::Pred: Send + Sync,
    <J::Split as Splitter>::Item: Send,
    requires source { (J.Split.lo source ≡ 0) × (J.Split.items source ≡ J.source job.now) }
    requires small { length (J.source job.now) ≤ 4194304 }
    requires level { (1 ≤ plan.now.level) × (plan.now.level ≤ 64) }
    requires workers { (1 ≤ plan.now.workers) × (plan.now.workers ≤ 64) }
    requires test { map (J.Pred.verdict inner.now) (J.source job.now) ≡ J.verdicts job.now }
    requires marks { M.marks marks.now ≡ marks_of J.kind (J.verdicts job.now) }
    ensures good { IfOk result (λ r. J.good job.now 0 (length (J.source job.now)) (J.Part.shown r.0)) }
    ensures comes { IfOk result (λ r. Comes (IsLeafed J.kind (marks_of J.kind (J.verdicts job.now)) (J.good job.now)) (J.merges job.now) r.1 (J.Part.shown r.0)) }
    ensures audit { IfOk result (λ r. IsRunBy (planned plan.now.workers plan.now.level) J.kind (marks_of J.kind (J.verdicts job.now)) (length (J.source job.now)) r.1) }
{
    let n = source.remaining();
    let t = threshold(n, plan.level);
    let workers = crew(n, t, plan.workers);
    if workers < 2 {
        return run_alone(alloc, job, inner, marks, source, plan.level, plan.gate);
    }
    let work = work_of(alloc, job, inner, plan, t);
    let (bundle, lists) = run_all(rt, &work, marks, source.dup(), workers)?;
    let Bundle::Whole(part, leaves) = bundle else {
        return Err(Memory);
    };
    if is_tiling(alloc, &leaves, &lists, n, t, plan.workers)? {
        return Ok((part, Audit::of(leaves)));
    }
    run_alone(alloc, job, inner, marks, source, plan.level, plan.gate)
}

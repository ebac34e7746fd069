//! One last step.

ghost use Rattle.std.specs.Prelude.{◌≡◌, ◌≤◌, None, length, true, IfOk, IfErr};
ghost use Rattle.par_task.specs.Manners.{alone};
ghost use Rattle.par_pool.specs.Plans.{planned};
ghost use Rattle.pipe_steps.specs.Said.{last_view};
ghost use Rattle.pipe_stages.specs.Rows.{pointed};
ghost use Rattle.pipe_answers.specs.Lasts.{Gives, IsAnswerText, IsLastAudit, StopsBy, is_built_last, is_sound_last, last_fault};

use crate::numbers::Told;
use crate::{numbers, pairs, searches, strings};
use par_edge::Gate;
use par_pool::Plan;
use par_rows::{Row, Schema};
use par_task::Audit;
use pipe_stages::StepStop;
use pipe_steps::Last;
use std::alloc::Global;
use std::sync::Wait;
use std::thread::Threads;

/// Whether `run_last` runs the last step.
pub fn is_built_last(last: &Last) -> bool
    ensures { result ≡ is_built_last (last_view last.now) }
{
    !matches!(last, Last::ToSet(_) | Last::ToMap(_, _))
}

/// The text of the answer that a last step makes of the rows, and the audit of its run; `print`, `size` and `splitAt` have
/// none. The columns are those of the rows, over which the step was judged. Of several rows that pass, `find` may give
/// any.
///
/// Linear in the rows, with its expression for each, and in the text. It stops by a fault exactly where the step has that
/// one, and else for want of memory alone; never by `TooMany`.
pub fn run_last<G: Gate + Sync, T: Threads + Wait + Sync>(
    rt: &T,
    alloc: Global,
    last: &Last,
    schema: &Schema,
    rows: &[&Row],
    plan: &Plan<'_, G>,
) -> Result<(Vec<u8>, Option<Audit>), StepStop>
    requires built { is_built_last (last_view last.now) ≡ true }
    requires sound { is_sound_last schema.now.columns.items (last_view last.now) ≡ true }
    requires small { length rows.now ≤ 4194304 }
    requires level { (1 ≤ plan.now.level) × (plan.now.level ≤ 64) }
    requires workers { (1 ≤ plan.now.workers) × (plan.now.workers ≤ 64) }
    ensures fault { IfOk result (λ r. last_fault schema.now.columns.items (last_view last.now) (pointed rows.now) ≡ None) }
    ensures answer { IfOk result (λ r. IsAnswerText schema.now.columns.items (last_view last.now) (pointed rows.now) r.0.items) }
    ensures audit { IfOk result (λ r. IsLastAudit schema.now.columns.items (last_view last.now) (pointed rows.now) (planned plan.now.workers plan.now.level) r.1) }
    ensures stop { IfErr result (StopsBy (last_fault schema.now.columns.items (last_view last.now) (pointed rows.now))) }
{
    call(rt, alloc, last, schema, rows, plan)
}

/// `run_last` on the caller's thread alone. It takes neither threads nor waits.
pub fn run_last_alone<G: Gate + Sync>(
    alloc: Global,
    last: &Last,
    schema: &Schema,
    rows: &[&Row],
    level: u32,
    gate: &G,
) -> Result<(Vec<u8>, Option<Audit>), StepStop>
    requires built { is_built_last (last_view last.now) ≡ true }
    requires sound { is_sound_last schema.now.columns.items (last_view last.now) ≡ true }
    requires small { length rows.now ≤ 4194304 }
    requires level { (1 ≤ level) × (level ≤ 64) }
    ensures fault { IfOk result (λ r. last_fault schema.now.columns.items (last_view last.now) (pointed rows.now) ≡ None) }
    ensures answer { IfOk result (λ r. IsAnswerText schema.now.columns.items (last_view last.now) (pointed rows.now) r.0.items) }
    ensures audit { IfOk result (λ r. IsLastAudit schema.now.columns.items (last_view last.now) (pointed rows.now) (alone level) r.1) }
    ensures stop { IfErr result (StopsBy (last_fault schema.now.columns.items (last_view last.now) (pointed rows.now))) }
{
    call_alone(alloc, last, schema, rows, level, gate)
}

// The call of each last step.
fn call<G: Gate + Sync, T: Threads + Wait + Sync>(
    rt: &T,
    alloc: Global,
    last: &Last,
    schema: &Schema,
    rows: &[&Row],
    plan: &Plan<'_, G>,
) -> Result<Told, StepStop>
    requires built { is_built_last (last_view last.now) ≡ true }
    requires sound { is_sound_last schema.now.columns.items (last_view last.now) ≡ true }
    requires small { length rows.now ≤ 4194304 }
    requires level { (1 ≤ plan.now.level) × (plan.now.level ≤ 64) }
    requires workers { (1 ≤ plan.now.workers) × (plan.now.workers ≤ 64) }
    ensures { Gives (last_fault schema.now.columns.items (last_view last.now) (pointed rows.now)) (IsAnswerText schema.now.columns.items (last_view last.now) (pointed rows.now)) (IsLastAudit schema.now.columns.items (last_view last.now) (pointed rows.now) (planned plan.now.workers plan.now.level)) result }
{
    match last {
        Last::Print => numbers::print(alloc, schema, rows),
        Last::Size => numbers::size(alloc, rows),
        Last::Count(e) => numbers::count(rt, alloc, e, schema, rows, plan),
        Last::Sum(e) => numbers::sum(rt, alloc, e, schema, rows, plan),
        Last::Product(e) => numbers::product(rt, alloc, e, schema, rows, plan),
        Last::Min(e) => numbers::min(rt, alloc, e, schema, rows, plan),
        Last::Max(e) => numbers::max(rt, alloc, e, schema, rows, plan),
        Last::MkString(e, sep) => strings::mk_string(rt, alloc, e, sep, schema, rows, plan),
        Last::Find(e) => searches::find(rt, alloc, e, schema, rows, plan),
        Last::Exists(e) => searches::exists(rt, alloc, e, schema, rows, plan),
        Last::Forall(e) => searches::forall(rt, alloc, e, schema, rows, plan),
        Last::IndexWhere(e) => searches::index_where(rt, alloc, e, schema, rows, plan),
        Last::LastIndexWhere(e) => searches::last_index_where(rt, alloc, e, schema, rows, plan),
        Last::SegmentLength(e, from) => {
            searches::segment_length(rt, alloc, e, *from, schema, rows, plan)
        }
        Last::Span(e) => pairs::span(rt, alloc, e, schema, rows, plan),
        Last::Partition(e) => pairs::partition(rt, alloc, e, schema, rows, plan),
        Last::SplitAt(n) => pairs::split_at(alloc, *n, rows),
        _ => unreachable!(),
    }
}

// `call` on the caller's thread alone.
fn call_alone<G: Gate>(
    alloc: Global,
    last: &Last,
    schema: &Schema,
    rows: &[&Row],
    level: u32,
    gate: &G,
) -> Result<Told, StepStop>
    requires built { is_built_last (last_view last.now) ≡ true }
    requires sound { is_sound_last schema.now.columns.items (last_view last.now) ≡ true }
    requires small { length rows.now ≤ 4194304 }
    requires level { (1 ≤ level) × (level ≤ 64) }
    ensures { Gives (last_fault schema.now.columns.items (last_view last.now) (pointed rows.now)) (IsAnswerText schema.now.columns.items (last_view last.now) (pointed rows.now)) (IsLastAudit schema.now.columns.items (last_view last.now) (pointed rows.now) (alone level)) result }
{
    match last {
        Last::Print => numbers::print(alloc, schema, rows),
        Last::Size => numbers::size(alloc, rows),
        Last::Count(e) => numbers::count_alone(alloc, e, schema, rows, level, gate),
        Last::Sum(e) => numbers::sum_alone(alloc, e, schema, rows, level, gate),
        Last::Product(e) => numbers::product_alone(alloc, e, schema, rows, level, gate),
        Last::Min(e) => numbers::min_alone(alloc, e, schema, rows, level, gate),
        Last::Max(e) => numbers::max_alone(alloc, e, schema, rows, level, gate),
        Last::MkString(e, sep) => strings::mk_string_alone(
            alloc, e, sep, schema, rows, level, gate,
        ),
        Last::Find(e) => searches::find_alone(alloc, e, schema, rows, level, gate),
        Last::Exists(e) => searches::exists_alone(alloc, e, schema, rows, level, gate),
        Last::Forall(e) => searches::forall_alone(alloc, e, schema, rows, level, gate),
        Last::IndexWhere(e) => searches::index_where_alone(alloc, e, schema, rows, level, gate),
        Last::LastIndexWhere(e) => searches::last_index_where_alone(
            alloc, e, schema, rows, level, gate,
        ),
        Last::SegmentLength(e, from) => {
            searches::segment_length_alone(alloc, e, *from, schema, rows, level, gate)
        }
        Last::Span(e) => pairs::span_alone(alloc, e, schema, rows, level, gate),
        Last::Partition(e) => pairs::partition_alone(alloc, e, schema, rows, level, gate),
        Last::SplitAt(n) => pairs::split_at(alloc, *n, rows),
        _ => unreachable!(),
    }
}

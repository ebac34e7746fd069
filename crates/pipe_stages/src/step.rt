//! One step.

ghost use Rattle.std.specs.Prelude.{◌≡◌, ◌≤◌, length, true, Ok, IfOk, IfErr};
ghost use Rattle.par_task.specs.Manners.{alone};
ghost use Rattle.par_pool.specs.Plans.{planned};
ghost use Rattle.pipe_steps.specs.Said.{middle_view};
ghost use Rattle.pipe_stages.specs.Audits.{IsAuditOf};
ghost use Rattle.pipe_stages.specs.Rows.{listed, pointed};
ghost use Rattle.pipe_stages.specs.Runs.{Gives};
ghost use Rattle.pipe_stages.specs.Stages.{after, is_built, is_sound};
ghost use Rattle.pipe_stages.specs.Stops.{StopsAs};

use crate::making::{
    collect, collect_alone, map, map_alone, zip_range, zip_range_alone, zip_with_index,
    zip_with_index_alone,
};
use crate::picking::{self, Ran};
use crate::splitting::{flat_map, flat_map_alone};
use crate::stepped::Stepped;
use crate::stop::StepStop;
use par_edge::Gate;
use par_pool::Plan;
use par_rows::{Row, Schema};
use par_task::Audit;
use pipe_steps::Step;
use std::alloc::Global;
use std::sync::Wait;
use std::thread::Threads;

/// Whether `run_step` runs the step.
pub fn is_built(step: &Step) -> bool
    ensures { result ≡ is_built (middle_view step.now) }
{
    match step {
        Step::Scan {
            how: _,
            of: _,
            name: _,
        } => false,
        Step::GroupBy { keys: _, aggs: _ } => false,
        Step::Distinct => false,
        _ => true,
    }
}

/// The rows after a step, and the audit of its run; `take`, `drop` and `slice` have none. The columns are those before
/// the step, over which it was judged.
///
/// Linear in the rows, with its expressions for each, and in the rows that it makes. It stops by the fault or by
/// `TooMany` exactly where the step has that, and else for want of memory alone.
pub fn run_step<'a, G: Gate + Sync, T: Threads + Wait + Sync>(
    rt: &T,
    alloc: Global,
    step: &Step,
    schema: &Schema,
    rows: &[&'a Row],
    plan: &Plan<'_, G>,
) -> Result<(Stepped<'a>, Option<Audit>), StepStop>
    requires built { is_built (middle_view step.now) ≡ true }
    requires sound { is_sound schema.now.columns.items (middle_view step.now) ≡ true }
    requires small { length rows.now ≤ 4194304 }
    requires level { (1 ≤ plan.now.level) × (plan.now.level ≤ 64) }
    requires workers { (1 ≤ plan.now.workers) × (plan.now.workers ≤ 64) }
    ensures answer { IfOk result (λ r. after schema.now.columns.items (middle_view step.now) (pointed rows.now) ≡ Ok (listed r.0)) }
    ensures small { IfOk result (λ r. length (listed r.0) ≤ 4194304) }
    ensures stop { IfErr result (StopsAs (after schema.now.columns.items (middle_view step.now) (pointed rows.now))) }
    ensures audit { IfOk result (λ r. IsAuditOf schema.now.columns.items (middle_view step.now) (pointed rows.now) (planned plan.now.workers plan.now.level) r.1) }
{
    call(rt, alloc, step, schema, rows, plan)
}

/// `run_step` on the caller's thread alone. It takes neither threads nor waits.
pub fn run_step_alone<'a, G: Gate + Sync>(
    alloc: Global,
    step: &Step,
    schema: &Schema,
    rows: &[&'a Row],
    level: u32,
    gate: &G,
) -> Result<(Stepped<'a>, Option<Audit>), StepStop>
    requires built { is_built (middle_view step.now) ≡ true }
    requires sound { is_sound schema.now.columns.items (middle_view step.now) ≡ true }
    requires small { length rows.now ≤ 4194304 }
    requires level { (1 ≤ level) × (level ≤ 64) }
    ensures answer { IfOk result (λ r. after schema.now.columns.items (middle_view step.now) (pointed rows.now) ≡ Ok (listed r.0)) }
    ensures small { IfOk result (λ r. length (listed r.0) ≤ 4194304) }
    ensures stop { IfErr result (StopsAs (after schema.now.columns.items (middle_view step.now) (pointed rows.now))) }
    ensures audit { IfOk result (λ r. IsAuditOf schema.now.columns.items (middle_view step.now) (pointed rows.now) (alone level) r.1) }
{
    call_alone(alloc, step, schema, rows, level, gate)
}

// The call of each step.
fn call<'a, G: Gate + Sync, T: Threads + Wait + Sync>(
    rt: &T,
    alloc: Global,
    step: &Step,
    schema: &Schema,
    rows: &[&'a Row],
    plan: &Plan<'_, G>,
) -> Result<Ran<'a>, StepStop>
    requires built { is_built (middle_view step.now) ≡ true }
    requires sound { is_sound schema.now.columns.items (middle_view step.now) ≡ true }
    requires small { length rows.now ≤ 4194304 }
    requires level { (1 ≤ plan.now.level) × (plan.now.level ≤ 64) }
    requires workers { (1 ≤ plan.now.workers) × (plan.now.workers ≤ 64) }
    ensures { Gives (after schema.now.columns.items (middle_view step.now) (pointed rows.now)) (IsAuditOf schema.now.columns.items (middle_view step.now) (pointed rows.now) (planned plan.now.workers plan.now.level)) result }
{
    match step {
        Step::Filter(e) => picking::filter(rt, alloc, e, schema, rows, plan),
        Step::FilterNot(e) => picking::filter_not(rt, alloc, e, schema, rows, plan),
        Step::Map(fields) => map(rt, alloc, fields, schema, rows, plan),
        Step::Collect(fields, e) => collect(rt, alloc, fields, e, schema, rows, plan),
        Step::FlatMap { column, sep } => { flat_map(rt, alloc, column, sep, schema, rows, plan) }
        Step::Take(n) => picking::take(alloc, *n, rows),
        Step::Drop(n) => picking::drop(alloc, *n, rows),
        Step::Slice(a, b) => picking::slice(alloc, *a, *b, rows),
        Step::TakeWhile(e) => picking::take_while(rt, alloc, e, schema, rows, plan),
        Step::DropWhile(e) => picking::drop_while(rt, alloc, e, schema, rows, plan),
        Step::ZipWithIndex(_) => zip_with_index(rt, alloc, rows, plan),
        Step::ZipRange { a, b, c, name: _ } => { zip_range(rt, alloc, *a, *b, *c, rows, plan) }
        Step::Reverse => picking::reverse(rt, alloc, rows, plan),
        _ => unreachable!(),
    }
}

// `call` on the caller's thread alone.
fn call_alone<'a, G: Gate>(
    alloc: Global,
    step: &Step,
    schema: &Schema,
    rows: &[&'a Row],
    level: u32,
    gate: &G,
) -> Result<Ran<'a>, StepStop>
    requires built { is_built (middle_view step.now) ≡ true }
    requires sound { is_sound schema.now.columns.items (middle_view step.now) ≡ true }
    requires small { length rows.now ≤ 4194304 }
    requires level { (1 ≤ level) × (level ≤ 64) }
    ensures { Gives (after schema.now.columns.items (middle_view step.now) (pointed rows.now)) (IsAuditOf schema.now.columns.items (middle_view step.now) (pointed rows.now) (alone level)) result }
{
    match step {
        Step::Filter(e) => picking::filter_alone(alloc, e, schema, rows, level, gate),
        Step::FilterNot(e) => picking::filter_not_alone(alloc, e, schema, rows, level, gate),
        Step::Map(fields) => map_alone(alloc, fields, schema, rows, level, gate),
        Step::Collect(fields, e) => collect_alone(alloc, fields, e, schema, rows, level, gate),
        Step::FlatMap { column, sep } => {
            flat_map_alone(alloc, column, sep, schema, rows, level, gate)
        }
        Step::Take(n) => picking::take(alloc, *n, rows),
        Step::Drop(n) => picking::drop(alloc, *n, rows),
        Step::Slice(a, b) => picking::slice(alloc, *a, *b, rows),
        Step::TakeWhile(e) => picking::take_while_alone(alloc, e, schema, rows, level, gate),
        Step::DropWhile(e) => picking::drop_while_alone(alloc, e, schema, rows, level, gate),
        Step::ZipWithIndex(_) => zip_with_index_alone(alloc, rows, level, gate),
        Step::ZipRange { a, b, c, name: _ } => {
            zip_range_alone(alloc, *a, *b, *c, rows, level, gate)
        }
        Step::Reverse => picking::reverse_alone(alloc, rows, level, gate),
        _ => unreachable!(),
    }
}

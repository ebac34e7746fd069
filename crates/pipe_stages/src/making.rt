//! Steps that make a row of each row.
ghost use Rattle.std.specs.Prelude.{◌≡◌, ◌≢◌, ◌≤◌, length, map, true, ◌++◌, Ok, IfOk, OnOk, pos};
ghost use Rattle.par_rows.specs.declared.value.Value.TheVariants.{Int as IntValue};
ghost use Rattle.par_task.specs.Marking.{no_flag, no_test};
ghost use Rattle.par_task.specs.Manners.{alone};
ghost use Rattle.par_pool.specs.Plans.{planned};
ghost use Rattle.par_jobs.specs.Runs.{untested};
ghost use Rattle.par_splitter.specs.Range.{IsReached};
ghost use Rattle.pipe_checks.specs.Kinds.{fits};
ghost use Rattle.pipe_checks.specs.Uses.{fields_pass};
ghost use Rattle.pipe_checks.specs.declared.uses.Want.TheVariants.{Truth as TruthWanted};
ghost use Rattle.pipe_expr.specs.Grammar.{view};
ghost use Rattle.pipe_steps.specs.Said.{named_view};
ghost use Rattle.pipe_eval.specs.Answers.{verdict_on};
ghost use Rattle.pipe_stages.specs.Audits.{IsRun};
ghost use Rattle.pipe_stages.specs.Ranges.{AreFirst};
ghost use Rattle.pipe_stages.specs.Rows.{pointed};
ghost use Rattle.pipe_stages.specs.Runs.{Gives, collected_run, made_run};
ghost use Rattle.pipe_stages.specs.Stages.{each_made, filtered, indexed, made_by, ranged, then_made, with_last};

use crate::picking::{Ran, Source};
use crate::picks::CopySplitter;
use crate::stepped::Stepped;
use crate::stop::StepStop;
use par_combiner::{ArrayCombiner, Faulted, Yield};
use par_edge::Gate;
use par_laws::{FaultAt, Keep, Mapper, Memory, Tried};
use par_pool::Plan;
use par_rows::{Row, Schema, Value, Values};
use par_splitter::{RangeSplitter, Splitter, range_count};
use par_task::Audit;
use pipe_eval::{Condition, Maker};
use pipe_expr::Expr;
use pipe_steps::Named;
use std::alloc::Global;
use std::sync::Wait;
use std::thread::Threads;

/// Gathers the rows that are made, or the first fault.
type Makes = Faulted<ArrayCombiner<Row>>;

// The rows that were made, or the fault of the first that wasn't.
fn made<'a>(all: Yield<Vec<Row>>, audit: Audit) -> Result<Ran<'a>, StepStop>
    ensures { result ≡ made_run all audit }
{
    match all {
        Yield::All(rows) => Ok((Stepped::Made(rows), Some(audit))),
        Yield::Fault { at, kind } => Err(StepStop::Fault(FaultAt { at, kind })),
    }
}

// The same of the rows that a test chose, or its fault.
fn collected<'a>(kept: Tried<Yield<Vec<Row>>>, audit: Audit) -> Result<Ran<'a>, StepStop>
    ensures { result ≡ collected_run kept audit }
{
    match kept {
        Tried::Got(all) => made(all, audit),
        Tried::Fault(fault) => Err(StepStop::Fault(fault)),
    }
}

/// The row of each row's values.
pub(crate) fn map<'a, G: Gate + Sync, T: Threads + Wait + Sync>(
    rt: &T,
    alloc: Global,
    fields: &[Named],
    schema: &Schema,
    rows: &[&'a Row],
    plan: &Plan<'_, G>,
) -> Result<Ran<'a>, StepStop>
    requires kinds { fields_pass (fits schema.now.columns.items) (map named_view fields.now) ≡ true }
    requires small { length rows.now ≤ 4194304 }
    requires level { (1 ≤ plan.now.level) × (plan.now.level ≤ 64) }
    requires workers { (1 ≤ plan.now.workers) × (plan.now.workers ≤ 64) }
    ensures { Gives (each_made (made_by schema.now.columns.items (map named_view fields.now)) (pointed rows.now)) (IsRun no_test untested (pointed rows.now) (planned plan.now.workers plan.now.level)) result }
{
    let maker = Maker::bind(alloc, fields, schema)?;
    let source = CopySplitter::new(rows);
    let (all, audit) = par_transform::map::<Source<'_, 'a>, Makes, G, Maker, T>(
        rt, alloc, source, &maker, plan,
    )?;
    made(all, audit)
}

/// `map` on the caller's thread alone. It takes neither threads nor waits.
pub(crate) fn map_alone<'a, G: Gate>(
    alloc: Global,
    fields: &[Named],
    schema: &Schema,
    rows: &[&'a Row],
    level: u32,
    gate: &G,
) -> Result<Ran<'a>, StepStop>
    requires kinds { fields_pass (fits schema.now.columns.items) (map named_view fields.now) ≡ true }
    requires small { length rows.now ≤ 4194304 }
    requires level { (1 ≤ level) × (level ≤ 64) }
    ensures { Gives (each_made (made_by schema.now.columns.items (map named_view fields.now)) (pointed rows.now)) (IsRun no_test untested (pointed rows.now) (alone level)) result }
{
    let maker = Maker::bind(alloc, fields, schema)?;
    let source = CopySplitter::new(rows);
    let (all, audit) = par_transform::map_alone::<Source<'_, 'a>, Makes, G, Maker>(
        alloc, source, &maker, level, gate,
    )?;
    made(all, audit)
}

/// The row of the values of each row that passes.
pub(crate) fn collect<'a, G: Gate + Sync, T: Threads + Wait + Sync>(
    rt: &T,
    alloc: Global,
    fields: &[Named],
    e: &Expr,
    schema: &Schema,
    rows: &[&'a Row],
    plan: &Plan<'_, G>,
) -> Result<Ran<'a>, StepStop>
    requires kinds { fields_pass (fits schema.now.columns.items) (map named_view fields.now) ≡ true }
    requires kind { fits schema.now.columns.items TruthWanted (view e.now) ≡ true }
    requires small { length rows.now ≤ 4194304 }
    requires level { (1 ≤ plan.now.level) × (plan.now.level ≤ 64) }
    requires workers { (1 ≤ plan.now.workers) × (plan.now.workers ≤ 64) }
    ensures { Gives (then_made (made_by schema.now.columns.items (map named_view fields.now)) (filtered schema.now.columns.items (view e.now) (pointed rows.now))) (IsRun no_flag (verdict_on schema.now.columns.items (view e.now)) (pointed rows.now) (planned plan.now.workers plan.now.level)) result }
{
    let test = Condition::bind(alloc, e, schema)?;
    let maker = Maker::bind(alloc, fields, schema)?;
    let source = CopySplitter::new(rows);
    let (kept, audit) = par_transform::collect::<Source<'_, 'a>, Makes, G, Condition, Maker, T>(
        rt, alloc, source, &test, &maker, plan,
    )?;
    collected(kept, audit)
}

/// `collect` on the caller's thread alone. It takes neither threads nor waits.
pub(crate) fn collect_alone<'a, G: Gate>(
    alloc: Global,
    fields: &[Named],
    e: &Expr,
    schema: &Schema,
    rows: &[&'a Row],
    level: u32,
    gate: &G,
) -> Result<Ran<'a>, StepStop>
    requires kinds { fields_pass (fits schema.now.columns.items) (map named_view fields.now) ≡ true }
    requires kind { fits schema.now.columns.items TruthWanted (view e.now) ≡ true }
    requires small { length rows.now ≤ 4194304 }
    requires level { (1 ≤ level) × (level ≤ 64) }
    ensures { Gives (then_made (made_by schema.now.columns.items (map named_view fields.now)) (filtered schema.now.columns.items (view e.now) (pointed rows.now))) (IsRun no_flag (verdict_on schema.now.columns.items (view e.now)) (pointed rows.now) (alone level)) result }
{
    let test = Condition::bind(alloc, e, schema)?;
    let maker = Maker::bind(alloc, fields, schema)?;
    let source = CopySplitter::new(rows);
    let (kept, audit) = par_transform::collect_alone::<Source<'_, 'a>, Makes, G, Condition, Maker>(
        alloc, source, &test, &maker, level, gate,
    )?;
    collected(kept, audit)
}

/// A row with a number as one value more, at its end.
struct WithNumber;

impl<'a> Mapper<(&'a Row, i64), Row> for WithNumber {
    ghost use Rattle.par_rows.specs.declared.value.Value.TheVariants.{Int as IntValue};
    ghost use Rattle.pipe_stages.specs.Stages.{with_last};

    ghost mapped = { λ _ pair. with_last pair.0 (IntValue pair.1) };

    fn map(&self, alloc: Global, item: &(&'a Row, i64)) -> Result<Row, Memory> {
        with_number(alloc, item.0, item.1)
    }
}

/// Adds copies of values at the end. Where memory is wanting, some of them are added.
pub(crate) fn copy_values(
    alloc: Global,
    values: &mut Values,
    source: &[Value],
) -> Result<(), Memory>
    ensures { OnOk result (values.new ≡ values.old ++ source.now) }
{
    for value in source {
        values.push(value.copy(alloc)?)?;
    }
    Ok(())
}

// The row with a number as one value more, at its end. Takes memory for just its values and their texts.
fn with_number(alloc: Global, row: &Row, number: i64) -> Result<Row, Memory>
    ensures { IfOk result (λ made. made ≡ with_last row.now (IntValue number)) }
{
    let source = row.values.as_slice();
    let mut values = Values::with_room(alloc, source.len().saturating_add(1))?;
    copy_values(alloc, &mut values, source)?;
    values.push(Value::Int(number))?;
    Ok(Row { values })
}

/// Each row with its index as last value.
pub(crate) fn zip_with_index<'a, G: Gate + Sync, T: Threads + Wait + Sync>(
    rt: &T,
    alloc: Global,
    rows: &[&'a Row],
    plan: &Plan<'_, G>,
) -> Result<Ran<'a>, StepStop>
    requires small { length rows.now ≤ 4194304 }
    requires level { (1 ≤ plan.now.level) × (plan.now.level ≤ 64) }
    requires workers { (1 ≤ plan.now.workers) × (plan.now.workers ≤ 64) }
    ensures { Gives (Ok (indexed (pointed rows.now))) (IsRun no_test untested (pointed rows.now) (planned plan.now.workers plan.now.level)) result }
{
    let source = CopySplitter::new(rows);
    let (all, audit) = par_transform::zip_with_index::<
        Source<'_, 'a>,
        ArrayCombiner<Row>,
        G,
        WithNumber,
        T,
    >(rt, alloc, source, &WithNumber, plan)?;
    Ok((Stepped::Made(all), Some(audit)))
}

/// `zip_with_index` on the caller's thread alone. It takes neither threads nor waits.
pub(crate) fn zip_with_index_alone<'a, G: Gate>(
    alloc: Global,
    rows: &[&'a Row],
    level: u32,
    gate: &G,
) -> Result<Ran<'a>, StepStop>
    requires small { length rows.now ≤ 4194304 }
    requires level { (1 ≤ level) × (level ≤ 64) }
    ensures { Gives (Ok (indexed (pointed rows.now))) (IsRun no_test untested (pointed rows.now) (alone level)) result }
{
    let source = CopySplitter::new(rows);
    let (all, audit) = par_transform::zip_with_index_alone::<
        Source<'_, 'a>,
        ArrayCombiner<Row>,
        G,
        WithNumber,
    >(alloc, source, &WithNumber, level, gate)?;
    Ok((Stepped::Made(all), Some(audit)))
}

// The number `k` steps on from `a`, where that is one of 64 bits.
fn steps_on(a: i64, k: u32, c: i64) -> i64
    ensures { IsReached a c k result }
{
    a.wrapping_add(i64::from(k).wrapping_mul(c))
}

// The first `n` numbers of `a until b by c`, or all where there are fewer.
fn first_numbers(a: i64, b: i64, c: i64, n: u32) -> RangeSplitter
    requires step { c ≢ pos 0 }
    requires small { n ≤ 4194304 }
    ensures { AreFirst a b c n (⟦<RangeSplitter as Splitter>⟧.items result) }
{
    if range_count(a, b, c) > u64::from(n) {
        RangeSplitter::new(a, steps_on(a, n, c), c)
    } else {
        RangeSplitter::new(a, b, c)
    }
}

/// Each row with a number of `a until b by c` as last value, as far as both go.
pub(crate) fn zip_range<'a, G: Gate + Sync, T: Threads + Wait + Sync>(
    rt: &T,
    alloc: Global,
    a: i64,
    b: i64,
    c: i64,
    rows: &[&'a Row],
    plan: &Plan<'_, G>,
) -> Result<Ran<'a>, StepStop>
    requires step { c ≢ pos 0 }
    requires small { length rows.now ≤ 4194304 }
    requires level { (1 ≤ plan.now.level) × (plan.now.level ≤ 64) }
    requires workers { (1 ≤ plan.now.workers) × (plan.now.workers ≤ 64) }
    ensures { Gives (Ok (ranged a b c (pointed rows.now))) (IsRun no_test untested (ranged a b c (pointed rows.now)) (planned plan.now.workers plan.now.level)) result }
{
    let numbers = first_numbers(a, b, c, rows.len() as u32);
    let source = CopySplitter::new(rows);
    let (all, audit) = par_transform::zip::<
        Source<'_, 'a>,
        ArrayCombiner<Row>,
        G,
        RangeSplitter,
        WithNumber,
        T,
    >(rt, alloc, source, numbers, &WithNumber, plan)?;
    Ok((Stepped::Made(all), Some(audit)))
}

/// `zip_range` on the caller's thread alone. It takes neither threads nor waits.
pub(crate) fn zip_range_alone<'a, G: Gate>(
    alloc: Global,
    a: i64,
    b: i64,
    c: i64,
    rows: &[&'a Row],
    level: u32,
    gate: &G,
) -> Result<Ran<'a>, StepStop>
    requires step { c ≢ pos 0 }
    requires small { length rows.now ≤ 4194304 }
    requires level { (1 ≤ level) × (level ≤ 64) }
    ensures { Gives (Ok (ranged a b c (pointed rows.now))) (IsRun no_test untested (ranged a b c (pointed rows.now)) (alone level)) result }
{
    let numbers = first_numbers(a, b, c, rows.len() as u32);
    let source = CopySplitter::new(rows);
    let (all, audit) = par_transform::zip_alone::<
        Source<'_, 'a>,
        ArrayCombiner<Row>,
        G,
        RangeSplitter,
        WithNumber,
    >(alloc, source, numbers, &WithNumber, level, gate)?;
    Ok((Stepped::Made(all), Some(audit)))
}

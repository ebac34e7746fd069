//! The steps of a pipeline over its rows, and the answer.
ghost use Rattle.std.specs.Prelude.{◌≡◌, ◌≤◌, ◌<◌, ◌+◌, ◌^◌, ◌++◌, [], length, Ok, Err, IfOk, IfErr, OnOk};
ghost use Rattle.par_task.specs.Manners.{alone};
ghost use Rattle.par_pool.specs.Plans.{planned};
ghost use Rattle.pipe_steps.specs.Said.{last_view, middle_view};
ghost use Rattle.pipe_stages.specs.Rows.{listed, pointed};
ghost use Rattle.pipe_run.specs.Rests.{IsBehind, IsReady, IsRunOf, Notes, Reaches, items_told, last_told};
ghost use Rattle.pipe_run.specs.Runs.{last_name as name_of_end, step_name as name_of_middle, stage_outcome as outcome_of, IsTold};
ghost use Rattle.pipe_run.specs.Rulings.{IsInner, UnlessFree};

use crate::{Counted, Outcome};
use par_edge::Gate;
use par_laws::Memory;
use par_pool::Plan;
use par_rows::{Row, Schema};
use par_task::Audit;
use pipe_answers::{StageAudit, run_last, run_last_alone};
use pipe_checks::step_columns;
use pipe_stages::{StepStop, Stepped, run_step, run_step_alone};
use pipe_steps::{Last, Step};
use std::alloc::Global;
use std::sync::Wait;
use std::thread::Threads;

/// The most rows of a step.
const MAX_ITEMS: u64 = 4_194_304;

/// What is left to run of a pipeline: the number of its first step, the columns before that, the steps, and the last one.
#[derive(Drop)]
pub struct Rest<'p> {
    pub number: u32,
    pub schema: Schema,
    pub steps: &'p [Step],
    pub last: &'p Last,
}

/// How far steps came over one table.
#[derive(Drop)]
enum Reached<'p> {
    /// To the text of the answer.
    Answer(Vec<u8>),
    /// To a step that made rows of its own, and what is left behind it.
    Table(Vec<Row>, Rest<'p>),
}

// Why a step with this number stopped, as an outcome.
fn stage_outcome(number: u32, stop: StepStop) -> Outcome
    ensures { result ≡ outcome_of number stop }
{
    match stop {
        StepStop::Fault(fault) => Outcome::Fault {
            stage: number,
            row: fault.at,
            kind: fault.kind,
        },
        StepStop::TooMany => Outcome::Limit {
            what: Counted::FlatMapItems,
            count: MAX_ITEMS + 1,
            most: MAX_ITEMS,
        },
        StepStop::Memory => Outcome::Memory,
    }
}

// The first word of a step.
fn step_name(step: &Step) -> &'static str
    ensures { result.now ≡ name_of_middle (middle_view step.now) }
{
    match step {
        Step::Filter(_) => "filter",
        Step::FilterNot(_) => "filterNot",
        Step::Map(_) => "map",
        Step::Collect(_, _) => "collect",
        Step::FlatMap { .. } => "flatMap",
        Step::Take(_) => "take",
        Step::Drop(_) => "drop",
        Step::Slice(_, _) => "slice",
        Step::TakeWhile(_) => "takeWhile",
        Step::DropWhile(_) => "dropWhile",
        Step::ZipWithIndex(_) => "zipWithIndex",
        Step::ZipRange { .. } => "zip",
        Step::Reverse => "reverse",
        Step::Scan { .. } => "scan",
        Step::GroupBy { .. } => "groupBy",
        Step::Distinct => "distinct",
    }
}

// The first word of a last step.
fn last_name(last: &Last) -> &'static str
    ensures { result.now ≡ name_of_end (last_view last.now) }
{
    match last {
        Last::Print => "print",
        Last::Size => "size",
        Last::Count(_) => "count",
        Last::Sum(_) => "sum",
        Last::Product(_) => "product",
        Last::Min(_) => "min",
        Last::Max(_) => "max",
        Last::MkString(_, _) => "mkString",
        Last::Find(_) => "find",
        Last::Exists(_) => "exists",
        Last::Forall(_) => "forall",
        Last::IndexWhere(_) => "indexWhere",
        Last::LastIndexWhere(_) => "lastIndexWhere",
        Last::SegmentLength(_, _) => "segmentLength",
        Last::Span(_) => "span",
        Last::Partition(_) => "partition",
        Last::SplitAt(_) => "splitAt",
        Last::ToSet(_) => "toSet",
        Last::ToMap(_, _) => "toMap",
    }
}

// How many rows there are after a step.
fn rows_after(stepped: &Stepped<'_>) -> usize
    ensures { result ≡ length (listed stepped.now) }
{
    match stepped {
        Stepped::Picked(rows) => rows.len(),
        Stepped::Made(rows) => rows.len(),
    }
}

// How many items the job of a step had that got and gave so many rows: a zip is as long as the shorter of its sides.
fn step_items(step: &Step, before: usize, after: usize) -> usize
    ensures { result ≡ items_told (middle_view step.now) before after }
{
    match step {
        Step::ZipRange { .. } => after,
        _ => before,
    }
}

// How many items the job of a last step had that got so many rows.
fn last_items(last: &Last, rows: usize) -> usize
    ensures { result ≡ last_told (last_view last.now) rows }
{
    match last {
        Last::SegmentLength(_, from) if *from > 0 => rows.saturating_sub(*from as usize),
        _ => rows,
    }
}

// Notes the audit of a step, if it has one.
fn note(
    audits: &mut Vec<StageAudit>,
    stage: u32,
    name: &'static str,
    items: usize,
    audit: Option<Audit>,
) -> Result<(), Memory>
    requires { items ≤ 4194304 }
    ensures { OnOk result (Notes audits.old.items audits.new.items (IsTold stage name.now items audit)) }
{
    if let Some(audit) = audit {
        audits.push(StageAudit {
            stage,
            name,
            items: items as u32,
            audit,
        })?;
    }
    Ok(())
}

// What is left behind the first step.
fn behind<'p>(
    alloc: Global,
    number: u32,
    schema: &Schema,
    step: &Step,
    steps: &'p [Step],
    last: &'p Last,
) -> Result<Rest<'p>, Memory>
    requires { number + 1 < 2 ^ 32 }
    ensures { IfOk result (λ rest. IsBehind number schema.now.columns.items (middle_view step.now) steps.now last.now rest) }
{
    let columns = step_columns(alloc, &schema.columns, step)?;
    Ok(Rest {
        number: number + 1,
        schema: Schema { columns },
        steps,
        last,
    })
}

// Runs the last step.
fn run_end<G: Gate + Sync, T: Threads + Wait + Sync>(
    rt: &T,
    alloc: Global,
    rest: &Rest<'_>,
    rows: &[&Row],
    plan: &Plan<'_, G>,
    audits: &mut Vec<StageAudit>,
) -> Result<Vec<u8>, Outcome>
    requires ready { IsReady rest.now }
    requires over { rest.now.steps.now ≡ [] }
    requires small { length rows.now ≤ 4194304 }
    requires level { (1 ≤ plan.now.level) × (plan.now.level ≤ 64) }
    requires workers { (1 ≤ plan.now.workers) × (plan.now.workers ≤ 64) }
    ensures text { IfOk result (λ text. Notes audits.old.items audits.new.items (λ told. IsRunOf (planned plan.now.workers plan.now.level) rest.now (pointed rows.now) (Ok (text.items, told)))) }
    ensures stopped { IfErr result (λ o. IsInner o × UnlessFree o (IsRunOf (planned plan.now.workers plan.now.level) rest.now (pointed rows.now) (Err o))) }
{
    match run_last(rt, alloc, rest.last, &rest.schema, rows, plan) {
        Ok((text, audit)) => {
            let (name, items) = (last_name(rest.last), last_items(rest.last, rows.len()));
            note(audits, rest.number, name, items, audit)?;
            Ok(text)
        }
        Err(stop) => Err(stage_outcome(rest.number, stop)),
    }
}

// `run_end` on the caller's thread alone.
fn run_end_alone<G: Gate + Sync>(
    alloc: Global,
    rest: &Rest<'_>,
    rows: &[&Row],
    level: u32,
    gate: &G,
    audits: &mut Vec<StageAudit>,
) -> Result<Vec<u8>, Outcome>
    requires ready { IsReady rest.now }
    requires over { rest.now.steps.now ≡ [] }
    requires small { length rows.now ≤ 4194304 }
    requires level { (1 ≤ level) × (level ≤ 64) }
    ensures text { IfOk result (λ text. Notes audits.old.items audits.new.items (λ told. IsRunOf (alone level) rest.now (pointed rows.now) (Ok (text.items, told)))) }
    ensures stopped { IfErr result (λ o. IsInner o × UnlessFree o (IsRunOf (alone level) rest.now (pointed rows.now) (Err o))) }
{
    match run_last_alone(alloc, rest.last, &rest.schema, rows, level, gate) {
        Ok((text, audit)) => {
            let (name, items) = (last_name(rest.last), last_items(rest.last, rows.len()));
            note(audits, rest.number, name, items, audit)?;
            Ok(text)
        }
        Err(stop) => Err(stage_outcome(rest.number, stop)),
    }
}

// Runs steps over picks of one table, up to one that makes rows of its own, or to the end.
fn run_picks<'p, G: Gate + Sync, T: Threads + Wait + Sync>(
    rt: &T,
    alloc: Global,
    rest: Rest<'p>,
    rows: &[&Row],
    plan: &Plan<'_, G>,
    audits: &mut Vec<StageAudit>,
) -> Result<Reached<'p>, Outcome>
    requires ready { IsReady rest }
    requires small { length rows.now ≤ 4194304 }
    requires level { (1 ≤ plan.now.level) × (plan.now.level ≤ 64) }
    requires workers { (1 ≤ plan.now.workers) × (plan.now.workers ≤ 64) }
    ensures reached { IfOk result (λ reached. Notes audits.old.items audits.new.items (λ told. Reaches (planned plan.now.workers plan.now.level) rest.entry (pointed rows.now) told reached)) }
    ensures stopped { IfErr result (λ o. IsInner o × UnlessFree o (IsRunOf (planned plan.now.workers plan.now.level) rest.entry (pointed rows.now) (Err o))) }
{
    let Some((step, steps)) = rest.steps.split_first() else {
        return Ok(Reached::Answer(run_end(rt, alloc, &rest, rows, plan, audits)?));
    };
    let (stepped, audit) = match run_step(rt, alloc, step, &rest.schema, rows, plan) {
        Ok(ran) => ran,
        Err(stop) => return Err(stage_outcome(rest.number, stop)),
    };
    let items = step_items(step, rows.len(), rows_after(&stepped));
    note(audits, rest.number, step_name(step), items, audit)?;
    let rest = behind(alloc, rest.number, &rest.schema, step, steps, rest.last)?;
    match stepped {
        Stepped::Picked(picks) => run_picks(rt, alloc, rest, &picks, plan, audits),
        Stepped::Made(table) => Ok(Reached::Table(table, rest)),
    }
}

// `run_picks` on the caller's thread alone.
fn run_picks_alone<'p, G: Gate + Sync>(
    alloc: Global,
    rest: Rest<'p>,
    rows: &[&Row],
    level: u32,
    gate: &G,
    audits: &mut Vec<StageAudit>,
) -> Result<Reached<'p>, Outcome>
    requires ready { IsReady rest }
    requires small { length rows.now ≤ 4194304 }
    requires level { (1 ≤ level) × (level ≤ 64) }
    ensures reached { IfOk result (λ reached. Notes audits.old.items audits.new.items (λ told. Reaches (alone level) rest.entry (pointed rows.now) told reached)) }
    ensures stopped { IfErr result (λ o. IsInner o × UnlessFree o (IsRunOf (alone level) rest.entry (pointed rows.now) (Err o))) }
{
    let Some((step, steps)) = rest.steps.split_first() else {
        return Ok(Reached::Answer(run_end_alone(alloc, &rest, rows, level, gate, audits)?));
    };
    let (stepped, audit) = match run_step_alone(alloc, step, &rest.schema, rows, level, gate) {
        Ok(ran) => ran,
        Err(stop) => return Err(stage_outcome(rest.number, stop)),
    };
    let items = step_items(step, rows.len(), rows_after(&stepped));
    note(audits, rest.number, step_name(step), items, audit)?;
    let rest = behind(alloc, rest.number, &rest.schema, step, steps, rest.last)?;
    match stepped {
        Stepped::Picked(picks) => run_picks_alone(alloc, rest, &picks, level, gate, audits),
        Stepped::Made(table) => Ok(Reached::Table(table, rest)),
    }
}

// All rows of a table.
fn all_rows(alloc: Global, table: &[Row]) -> Result<Vec<&Row>, Memory>
    ensures { IfOk result (λ rows. pointed rows.items ≡ table.now) }
{
    Ok(table.iter().collect(alloc)?)
}

// Runs steps over all rows of a table, as far as `run_picks` goes.
fn run_table<'p, G: Gate + Sync, T: Threads + Wait + Sync>(
    rt: &T,
    alloc: Global,
    rest: Rest<'p>,
    table: &[Row],
    plan: &Plan<'_, G>,
    audits: &mut Vec<StageAudit>,
) -> Result<Reached<'p>, Outcome>
    requires ready { IsReady rest }
    requires small { length table.now ≤ 4194304 }
    requires level { (1 ≤ plan.now.level) × (plan.now.level ≤ 64) }
    requires workers { (1 ≤ plan.now.workers) × (plan.now.workers ≤ 64) }
    ensures reached { IfOk result (λ reached. Notes audits.old.items audits.new.items (λ told. Reaches (planned plan.now.workers plan.now.level) rest.entry table.now told reached)) }
    ensures stopped { IfErr result (λ o. IsInner o × UnlessFree o (IsRunOf (planned plan.now.workers plan.now.level) rest.entry table.now (Err o))) }
{
    let rows = all_rows(alloc, table)?;
    run_picks(rt, alloc, rest, &rows, plan, audits)
}

// `run_table` on the caller's thread alone.
fn run_table_alone<'p, G: Gate + Sync>(
    alloc: Global,
    rest: Rest<'p>,
    table: &[Row],
    level: u32,
    gate: &G,
    audits: &mut Vec<StageAudit>,
) -> Result<Reached<'p>, Outcome>
    requires ready { IsReady rest }
    requires small { length table.now ≤ 4194304 }
    requires level { (1 ≤ level) × (level ≤ 64) }
    ensures reached { IfOk result (λ reached. Notes audits.old.items audits.new.items (λ told. Reaches (alone level) rest.entry table.now told reached)) }
    ensures stopped { IfErr result (λ o. IsInner o × UnlessFree o (IsRunOf (alone level) rest.entry table.now (Err o))) }
{
    let rows = all_rows(alloc, table)?;
    run_picks_alone(alloc, rest, &rows, level, gate, audits)
}

/// Runs what is left of a pipeline over the rows of a table, and notes the audits in step order. A table is dropped once
/// the rows that a step made of it are there; the rows of a table are not copied where steps only pick or reorder them.
pub fn run_stages<G: Gate + Sync, T: Threads + Wait + Sync>(
    rt: &T,
    alloc: Global,
    rest: Rest<'_>,
    table: Vec<Row>,
    plan: &Plan<'_, G>,
    audits: &mut Vec<StageAudit>,
) -> Result<Vec<u8>, Outcome>
    requires ready { IsReady rest }
    requires small { length table.items ≤ 4194304 }
    requires level { (1 ≤ plan.now.level) × (plan.now.level ≤ 64) }
    requires workers { (1 ≤ plan.now.workers) × (plan.now.workers ≤ 64) }
    ensures text { IfOk result (λ text. Notes audits.old.items audits.new.items (λ told. IsRunOf (planned plan.now.workers plan.now.level) rest.entry table.items (Ok (text.items, told)))) }
    ensures stopped { IfErr result (λ o. IsInner o × UnlessFree o (IsRunOf (planned plan.now.workers plan.now.level) rest.entry table.items (Err o))) }
{
    let reached = run_table(rt, alloc, rest, &table, plan, audits)?;
    drop(table);
    match reached {
        Reached::Answer(text) => Ok(text),
        Reached::Table(made, behind) => run_stages(rt, alloc, behind, made, plan, audits),
    }
}

/// `run_stages` on the caller's thread alone. It takes neither threads nor waits.
pub fn run_stages_alone<G: Gate + Sync>(
    alloc: Global,
    rest: Rest<'_>,
    table: Vec<Row>,
    level: u32,
    gate: &G,
    audits: &mut Vec<StageAudit>,
) -> Result<Vec<u8>, Outcome>
    requires ready { IsReady rest }
    requires small { length table.items ≤ 4194304 }
    requires level { (1 ≤ level) × (level ≤ 64) }
    ensures text { IfOk result (λ text. Notes audits.old.items audits.new.items (λ told. IsRunOf (alone level) rest.entry table.items (Ok (text.items, told)))) }
    ensures stopped { IfErr result (λ o. IsInner o × UnlessFree o (IsRunOf (alone level) rest.entry table.items (Err o))) }
{
    let reached = run_table_alone(alloc, rest, &table, level, gate, audits)?;
    drop(table);
    match reached {
        Reached::Answer(text) => Ok(text),
        Reached::Table(made, behind) => run_stages_alone(alloc, behind, made, level, gate, audits),
    }
}

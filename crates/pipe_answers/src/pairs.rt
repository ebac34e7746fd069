//! Last steps whose answer is two lists of rows.

ghost use Rattle.std.specs.Prelude.{◌≡◌, ◌≤◌, None, true, length, map, take, drop, take_while};
ghost use Rattle.std.specs.List.{filter};
ghost use Rattle.par_lists.specs.Choices.{filter_not};
ghost use Rattle.par_lists.specs.Cuts.{drop_while, place};
ghost use Rattle.par_task.specs.Marking.{low_flag, no_flag};
ghost use Rattle.par_task.specs.Manners.{alone};
ghost use Rattle.par_pool.specs.Plans.{planned};
ghost use Rattle.par_jobs.specs.Faults.{fault_of};
ghost use Rattle.pipe_checks.specs.Kinds.{fits};
ghost use Rattle.pipe_checks.specs.declared.uses.Want.TheVariants.{Truth as TruthWanted};
ghost use Rattle.pipe_expr.specs.Grammar.{view};
ghost use Rattle.pipe_eval.specs.Answers.{verdict_on};
ghost use Rattle.pipe_stages.specs.Audits.{IsRun};
ghost use Rattle.pipe_stages.specs.Rows.{pointed};
ghost use Rattle.pipe_stages.specs.Stages.{denied, holds};
ghost use Rattle.pipe_answers.specs.Lasts.{Gives};
ghost use Rattle.pipe_answers.specs.Texts as texts;

use crate::numbers::Told;
use crate::rows::parts;
use par_combiner::ArrayCombiner;
use par_edge::Gate;
use par_laws::{Mapper, Memory, Tried};
use par_pool::Plan;
use par_rows::{Row, Schema};
use pipe_eval::Condition;
use pipe_expr::Expr;
use pipe_stages::{CopySplitter, StepStop};
use std::alloc::Global;
use std::sync::Wait;
use std::thread::Threads;

/// The rows as a source.
type Source<'s, 'a> = CopySplitter<'s, &'a Row>;

/// Gathers the rows of a part.
type Picks<'a> = ArrayCombiner<&'a Row>;

/// A row itself.
struct Itself;

impl<'a> Mapper<&'a Row, &'a Row> for Itself {
    ghost mapped = { λ _ row. row };

    fn map(&self, _alloc: Global, item: &&'a Row) -> Result<&'a Row, Memory> {
        Ok(*item)
    }
}

/// The longest prefix of rows that pass, and the rest.
pub(crate) fn span<'a, G: Gate + Sync, T: Threads + Wait + Sync>(
    rt: &T,
    alloc: Global,
    e: &Expr,
    schema: &Schema,
    rows: &[&'a Row],
    plan: &Plan<'_, G>,
) -> Result<Told, StepStop>
    requires kind { fits schema.now.columns.items TruthWanted (view e.now) ≡ true }
    requires small { length rows.now ≤ 4194304 }
    requires level { (1 ≤ plan.now.level) × (plan.now.level ≤ 64) }
    requires workers { (1 ≤ plan.now.workers) × (plan.now.workers ≤ 64) }
    ensures { Gives (fault_of low_flag (map (denied schema.now.columns.items (view e.now)) (pointed rows.now))) (λ text. text ≡ texts.parts_text (take_while (holds schema.now.columns.items (view e.now)) (pointed rows.now)) (drop_while (holds schema.now.columns.items (view e.now)) (pointed rows.now))) (IsRun low_flag (denied schema.now.columns.items (view e.now)) (pointed rows.now) (planned plan.now.workers plan.now.level)) result }
{
    let test = Condition::bind(alloc, e, schema)?;
    let source = CopySplitter::new(rows);
    let (tried, audit) = par_transform::span::<Source<'_, 'a>, Picks<'a>, G, Condition, Itself, T>(
        rt, alloc, source, &test, &Itself, plan,
    )?;
    match tried {
        Tried::Got(both) => Ok((parts(alloc, &both.0, &both.1)?, Some(audit))),
        Tried::Fault(fault) => Err(StepStop::Fault(fault)),
    }
}

/// `span` on the caller's thread alone. It takes neither threads nor waits.
pub(crate) fn span_alone<'a, G: Gate>(
    alloc: Global,
    e: &Expr,
    schema: &Schema,
    rows: &[&'a Row],
    level: u32,
    gate: &G,
) -> Result<Told, StepStop>
    requires kind { fits schema.now.columns.items TruthWanted (view e.now) ≡ true }
    requires small { length rows.now ≤ 4194304 }
    requires level { (1 ≤ level) × (level ≤ 64) }
    ensures { Gives (fault_of low_flag (map (denied schema.now.columns.items (view e.now)) (pointed rows.now))) (λ text. text ≡ texts.parts_text (take_while (holds schema.now.columns.items (view e.now)) (pointed rows.now)) (drop_while (holds schema.now.columns.items (view e.now)) (pointed rows.now))) (IsRun low_flag (denied schema.now.columns.items (view e.now)) (pointed rows.now) (alone level)) result }
{
    let test = Condition::bind(alloc, e, schema)?;
    let source = CopySplitter::new(rows);
    let (tried, audit) = par_transform::span_alone::<
        Source<'_, 'a>,
        Picks<'a>,
        G,
        Condition,
        Itself,
    >(alloc, source, &test, &Itself, level, gate)?;
    match tried {
        Tried::Got(both) => Ok((parts(alloc, &both.0, &both.1)?, Some(audit))),
        Tried::Fault(fault) => Err(StepStop::Fault(fault)),
    }
}

/// The rows that pass, and those that don't.
pub(crate) fn partition<'a, G: Gate + Sync, T: Threads + Wait + Sync>(
    rt: &T,
    alloc: Global,
    e: &Expr,
    schema: &Schema,
    rows: &[&'a Row],
    plan: &Plan<'_, G>,
) -> Result<Told, StepStop>
    requires kind { fits schema.now.columns.items TruthWanted (view e.now) ≡ true }
    requires small { length rows.now ≤ 4194304 }
    requires level { (1 ≤ plan.now.level) × (plan.now.level ≤ 64) }
    requires workers { (1 ≤ plan.now.workers) × (plan.now.workers ≤ 64) }
    ensures { Gives (fault_of no_flag (map (verdict_on schema.now.columns.items (view e.now)) (pointed rows.now))) (λ text. text ≡ texts.parts_text (filter (holds schema.now.columns.items (view e.now)) (pointed rows.now)) (filter_not (holds schema.now.columns.items (view e.now)) (pointed rows.now))) (IsRun no_flag (verdict_on schema.now.columns.items (view e.now)) (pointed rows.now) (planned plan.now.workers plan.now.level)) result }
{
    let test = Condition::bind(alloc, e, schema)?;
    let source = CopySplitter::new(rows);
    let (tried, audit) = par_transform::partition::<
        Source<'_, 'a>,
        Picks<'a>,
        G,
        Condition,
        Itself,
        T,
    >(rt, alloc, source, &test, &Itself, plan)?;
    match tried {
        Tried::Got(sides) => Ok((parts(alloc, &sides.0, &sides.1)?, Some(audit))),
        Tried::Fault(fault) => Err(StepStop::Fault(fault)),
    }
}

/// `partition` on the caller's thread alone. It takes neither threads nor waits.
pub(crate) fn partition_alone<'a, G: Gate>(
    alloc: Global,
    e: &Expr,
    schema: &Schema,
    rows: &[&'a Row],
    level: u32,
    gate: &G,
) -> Result<Told, StepStop>
    requires kind { fits schema.now.columns.items TruthWanted (view e.now) ≡ true }
    requires small { length rows.now ≤ 4194304 }
    requires level { (1 ≤ level) × (level ≤ 64) }
    ensures { Gives (fault_of no_flag (map (verdict_on schema.now.columns.items (view e.now)) (pointed rows.now))) (λ text. text ≡ texts.parts_text (filter (holds schema.now.columns.items (view e.now)) (pointed rows.now)) (filter_not (holds schema.now.columns.items (view e.now)) (pointed rows.now))) (IsRun no_flag (verdict_on schema.now.columns.items (view e.now)) (pointed rows.now) (alone level)) result }
{
    let test = Condition::bind(alloc, e, schema)?;
    let source = CopySplitter::new(rows);
    let (tried, audit) = par_transform::partition_alone::<
        Source<'_, 'a>,
        Picks<'a>,
        G,
        Condition,
        Itself,
    >(alloc, source, &test, &Itself, level, gate)?;
    match tried {
        Tried::Got(sides) => Ok((parts(alloc, &sides.0, &sides.1)?, Some(audit))),
        Tried::Fault(fault) => Err(StepStop::Fault(fault)),
    }
}

/// The first rows, so many, and the rest. It has no audit.
pub(crate) fn split_at<'a>(alloc: Global, n: i64, rows: &[&'a Row]) -> Result<Told, StepStop>
    requires { length rows.now ≤ 4194304 }
    ensures { Gives None (λ text. text ≡ texts.parts_text (take (place n) (pointed rows.now)) (drop (place n) (pointed rows.now))) (λ audit. audit ≡ None) result }
{
    let source = CopySplitter::new(rows);
    let (front, rest) = par_transform::split_at::<Source<'_, 'a>, Picks<'a>, Itself>(
        alloc, source, n, &Itself,
    )?;
    Ok((parts(alloc, &front, &rest)?, None))
}

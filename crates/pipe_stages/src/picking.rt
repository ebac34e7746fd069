//! Steps that pick rows or reorder them.
ghost use Rattle.std.specs.Prelude.{◌≡◌, ◌≤◌, length, true, Ok, None, take, drop, reverse, slice_range};
ghost use Rattle.par_lists.specs.Cuts.{place};
ghost use Rattle.par_task.specs.Marking.{low_flag, no_flag, no_test};
ghost use Rattle.par_task.specs.Manners.{alone};
ghost use Rattle.par_pool.specs.Plans.{planned};
ghost use Rattle.par_jobs.specs.Runs.{untested};
ghost use Rattle.pipe_checks.specs.Kinds.{fits};
ghost use Rattle.pipe_checks.specs.declared.uses.Want.TheVariants.{Truth as TruthWanted};
ghost use Rattle.pipe_expr.specs.Grammar.{view};
ghost use Rattle.pipe_eval.specs.Answers.{verdict_on};
ghost use Rattle.pipe_stages.specs.Audits.{IsRun};
ghost use Rattle.pipe_stages.specs.Rows.{pointed};
ghost use Rattle.pipe_stages.specs.Runs.{Gives, ran};
ghost use Rattle.pipe_stages.specs.Stages.{denied, dropped_while, filtered, refused, taken_while};

use crate::picks::CopySplitter;
use crate::stepped::Stepped;
use crate::stop::StepStop;
use par_combiner::ArrayCombiner;
use par_edge::Gate;
use par_laws::{Mapper, Memory, Tried};
use par_pool::Plan;
use par_rows::{Row, Schema};
use par_task::Audit;
use pipe_eval::Condition;
use pipe_expr::Expr;
use std::alloc::Global;
use std::sync::Wait;
use std::thread::Threads;

/// The rows after a step, and its audit if it has one.
pub(crate) type Ran<'a> = (Stepped<'a>, Option<Audit>);

/// The rows of a step as a source.
pub(crate) type Source<'s, 'a> = CopySplitter<'s, &'a Row>;

/// Gathers the rows that are picked.
type Picks<'a> = ArrayCombiner<&'a Row>;

/// A row itself.
struct Itself;

impl<'a> Mapper<&'a Row, &'a Row> for Itself {
    ghost mapped = { λ _ row. row };

    fn map(&self, _alloc: Global, item: &&'a Row) -> Result<&'a Row, Memory> {
        Ok(*item)
    }
}

// What a test picked, or the fault in its place.
fn picked<'a>(tried: Tried<Vec<&'a Row>>, audit: Audit) -> Result<Ran<'a>, StepStop>
    ensures { result ≡ ran tried.entry audit }
{
    match tried {
        Tried::Got(rows) => Ok((Stepped::Picked(rows), Some(audit))),
        Tried::Fault(fault) => Err(StepStop::Fault(fault)),
    }
}

/// The rows that pass.
pub(crate) fn filter<'a, G: Gate + Sync, T: Threads + Wait + Sync>(
    rt: &T,
    alloc: Global,
    e: &Expr,
    schema: &Schema,
    rows: &[&'a Row],
    plan: &Plan<'_, G>,
) -> Result<Ran<'a>, StepStop>
    requires kind { fits schema.now.columns.items TruthWanted (view e.now) ≡ true }
    requires small { length rows.now ≤ 4194304 }
    requires level { (1 ≤ plan.now.level) × (plan.now.level ≤ 64) }
    requires workers { (1 ≤ plan.now.workers) × (plan.now.workers ≤ 64) }
    ensures { Gives (filtered schema.now.columns.items (view e.now) (pointed rows.now)) (IsRun no_flag (verdict_on schema.now.columns.items (view e.now)) (pointed rows.now) (planned plan.now.workers plan.now.level)) result }
{
    let test = Condition::bind(alloc, e, schema)?;
    let source = CopySplitter::new(rows);
    let (kept, audit) = par_transform::filter::<Source<'_, 'a>, Picks<'a>, G, Condition, Itself, T>(
        rt, alloc, source, &test, &Itself, plan,
    )?;
    picked(kept, audit)
}

/// `filter` on the caller's thread alone. It takes neither threads nor waits.
pub(crate) fn filter_alone<'a, G: Gate>(
    alloc: Global,
    e: &Expr,
    schema: &Schema,
    rows: &[&'a Row],
    level: u32,
    gate: &G,
) -> Result<Ran<'a>, StepStop>
    requires kind { fits schema.now.columns.items TruthWanted (view e.now) ≡ true }
    requires small { length rows.now ≤ 4194304 }
    requires level { (1 ≤ level) × (level ≤ 64) }
    ensures { Gives (filtered schema.now.columns.items (view e.now) (pointed rows.now)) (IsRun no_flag (verdict_on schema.now.columns.items (view e.now)) (pointed rows.now) (alone level)) result }
{
    let test = Condition::bind(alloc, e, schema)?;
    let source = CopySplitter::new(rows);
    let (kept, audit) = par_transform::filter_alone::<
        Source<'_, 'a>,
        Picks<'a>,
        G,
        Condition,
        Itself,
    >(alloc, source, &test, &Itself, level, gate)?;
    picked(kept, audit)
}

/// The rows that don't pass.
pub(crate) fn filter_not<'a, G: Gate + Sync, T: Threads + Wait + Sync>(
    rt: &T,
    alloc: Global,
    e: &Expr,
    schema: &Schema,
    rows: &[&'a Row],
    plan: &Plan<'_, G>,
) -> Result<Ran<'a>, StepStop>
    requires kind { fits schema.now.columns.items TruthWanted (view e.now) ≡ true }
    requires small { length rows.now ≤ 4194304 }
    requires level { (1 ≤ plan.now.level) × (plan.now.level ≤ 64) }
    requires workers { (1 ≤ plan.now.workers) × (plan.now.workers ≤ 64) }
    ensures { Gives (refused schema.now.columns.items (view e.now) (pointed rows.now)) (IsRun no_flag (verdict_on schema.now.columns.items (view e.now)) (pointed rows.now) (planned plan.now.workers plan.now.level)) result }
{
    let test = Condition::bind(alloc, e, schema)?;
    let source = CopySplitter::new(rows);
    let (kept, audit) = par_transform::filter_not::<
        Source<'_, 'a>,
        Picks<'a>,
        G,
        Condition,
        Itself,
        T,
    >(rt, alloc, source, &test, &Itself, plan)?;
    picked(kept, audit)
}

/// `filter_not` on the caller's thread alone. It takes neither threads nor waits.
pub(crate) fn filter_not_alone<'a, G: Gate>(
    alloc: Global,
    e: &Expr,
    schema: &Schema,
    rows: &[&'a Row],
    level: u32,
    gate: &G,
) -> Result<Ran<'a>, StepStop>
    requires kind { fits schema.now.columns.items TruthWanted (view e.now) ≡ true }
    requires small { length rows.now ≤ 4194304 }
    requires level { (1 ≤ level) × (level ≤ 64) }
    ensures { Gives (refused schema.now.columns.items (view e.now) (pointed rows.now)) (IsRun no_flag (verdict_on schema.now.columns.items (view e.now)) (pointed rows.now) (alone level)) result }
{
    let test = Condition::bind(alloc, e, schema)?;
    let source = CopySplitter::new(rows);
    let (kept, audit) = par_transform::filter_not_alone::<
        Source<'_, 'a>,
        Picks<'a>,
        G,
        Condition,
        Itself,
    >(alloc, source, &test, &Itself, level, gate)?;
    picked(kept, audit)
}

/// The longest prefix of rows that pass.
pub(crate) fn take_while<'a, G: Gate + Sync, T: Threads + Wait + Sync>(
    rt: &T,
    alloc: Global,
    e: &Expr,
    schema: &Schema,
    rows: &[&'a Row],
    plan: &Plan<'_, G>,
) -> Result<Ran<'a>, StepStop>
    requires kind { fits schema.now.columns.items TruthWanted (view e.now) ≡ true }
    requires small { length rows.now ≤ 4194304 }
    requires level { (1 ≤ plan.now.level) × (plan.now.level ≤ 64) }
    requires workers { (1 ≤ plan.now.workers) × (plan.now.workers ≤ 64) }
    ensures { Gives (taken_while schema.now.columns.items (view e.now) (pointed rows.now)) (IsRun low_flag (denied schema.now.columns.items (view e.now)) (pointed rows.now) (planned plan.now.workers plan.now.level)) result }
{
    let test = Condition::bind(alloc, e, schema)?;
    let source = CopySplitter::new(rows);
    let (kept, audit) = par_transform::take_while::<
        Source<'_, 'a>,
        Picks<'a>,
        G,
        Condition,
        Itself,
        T,
    >(rt, alloc, source, &test, &Itself, plan)?;
    picked(kept, audit)
}

/// `take_while` on the caller's thread alone. It takes neither threads nor waits.
pub(crate) fn take_while_alone<'a, G: Gate>(
    alloc: Global,
    e: &Expr,
    schema: &Schema,
    rows: &[&'a Row],
    level: u32,
    gate: &G,
) -> Result<Ran<'a>, StepStop>
    requires kind { fits schema.now.columns.items TruthWanted (view e.now) ≡ true }
    requires small { length rows.now ≤ 4194304 }
    requires level { (1 ≤ level) × (level ≤ 64) }
    ensures { Gives (taken_while schema.now.columns.items (view e.now) (pointed rows.now)) (IsRun low_flag (denied schema.now.columns.items (view e.now)) (pointed rows.now) (alone level)) result }
{
    let test = Condition::bind(alloc, e, schema)?;
    let source = CopySplitter::new(rows);
    let (kept, audit) = par_transform::take_while_alone::<
        Source<'_, 'a>,
        Picks<'a>,
        G,
        Condition,
        Itself,
    >(alloc, source, &test, &Itself, level, gate)?;
    picked(kept, audit)
}

/// What the longest prefix of rows that pass leaves.
pub(crate) fn drop_while<'a, G: Gate + Sync, T: Threads + Wait + Sync>(
    rt: &T,
    alloc: Global,
    e: &Expr,
    schema: &Schema,
    rows: &[&'a Row],
    plan: &Plan<'_, G>,
) -> Result<Ran<'a>, StepStop>
    requires kind { fits schema.now.columns.items TruthWanted (view e.now) ≡ true }
    requires small { length rows.now ≤ 4194304 }
    requires level { (1 ≤ plan.now.level) × (plan.now.level ≤ 64) }
    requires workers { (1 ≤ plan.now.workers) × (plan.now.workers ≤ 64) }
    ensures { Gives (dropped_while schema.now.columns.items (view e.now) (pointed rows.now)) (IsRun low_flag (denied schema.now.columns.items (view e.now)) (pointed rows.now) (planned plan.now.workers plan.now.level)) result }
{
    let test = Condition::bind(alloc, e, schema)?;
    let source = CopySplitter::new(rows);
    let (kept, audit) = par_transform::drop_while::<
        Source<'_, 'a>,
        Picks<'a>,
        G,
        Condition,
        Itself,
        T,
    >(rt, alloc, source, &test, &Itself, plan)?;
    picked(kept, audit)
}

/// `drop_while` on the caller's thread alone. It takes neither threads nor waits.
pub(crate) fn drop_while_alone<'a, G: Gate>(
    alloc: Global,
    e: &Expr,
    schema: &Schema,
    rows: &[&'a Row],
    level: u32,
    gate: &G,
) -> Result<Ran<'a>, StepStop>
    requires kind { fits schema.now.columns.items TruthWanted (view e.now) ≡ true }
    requires small { length rows.now ≤ 4194304 }
    requires level { (1 ≤ level) × (level ≤ 64) }
    ensures { Gives (dropped_while schema.now.columns.items (view e.now) (pointed rows.now)) (IsRun low_flag (denied schema.now.columns.items (view e.now)) (pointed rows.now) (alone level)) result }
{
    let test = Condition::bind(alloc, e, schema)?;
    let source = CopySplitter::new(rows);
    let (kept, audit) = par_transform::drop_while_alone::<
        Source<'_, 'a>,
        Picks<'a>,
        G,
        Condition,
        Itself,
    >(alloc, source, &test, &Itself, level, gate)?;
    picked(kept, audit)
}

/// The last row first.
pub(crate) fn reverse<'a, G: Gate + Sync, T: Threads + Wait + Sync>(
    rt: &T,
    alloc: Global,
    rows: &[&'a Row],
    plan: &Plan<'_, G>,
) -> Result<Ran<'a>, StepStop>
    requires small { length rows.now ≤ 4194304 }
    requires level { (1 ≤ plan.now.level) × (plan.now.level ≤ 64) }
    requires workers { (1 ≤ plan.now.workers) × (plan.now.workers ≤ 64) }
    ensures { Gives (Ok (reverse (pointed rows.now))) (IsRun no_test untested (pointed rows.now) (planned plan.now.workers plan.now.level)) result }
{
    let source = CopySplitter::new(rows);
    let (turned, audit) = par_transform::reverse::<Source<'_, 'a>, Picks<'a>, G, Itself, T>(
        rt, alloc, source, &Itself, plan,
    )?;
    Ok((Stepped::Picked(turned), Some(audit)))
}

/// `reverse` on the caller's thread alone. It takes neither threads nor waits.
pub(crate) fn reverse_alone<'a, G: Gate>(
    alloc: Global,
    rows: &[&'a Row],
    level: u32,
    gate: &G,
) -> Result<Ran<'a>, StepStop>
    requires small { length rows.now ≤ 4194304 }
    requires level { (1 ≤ level) × (level ≤ 64) }
    ensures { Gives (Ok (reverse (pointed rows.now))) (IsRun no_test untested (pointed rows.now) (alone level)) result }
{
    let source = CopySplitter::new(rows);
    let (turned, audit) = par_transform::reverse_alone::<Source<'_, 'a>, Picks<'a>, G, Itself>(
        alloc, source, &Itself, level, gate,
    )?;
    Ok((Stepped::Picked(turned), Some(audit)))
}

/// The first rows, so many. It has no audit, as the other cuts.
pub(crate) fn take<'a>(alloc: Global, n: i64, rows: &[&'a Row]) -> Result<Ran<'a>, StepStop>
    requires { length rows.now ≤ 4194304 }
    ensures { Gives (Ok (take (place n) (pointed rows.now))) (λ audit. audit ≡ None) result }
{
    let source = CopySplitter::new(rows);
    let front = par_transform::take::<Source<'_, 'a>, Picks<'a>, Itself>(
        alloc, source, n, &Itself,
    )?;
    Ok((Stepped::Picked(front), None))
}

/// All but the first rows, so many.
pub(crate) fn drop<'a>(alloc: Global, n: i64, rows: &[&'a Row]) -> Result<Ran<'a>, StepStop>
    requires { length rows.now ≤ 4194304 }
    ensures { Gives (Ok (drop (place n) (pointed rows.now))) (λ audit. audit ≡ None) result }
{
    let source = CopySplitter::new(rows);
    let rest = par_transform::drop::<Source<'_, 'a>, Picks<'a>, Itself>(alloc, source, n, &Itself)?;
    Ok((Stepped::Picked(rest), None))
}

/// The rows from one index on and before another.
pub(crate) fn slice<'a>(
    alloc: Global,
    a: i64,
    b: i64,
    rows: &[&'a Row],
) -> Result<Ran<'a>, StepStop>
    requires { length rows.now ≤ 4194304 }
    ensures { Gives (Ok (slice_range (pointed rows.now) (place a) (place b))) (λ audit. audit ≡ None) result }
{
    let source = CopySplitter::new(rows);
    let part = par_transform::slice::<Source<'_, 'a>, Picks<'a>, Itself>(
        alloc, source, a, b, &Itself,
    )?;
    Ok((Stepped::Picked(part), None))
}

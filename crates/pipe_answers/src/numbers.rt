//! Last steps that make one value of all the rows: how many there are or pass, and folds.

ghost use Rattle.std.specs.Prelude.{◌≡◌, ◌≤◌, ℤ, pos, true, None, Some, length, map, encode_utf8_all, IfOk, IfErr};
ghost use Rattle.std.specs.Int.{int_min, int_max};
ghost use Rattle.std.specs.List.{count_by, fold, reduce};
ghost use Rattle.par_laws.specs.Guarded.{made_map};
ghost use Rattle.par_laws.specs.Wrapping.{wrapped_product, wrapped_sum};
ghost use Rattle.par_task.specs.Marking.{no_flag, no_test};
ghost use Rattle.par_task.specs.Manners.{alone};
ghost use Rattle.par_pool.specs.Plans.{planned};
ghost use Rattle.par_jobs.specs.Faults.{fault_of};
ghost use Rattle.par_jobs.specs.Runs.{IsRunOver, untested};
ghost use Rattle.pipe_checks.specs.Kinds.{fits};
ghost use Rattle.pipe_checks.specs.declared.uses.Want.TheVariants.{Number as NumberWanted, Shown as ShownWanted, Truth as TruthWanted};
ghost use Rattle.pipe_expr.specs.Grammar.{view};
ghost use Rattle.pipe_eval.specs.Answers.{number_made, text_made, verdict_on};
ghost use Rattle.pipe_stages.specs.Audits.{IsRun};
ghost use Rattle.pipe_stages.specs.Rows.{pointed};
ghost use Rattle.pipe_stages.specs.Stages.{holds};
ghost use Rattle.pipe_answers.specs.Lasts.{Gives, StopsBy, numbers, separated_by};
ghost use Rattle.pipe_answers.specs.Makes.{made_fault, made_values};
ghost use Rattle.pipe_answers.specs.Texts as texts;

use crate::made::{Present, fold_made_alone, value_of};
use crate::rows::with_table;
use crate::texts;
use par_edge::Gate;
use par_laws::{Greatest, Guard, Least, Product, Sum, Tried};
use par_pool::Plan;
use par_rows::{Row, Schema};
use par_task::Audit;
use pipe_eval::{Condition, Number};
use pipe_expr::Expr;
use pipe_stages::{CopySplitter, StepStop};
use std::alloc::Global;
use std::sync::Wait;
use std::thread::Threads;

/// The text of an answer, and the audit of its run if it has one.
pub(crate) type Told = (Vec<u8>, Option<Audit>);

/// The names of the columns, and all the rows.
pub(crate) fn print(alloc: Global, schema: &Schema, rows: &[&Row]) -> Result<Told, StepStop>
    ensures { Gives None (λ text. text ≡ texts.table_text schema.now.columns.items (pointed rows.now)) (λ audit. audit ≡ None) result }
{
    let text = with_table(alloc, Vec::new(alloc), &schema.columns, rows)?;
    Ok((text, None))
}

/// How many rows there are.
pub(crate) fn size(alloc: Global, rows: &[&Row]) -> Result<Told, StepStop>
    ensures { Gives None (λ text. text ≡ texts.count_text (length (pointed rows.now))) (λ audit. audit ≡ None) result }
{
    let text = texts::count(alloc, rows.len() as u64)?;
    Ok((text, None))
}

/// How many rows pass.
pub(crate) fn count<G: Gate + Sync, T: Threads + Wait + Sync>(
    rt: &T,
    alloc: Global,
    e: &Expr,
    schema: &Schema,
    rows: &[&Row],
    plan: &Plan<'_, G>,
) -> Result<Told, StepStop>
    requires kind { fits schema.now.columns.items TruthWanted (view e.now) ≡ true }
    requires small { length rows.now ≤ 4194304 }
    requires level { (1 ≤ plan.now.level) × (plan.now.level ≤ 64) }
    requires workers { (1 ≤ plan.now.workers) × (plan.now.workers ≤ 64) }
    ensures { Gives (fault_of no_flag (map (verdict_on schema.now.columns.items (view e.now)) (pointed rows.now))) (λ text. text ≡ texts.count_text (count_by (holds schema.now.columns.items (view e.now)) (pointed rows.now))) (IsRun no_flag (verdict_on schema.now.columns.items (view e.now)) (pointed rows.now) (planned plan.now.workers plan.now.level)) result }
{
    let test = Condition::bind(alloc, e, schema)?;
    let source = CopySplitter::new(rows);
    let (tried, audit) = par_access::count(rt, alloc, source, &test, plan)?;
    match tried {
        Tried::Got(count) => Ok((texts::count(alloc, u64::from(count))?, Some(audit))),
        Tried::Fault(fault) => Err(StepStop::Fault(fault)),
    }
}

/// `count` on the caller's thread alone. It takes neither threads nor waits.
pub(crate) fn count_alone<G: Gate>(
    alloc: Global,
    e: &Expr,
    schema: &Schema,
    rows: &[&Row],
    level: u32,
    gate: &G,
) -> Result<Told, StepStop>
    requires kind { fits schema.now.columns.items TruthWanted (view e.now) ≡ true }
    requires small { length rows.now ≤ 4194304 }
    requires level { (1 ≤ level) × (level ≤ 64) }
    ensures { Gives (fault_of no_flag (map (verdict_on schema.now.columns.items (view e.now)) (pointed rows.now))) (λ text. text ≡ texts.count_text (count_by (holds schema.now.columns.items (view e.now)) (pointed rows.now))) (IsRun no_flag (verdict_on schema.now.columns.items (view e.now)) (pointed rows.now) (alone level)) result }
{
    let test = Condition::bind(alloc, e, schema)?;
    let source = CopySplitter::new(rows);
    let (tried, audit) = par_access::count_alone(alloc, source, &test, level, gate)?;
    match tried {
        Tried::Got(count) => Ok((texts::count(alloc, u64::from(count))?, Some(audit))),
        Tried::Fault(fault) => Err(StepStop::Fault(fault)),
    }
}

/// The sum of the rows' numbers. It wraps at the ends of 64 bits, and of no row it is 0.
pub(crate) fn sum<G: Gate + Sync, T: Threads + Wait + Sync>(
    rt: &T,
    alloc: Global,
    e: &Expr,
    schema: &Schema,
    rows: &[&Row],
    plan: &Plan<'_, G>,
) -> Result<Told, StepStop>
    requires kind { fits schema.now.columns.items NumberWanted (view e.now) ≡ true }
    requires small { length rows.now ≤ 4194304 }
    requires level { (1 ≤ plan.now.level) × (plan.now.level ≤ 64) }
    requires workers { (1 ≤ plan.now.workers) × (plan.now.workers ≤ 64) }
    ensures { Gives (made_fault (map (number_made schema.now.columns.items (view e.now)) (pointed rows.now))) (λ text. text ≡ texts.number_text (fold wrapped_sum (pos 0) (numbers schema.now.columns.items (view e.now) (pointed rows.now)))) (IsRun no_test untested (pointed rows.now) (planned plan.now.workers plan.now.level)) result }
{
    let number = Number::bind(alloc, e, schema)?;
    let guard = Guard {
        how: &Sum,
        of: &number,
    };
    let source = CopySplitter::new(rows);
    let (folded, audit) = par_access::aggregate(rt, alloc, source, &guard, plan)?;
    let sum = value_of(&Sum, &number, rows, folded)?;
    Ok((texts::number(alloc, sum)?, Some(audit)))
}

/// `sum` on the caller's thread alone. It takes neither threads nor waits.
pub(crate) fn sum_alone<G: Gate>(
    alloc: Global,
    e: &Expr,
    schema: &Schema,
    rows: &[&Row],
    level: u32,
    gate: &G,
) -> Result<Told, StepStop>
    requires kind { fits schema.now.columns.items NumberWanted (view e.now) ≡ true }
    requires small { length rows.now ≤ 4194304 }
    requires level { (1 ≤ level) × (level ≤ 64) }
    ensures { Gives (made_fault (map (number_made schema.now.columns.items (view e.now)) (pointed rows.now))) (λ text. text ≡ texts.number_text (fold wrapped_sum (pos 0) (numbers schema.now.columns.items (view e.now) (pointed rows.now)))) (IsRun no_test untested (pointed rows.now) (alone level)) result }
{
    let number = Number::bind(alloc, e, schema)?;
    let (sum, audit) = fold_made_alone(alloc, &Sum, &number, rows, level, gate)?;
    Ok((texts::number(alloc, sum)?, Some(audit)))
}

/// The product of the rows' numbers. It wraps at the ends of 64 bits, and of no row it is 1.
pub(crate) fn product<G: Gate + Sync, T: Threads + Wait + Sync>(
    rt: &T,
    alloc: Global,
    e: &Expr,
    schema: &Schema,
    rows: &[&Row],
    plan: &Plan<'_, G>,
) -> Result<Told, StepStop>
    requires kind { fits schema.now.columns.items NumberWanted (view e.now) ≡ true }
    requires small { length rows.now ≤ 4194304 }
    requires level { (1 ≤ plan.now.level) × (plan.now.level ≤ 64) }
    requires workers { (1 ≤ plan.now.workers) × (plan.now.workers ≤ 64) }
    ensures { Gives (made_fault (map (number_made schema.now.columns.items (view e.now)) (pointed rows.now))) (λ text. text ≡ texts.number_text (fold wrapped_product (pos 1) (numbers schema.now.columns.items (view e.now) (pointed rows.now)))) (IsRun no_test untested (pointed rows.now) (planned plan.now.workers plan.now.level)) result }
{
    let number = Number::bind(alloc, e, schema)?;
    let guard = Guard {
        how: &Product,
        of: &number,
    };
    let source = CopySplitter::new(rows);
    let (folded, audit) = par_access::aggregate(rt, alloc, source, &guard, plan)?;
    let product = value_of(&Product, &number, rows, folded)?;
    Ok((texts::number(alloc, product)?, Some(audit)))
}

/// `product` on the caller's thread alone. It takes neither threads nor waits.
pub(crate) fn product_alone<G: Gate>(
    alloc: Global,
    e: &Expr,
    schema: &Schema,
    rows: &[&Row],
    level: u32,
    gate: &G,
) -> Result<Told, StepStop>
    requires kind { fits schema.now.columns.items NumberWanted (view e.now) ≡ true }
    requires small { length rows.now ≤ 4194304 }
    requires level { (1 ≤ level) × (level ≤ 64) }
    ensures { Gives (made_fault (map (number_made schema.now.columns.items (view e.now)) (pointed rows.now))) (λ text. text ≡ texts.number_text (fold wrapped_product (pos 1) (numbers schema.now.columns.items (view e.now) (pointed rows.now)))) (IsRun no_test untested (pointed rows.now) (alone level)) result }
{
    let number = Number::bind(alloc, e, schema)?;
    let (product, audit) = fold_made_alone(alloc, &Product, &number, rows, level, gate)?;
    Ok((texts::number(alloc, product)?, Some(audit)))
}

/// The least of the rows' numbers, or `none` of no row.
pub(crate) fn min<G: Gate + Sync, T: Threads + Wait + Sync>(
    rt: &T,
    alloc: Global,
    e: &Expr,
    schema: &Schema,
    rows: &[&Row],
    plan: &Plan<'_, G>,
) -> Result<Told, StepStop>
    requires kind { fits schema.now.columns.items NumberWanted (view e.now) ≡ true }
    requires small { length rows.now ≤ 4194304 }
    requires level { (1 ≤ plan.now.level) × (plan.now.level ≤ 64) }
    requires workers { (1 ≤ plan.now.workers) × (plan.now.workers ≤ 64) }
    ensures { Gives (made_fault (map (number_made schema.now.columns.items (view e.now)) (pointed rows.now))) (λ text. text ≡ texts.number_or_none (reduce int_min (numbers schema.now.columns.items (view e.now) (pointed rows.now)))) (IsRun no_test untested (pointed rows.now) (planned plan.now.workers plan.now.level)) result }
{
    let number = Number::bind(alloc, e, schema)?;
    let present = Present { of: &number };
    let guard = Guard {
        how: &Least,
        of: &present,
    };
    let source = CopySplitter::new(rows);
    let (folded, audit) = par_access::aggregate(rt, alloc, source, &guard, plan)?;
    let least = value_of(&Least, &present, rows, folded)?;
    Ok((texts::number_or_none(alloc, least)?, Some(audit)))
}

/// `min` on the caller's thread alone. It takes neither threads nor waits.
pub(crate) fn min_alone<G: Gate>(
    alloc: Global,
    e: &Expr,
    schema: &Schema,
    rows: &[&Row],
    level: u32,
    gate: &G,
) -> Result<Told, StepStop>
    requires kind { fits schema.now.columns.items NumberWanted (view e.now) ≡ true }
    requires small { length rows.now ≤ 4194304 }
    requires level { (1 ≤ level) × (level ≤ 64) }
    ensures { Gives (made_fault (map (number_made schema.now.columns.items (view e.now)) (pointed rows.now))) (λ text. text ≡ texts.number_or_none (reduce int_min (numbers schema.now.columns.items (view e.now) (pointed rows.now)))) (IsRun no_test untested (pointed rows.now) (alone level)) result }
{
    let number = Number::bind(alloc, e, schema)?;
    let present = Present { of: &number };
    let (least, audit) = fold_made_alone(alloc, &Least, &present, rows, level, gate)?;
    Ok((texts::number_or_none(alloc, least)?, Some(audit)))
}

/// The greatest of the rows' numbers, or `none` of no row.
pub(crate) fn max<G: Gate + Sync, T: Threads + Wait + Sync>(
    rt: &T,
    alloc: Global,
    e: &Expr,
    schema: &Schema,
    rows: &[&Row],
    plan: &Plan<'_, G>,
) -> Result<Told, StepStop>
    requires kind { fits schema.now.columns.items NumberWanted (view e.now) ≡ true }
    requires small { length rows.now ≤ 4194304 }
    requires level { (1 ≤ plan.now.level) × (plan.now.level ≤ 64) }
    requires workers { (1 ≤ plan.now.workers) × (plan.now.workers ≤ 64) }
    ensures { Gives (made_fault (map (number_made schema.now.columns.items (view e.now)) (pointed rows.now))) (λ text. text ≡ texts.number_or_none (reduce int_max (numbers schema.now.columns.items (view e.now) (pointed rows.now)))) (IsRun no_test untested (pointed rows.now) (planned plan.now.workers plan.now.level)) result }
{
    let number = Number::bind(alloc, e, schema)?;
    let present = Present { of: &number };
    let guard = Guard {
        how: &Greatest,
        of: &present,
    };
    let source = CopySplitter::new(rows);
    let (folded, audit) = par_access::aggregate(rt, alloc, source, &guard, plan)?;
    let greatest = value_of(&Greatest, &present, rows, folded)?;
    Ok((texts::number_or_none(alloc, greatest)?, Some(audit)))
}

/// `max` on the caller's thread alone. It takes neither threads nor waits.
pub(crate) fn max_alone<G: Gate>(
    alloc: Global,
    e: &Expr,
    schema: &Schema,
    rows: &[&Row],
    level: u32,
    gate: &G,
) -> Result<Told, StepStop>
    requires kind { fits schema.now.columns.items NumberWanted (view e.now) ≡ true }
    requires small { length rows.now ≤ 4194304 }
    requires level { (1 ≤ level) × (level ≤ 64) }
    ensures { Gives (made_fault (map (number_made schema.now.columns.items (view e.now)) (pointed rows.now))) (λ text. text ≡ texts.number_or_none (reduce int_max (numbers schema.now.columns.items (view e.now) (pointed rows.now)))) (IsRun no_test untested (pointed rows.now) (alone level)) result }
{
    let number = Number::bind(alloc, e, schema)?;
    let present = Present { of: &number };
    let (greatest, audit) = fold_made_alone(alloc, &Greatest, &present, rows, level, gate)?;
    Ok((texts::number_or_none(alloc, greatest)?, Some(audit)))
}

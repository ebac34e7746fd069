//! The last step that joins texts.

ghost use Rattle.std.specs.Prelude.{◌≡◌, ◌≤◌, [], true, length, map, encode_utf8_all, unwrap_or, IfOk};
ghost use Rattle.par_task.specs.Marking.{no_test};
ghost use Rattle.par_task.specs.Manners.{alone};
ghost use Rattle.par_pool.specs.Plans.{planned};
ghost use Rattle.par_jobs.specs.Runs.{untested};
ghost use Rattle.pipe_checks.specs.Kinds.{fits};
ghost use Rattle.pipe_checks.specs.declared.uses.Want.TheVariants.{Shown as ShownWanted};
ghost use Rattle.pipe_expr.specs.Grammar.{view};
ghost use Rattle.pipe_eval.specs.Answers.{text_made};
ghost use Rattle.pipe_stages.specs.Audits.{IsRun};
ghost use Rattle.pipe_stages.specs.Rows.{pointed};
ghost use Rattle.pipe_answers.specs.Lasts.{Gives, separated_by};
ghost use Rattle.pipe_answers.specs.Makes.{made_fault, made_values};
ghost use Rattle.pipe_answers.specs.Texts as texts;

use crate::made::{Present, fold_made_alone, value_of};
use crate::numbers::Told;
use crate::texts::word;
use par_edge::Gate;
use par_laws::{Guard, Joined, Keep, Memory, Words};
use par_pool::Plan;
use par_rows::{Row, Schema};
use pipe_eval::Shown;
use pipe_expr::Expr;
use pipe_stages::{CopySplitter, StepStop};
use std::alloc::Global;
use std::sync::Wait;
use std::thread::Threads;

// The text that was joined, or the empty one of no row, with its line feed.
fn joined_text(alloc: Global, joined: Option<Words>) -> Result<Vec<u8>, Memory>
    ensures { IfOk result (λ text. text.items ≡ texts.line (encode_utf8_all (unwrap_or joined []))) }
{
    match joined {
        Some(words) => word(alloc, words.as_str()),
        None => word(alloc, ""),
    }
}

/// The texts of the rows' values, with a separator between them.
pub(crate) fn mk_string<G: Gate + Sync, T: Threads + Wait + Sync>(
    rt: &T,
    alloc: Global,
    e: &Expr,
    sep: &Words,
    schema: &Schema,
    rows: &[&Row],
    plan: &Plan<'_, G>,
) -> Result<Told, StepStop>
    requires kind { fits schema.now.columns.items ShownWanted (view e.now) ≡ true }
    requires small { length rows.now ≤ 4194304 }
    requires level { (1 ≤ plan.now.level) × (plan.now.level ≤ 64) }
    requires workers { (1 ≤ plan.now.workers) × (plan.now.workers ≤ 64) }
    ensures { Gives (made_fault (map (text_made schema.now.columns.items (view e.now)) (pointed rows.now))) (λ text. text ≡ texts.line (encode_utf8_all (separated_by sep.now (made_values (map (text_made schema.now.columns.items (view e.now)) (pointed rows.now)))))) (IsRun no_test untested (pointed rows.now) (planned plan.now.workers plan.now.level)) result }
{
    let texts = Shown::bind(alloc, e, schema)?;
    let present = Present { of: &texts };
    let how = Joined {
        sep: sep.copy(alloc)?,
    };
    let guard = Guard {
        how: &how,
        of: &present,
    };
    let source = CopySplitter::new(rows);
    let (folded, audit) = par_access::aggregate(rt, alloc, source, &guard, plan)?;
    let joined = value_of(&how, &present, rows, folded)?;
    Ok((joined_text(alloc, joined)?, Some(audit)))
}

/// `mk_string` on the caller's thread alone. It takes neither threads nor waits.
pub(crate) fn mk_string_alone<G: Gate>(
    alloc: Global,
    e: &Expr,
    sep: &Words,
    schema: &Schema,
    rows: &[&Row],
    level: u32,
    gate: &G,
) -> Result<Told, StepStop>
    requires kind { fits schema.now.columns.items ShownWanted (view e.now) ≡ true }
    requires small { length rows.now ≤ 4194304 }
    requires level { (1 ≤ level) × (level ≤ 64) }
    ensures { Gives (made_fault (map (text_made schema.now.columns.items (view e.now)) (pointed rows.now))) (λ text. text ≡ texts.line (encode_utf8_all (separated_by sep.now (made_values (map (text_made schema.now.columns.items (view e.now)) (pointed rows.now)))))) (IsRun no_test untested (pointed rows.now) (alone level)) result }
{
    let texts = Shown::bind(alloc, e, schema)?;
    let present = Present { of: &texts };
    let how = Joined {
        sep: sep.copy(alloc)?,
    };
    let (joined, audit) = fold_made_alone(alloc, &how, &present, rows, level, gate)?;
    Ok((joined_text(alloc, joined)?, Some(audit)))
}

//! A run of a pipeline, on several threads or on one, and a check of one.
ghost use Rattle.std.specs.Prelude.{◌≡◌, ◌≢◌, ◌≤◌, length, IfOk, OnOk};
ghost use Rattle.par_task.specs.Manners.{IsManner, alone};
ghost use Rattle.par_pool.specs.Plans.{planned};
ghost use Rattle.pipe_program.specs.Plans.{plan as plan_of};
ghost use Rattle.pipe_program.specs.Reading.{Reads};
ghost use Rattle.pipe_run.specs.declared.outcome.Outcome.TheVariants as is;
ghost use Rattle.pipe_run.specs.Answers.{IsAnswered, IsChecked, IsToldText};
ghost use Rattle.pipe_run.specs.Endings.{Ends, IsWrittenAs};
ghost use Rattle.pipe_run.specs.Rulings.{Answers, Decides, ok_map};
ghost use Rattle.pipe_run.specs.Rests.{IsOpening};
ghost use Rattle.pipe_run.specs.Runs.{whole_text};
ghost use Rattle.pipe_run.specs.Sources.{AreBuilt, named};

use crate::Outcome;
use crate::built::{check_built, check_given};
use crate::files::{self, read_pipeline};
use crate::sources::read_source;
use crate::stages::{Rest, run_stages, run_stages_alone};
use par_edge::{Gate, Shelf, Sink, write_whole};
use par_laws::Memory;
use par_pool::Plan;
use par_rows::Row;
use pipe_answers::{StageAudit, write_audits};
use pipe_print::print;
use pipe_program::{Pipeline, schema_after, text_laws};
use std::alloc::Global;
use std::sync::Wait;
use std::thread::Threads;

// All that is to run of a pipeline behind its source.
fn opening<'p>(alloc: Global, pipeline: &'p Pipeline) -> Result<Rest<'p>, Memory>
    ensures { IfOk result (λ rest. IsOpening (plan_of pipeline.entry.now) rest) }
{
    Ok(Rest {
        number: 2,
        schema: schema_after(alloc, pipeline, 1)?,
        steps: &pipeline.steps,
        last: &pipeline.last,
    })
}

// Adds the audits to an answer where they are wanted.
fn add_audits(answer: &mut Vec<u8>, audit: bool, audits: &[StageAudit]) -> Result<(), Memory>
    ensures { OnOk result (answer.new.items ≡ whole_text audit (answer.old.items, audits.now)) }
{
    if audit {
        write_audits(answer, audits)?;
    }
    Ok(())
}

// The text of the answer over the rows of the source, with the audits behind it where they are wanted.
fn told_text<G: Gate + Sync, T: Threads + Wait + Sync>(
    rt: &T,
    alloc: Global,
    text: &[u8],
    pipeline: &Pipeline,
    rows: Vec<Row>,
    audit: bool,
    plan: &Plan<'_, G>,
) -> Result<Vec<u8>, Outcome>
    requires reads { Reads text.now (plan_of pipeline.now) }
    requires built { AreBuilt (plan_of pipeline.now).middles (plan_of pipeline.now).last }
    requires small { length rows.items ≤ 4194304 }
    requires level { (1 ≤ plan.now.level) × (plan.now.level ≤ 64) }
    requires workers { (1 ≤ plan.now.workers) × (plan.now.workers ≤ 64) }
    ensures { Decides (IsToldText (planned plan.now.workers plan.now.level) audit (plan_of pipeline.now) rows.items) (ok_map (λ v. v.items) result) }
{
    text_laws();
    let rest = opening(alloc, pipeline)?;
    let mut audits = Vec::new(alloc);
    let mut answer = run_stages(rt, alloc, rest, rows, plan, &mut audits)?;
    add_audits(&mut answer, audit, &audits)?;
    Ok(answer)
}

// `told_text` on the caller's thread alone.
fn told_text_alone<G: Gate + Sync>(
    alloc: Global,
    text: &[u8],
    pipeline: &Pipeline,
    rows: Vec<Row>,
    audit: bool,
    level: u32,
    gate: &G,
) -> Result<Vec<u8>, Outcome>
    requires reads { Reads text.now (plan_of pipeline.now) }
    requires built { AreBuilt (plan_of pipeline.now).middles (plan_of pipeline.now).last }
    requires small { length rows.items ≤ 4194304 }
    requires level { (1 ≤ level) × (level ≤ 64) }
    ensures { Decides (IsToldText (alone level) audit (plan_of pipeline.now) rows.items) (ok_map (λ v. v.items) result) }
{
    text_laws();
    let rest = opening(alloc, pipeline)?;
    let mut audits = Vec::new(alloc);
    let mut answer = run_stages_alone(alloc, rest, rows, level, gate, &mut audits)?;
    add_audits(&mut answer, audit, &audits)?;
    Ok(answer)
}

// The text of a run.
fn answer_text<H: Shelf, G: Gate + Sync, T: Threads + Wait + Sync>(
    rt: &T,
    alloc: Global,
    pipe: &str,
    input: Option<&str>,
    audit: bool,
    shelf: &mut H,
    plan: &Plan<'_, G>,
) -> Result<Vec<u8>, Outcome>
    requires { IsManner (planned plan.now.workers plan.now.level) }
    ensures { Answers (IsAnswered (record { pipe = pipe.now; input = named input.entry; manner = planned plan.now.workers plan.now.level; audit = audit })) (H.state shelf.old) (H.state shelf.new) (ok_map (λ v. v.items) result) }
{
    text_laws();
    let text = read_pipeline(alloc, shelf, pipe)?;
    let pipeline = files::plan(alloc, &text)?;
    check_given(alloc, &text, &pipeline, input)?;
    check_built(alloc, &text, &pipeline)?;
    let rows = read_source(alloc, shelf, &pipeline.source, input)?;
    told_text(rt, alloc, &text, &pipeline, rows, audit, plan)
}

// `answer_text` on the caller's thread alone.
fn answer_text_alone<H: Shelf, G: Gate + Sync>(
    alloc: Global,
    pipe: &str,
    input: Option<&str>,
    audit: bool,
    level: u32,
    shelf: &mut H,
    gate: &G,
) -> Result<Vec<u8>, Outcome>
    requires { (1 ≤ level) × (level ≤ 64) }
    ensures { Answers (IsAnswered (record { pipe = pipe.now; input = named input.entry; manner = alone level; audit = audit })) (H.state shelf.old) (H.state shelf.new) (ok_map (λ v. v.items) result) }
{
    text_laws();
    let text = read_pipeline(alloc, shelf, pipe)?;
    let pipeline = files::plan(alloc, &text)?;
    check_given(alloc, &text, &pipeline, input)?;
    check_built(alloc, &text, &pipeline)?;
    let rows = read_source(alloc, shelf, &pipeline.source, input)?;
    told_text_alone(alloc, &text, &pipeline, rows, audit, level, gate)
}

// The canonical text of the pipeline in the named file.
fn checked_text<H: Shelf>(alloc: Global, pipe: &str, shelf: &mut H) -> Result<Vec<u8>, Outcome>
    ensures { Answers (IsChecked pipe.now) (H.state shelf.old) (H.state shelf.new) (ok_map (λ v. v.items) result) }
{
    let text = read_pipeline(alloc, shelf, pipe)?;
    let pipeline = files::plan(alloc, &text)?;
    Ok(print(alloc, &pipeline)?)
}

// Writes a text, or ends as it was refused.
fn write_text<O: Sink>(text: Result<Vec<u8>, Outcome>, out: &mut O) -> Outcome
    ensures { IsWrittenAs (O.state out.old) (O.state out.new) result (ok_map (λ v. v.items) text) }
{
    match text {
        Ok(text) => match write_whole(out, &text) {
            Ok(()) => Outcome::Done,
            Err(_) => Outcome::WriteFault,
        },
        Err(outcome) => outcome,
    }
}

/// Runs the pipeline in the named file over the named input on several threads, and writes its answer, with the audits
/// behind it where they are wanted. A source that is a range reads no data.
///
/// The answer is that of one thread, but that `find` may name another row that passes. The whole text is built before the
/// first byte is written.
pub fn run_main<H: Shelf, O: Sink, G: Gate + Sync, T: Threads + Wait + Sync>(
    rt: &T,
    alloc: Global,
    pipe: &str,
    input: Option<&str>,
    audit: bool,
    shelf: &mut H,
    out: &mut O,
    plan: &Plan<'_, G>,
) -> Outcome
    requires { IsManner (planned plan.now.workers plan.now.level) }
    ensures ends { Ends (IsAnswered (record { pipe = pipe.now; input = named input.entry; manner = planned plan.now.workers plan.now.level; audit = audit })) (H.state shelf.old) (H.state shelf.new) (O.state out.old) (O.state out.new) result }
    ensures lawful { result ≢ is.Usage }
{
    let text = answer_text(rt, alloc, pipe, input, audit, shelf, plan);
    write_text(text, out)
}

/// `run_main` on the caller's thread alone. It takes neither threads nor waits.
pub fn run_alone_main<H: Shelf, O: Sink, G: Gate + Sync>(
    alloc: Global,
    pipe: &str,
    input: Option<&str>,
    audit: bool,
    level: u32,
    shelf: &mut H,
    out: &mut O,
    gate: &G,
) -> Outcome
    requires { (1 ≤ level) × (level ≤ 64) }
    ensures ends { Ends (IsAnswered (record { pipe = pipe.now; input = named input.entry; manner = alone level; audit = audit })) (H.state shelf.old) (H.state shelf.new) (O.state out.old) (O.state out.new) result }
    ensures lawful { result ≢ is.Usage }
{
    let text = answer_text_alone(alloc, pipe, input, audit, level, shelf, gate);
    write_text(text, out)
}

/// Writes the canonical text of the pipeline in the named file.
///
/// The whole text is built before the first byte is written.
pub fn check_alone<H: Shelf, O: Sink>(
    alloc: Global,
    pipe: &str,
    shelf: &mut H,
    out: &mut O,
) -> Outcome
    ensures ends { Ends (IsChecked pipe.now) (H.state shelf.old) (H.state shelf.new) (O.state out.old) (O.state out.new) result }
    ensures lawful { result ≢ is.Usage }
{
    let text = checked_text(alloc, pipe, shelf);
    write_text(text, out)
}

//! The step that makes several rows of each row.
ghost use Rattle.std.specs.Prelude.{◌≡◌, ◌≢◌, ◌≤◌, [], length, map, set, slice_get, IfOk};
ghost use Rattle.std.specs.List.{flat_map};
ghost use Rattle.std.specs.Str.{chars};
ghost use Rattle.par_rows.specs.declared.value.Value.TheVariants.{Text as TextValue};
ghost use Rattle.par_task.specs.Marking.{no_test};
ghost use Rattle.par_task.specs.Manners.{alone};
ghost use Rattle.par_pool.specs.Plans.{planned};
ghost use Rattle.par_jobs.specs.Runs.{untested};
ghost use Rattle.pipe_eval.specs.Answers.{row_of, text_held};
ghost use Rattle.pipe_eval.specs.Bound.{place_named};
ghost use Rattle.pipe_stages.specs.Audits.{IsRun};
ghost use Rattle.pipe_stages.specs.Pieces.{pieces};
ghost use Rattle.pipe_stages.specs.Rows.{pointed};
ghost use Rattle.pipe_stages.specs.Runs.{Gives};
ghost use Rattle.pipe_stages.specs.Stages.{at_most, split_at_place};

use crate::making::copy_values;
use crate::picking::{Ran, Source};
use crate::picks::CopySplitter;
use crate::stepped::Stepped;
use crate::stop::StepStop;
use par_combiner::ArrayCombiner;
use par_edge::Gate;
use par_laws::{Mapper, Memory, Words};
use par_pool::Plan;
use par_rows::{Column, Row, Schema, Value, Values};
use std::alloc::Global;
use std::sync::Wait;
use std::thread::Threads;

// The place of the first column of a name, or how many columns there are.
fn place_named(columns: &[Column], name: &Words) -> usize
    ensures place { result ≡ place_named columns.now name.now }
    ensures within { result ≤ length columns.now }
{
    match columns {
        [] => 0,
        [first, rest @ ..] => {
            if first.name == *name {
                0
            } else {
                place_named(rest, name) + 1
            }
        }
    }
}

// The text of a row at a place, or the empty one.
fn text_at(row: &Row, at: usize) -> &str
    ensures { chars result.now ≡ text_held (slice_get row.now.values at) }
{
    match row.values.get(at) {
        Some(Value::Text(words)) => words.as_str(),
        _ => "",
    }
}

// The pieces of a text between the occurrences of a separator, from the left.
fn pieces<'t>(alloc: Global, text: &'t str, separator: &str) -> Result<Vec<&'t str>, Memory>
    requires { separator.now ≢ [] }
    ensures { IfOk result (λ all. map (λ p. chars p.now) all.items ≡ pieces (chars separator.now) (chars text.now)) }
{
    let mut all = Vec::new(alloc);
    let mut rest = text;
    while let Some((piece, after)) = rest.split_once(separator) {
        all.push(piece)?;
        rest = after;
    }
    all.push(rest)?;
    Ok(all)
}

// The row with a text at a place, where it has that place.
fn with_text(alloc: Global, row: &Row, at: usize, text: &str) -> Result<Row, Memory>
    ensures { IfOk result (λ made. made ≡ row_of (set row.now.values at (TextValue (chars text.now)))) }
{
    let source = row.values.as_slice();
    let mut values = Values::with_room(alloc, source.len())?;
    let (before, rest) = source.split_at(at.min(source.len()));
    copy_values(alloc, &mut values, before)?;
    let [_, after @ ..] = rest else {
        return Ok(Row { values });
    };
    values.push(Value::Text(Words::from_text(alloc, text)?))?;
    copy_values(alloc, &mut values, after)?;
    Ok(Row { values })
}

/// A row for each piece of the text at a place.
#[derive(Drop)]
struct Splitting<'s> {
    at: usize,
    separator: &'s Words,
    ghost some: { separator.now ≢ [] },
}

impl<'s, 'a> Mapper<&'a Row, Vec<Row>> for Splitting<'s> {
    ghost use Rattle.pipe_stages.specs.Stages.{split_at_place};

    ghost mapped = { λ s row. split_at_place s.at s.separator.now row };

    fn map(&self, alloc: Global, item: &&'a Row) -> Result<Vec<Row>, Memory> {
        let parts = pieces(alloc, text_at(item, self.at), self.separator.as_str())?;
        let mut rows = Vec::with_capacity(alloc, parts.len())?;
        for part in &parts {
            rows.push(with_text(alloc, item, self.at, part)?)?;
        }
        Ok(rows)
    }
}

/// One row for each piece of a text column of each row.
pub(crate) fn flat_map<'a, G: Gate + Sync, T: Threads + Wait + Sync>(
    rt: &T,
    alloc: Global,
    name: &Words,
    separator: &Words,
    schema: &Schema,
    rows: &[&'a Row],
    plan: &Plan<'_, G>,
) -> Result<Ran<'a>, StepStop>
    requires some { separator.now ≢ [] }
    requires small { length rows.now ≤ 4194304 }
    requires level { (1 ≤ plan.now.level) × (plan.now.level ≤ 64) }
    requires workers { (1 ≤ plan.now.workers) × (plan.now.workers ≤ 64) }
    ensures { Gives (at_most (flat_map (split_at_place (place_named schema.now.columns.items name.now) separator.now) (pointed rows.now))) (IsRun no_test untested (pointed rows.now) (planned plan.now.workers plan.now.level)) result }
{
    let splitting = Splitting {
        at: place_named(&schema.columns, name),
        separator,
    };
    let source = CopySplitter::new(rows);
    let (all, audit) = par_transform::flat_map::<
        Source<'_, 'a>,
        ArrayCombiner<Row>,
        G,
        Splitting<'_>,
        T,
    >(rt, alloc, source, &splitting, plan)?;
    Ok((Stepped::Made(all), Some(audit)))
}

/// `flat_map` on the caller's thread alone. It takes neither threads nor waits.
pub(crate) fn flat_map_alone<'a, G: Gate>(
    alloc: Global,
    name: &Words,
    separator: &Words,
    schema: &Schema,
    rows: &[&'a Row],
    level: u32,
    gate: &G,
) -> Result<Ran<'a>, StepStop>
    requires some { separator.now ≢ [] }
    requires small { length rows.now ≤ 4194304 }
    requires level { (1 ≤ level) × (level ≤ 64) }
    ensures { Gives (at_most (flat_map (split_at_place (place_named schema.now.columns.items name.now) separator.now) (pointed rows.now))) (IsRun no_test untested (pointed rows.now) (alone level)) result }
{
    let splitting = Splitting {
        at: place_named(&schema.columns, name),
        separator,
    };
    let source = CopySplitter::new(rows);
    let (all, audit) = par_transform::flat_map_alone::<
        Source<'_, 'a>,
        ArrayCombiner<Row>,
        G,
        Splitting<'_>,
    >(alloc, source, &splitting, level, gate)?;
    Ok((Stepped::Made(all), Some(audit)))
}

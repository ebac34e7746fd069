//! What of a pipeline is there to run.
ghost use Rattle.std.specs.Prelude.{◌≡◌, ◌≤◌, length, map, true, IfOk, IfErr, OnOk};
ghost use Rattle.pipe_steps.specs.Said.{source_view, view};
ghost use Rattle.pipe_program.specs.Plans.{plan};
ghost use Rattle.pipe_program.specs.Reading.{Reads, numbered};
ghost use Rattle.pipe_run.specs.Sources.{AreBuilt, IsBuilt, IsFirstLine, IsGiven, first_at, named, says};
ghost use Rattle.pipe_run.specs.Rulings.{Decides};
ghost use Rattle.pipe_run.specs.declared.outcome.Outcome.TheVariants as is;

use crate::Outcome;
use pipe_answers::is_built_last;
use pipe_program::{Numbered, ParseStop, Pipeline, numbered_lines, text_laws};
use pipe_stages::is_built;
use pipe_steps::{Kind, Line, Source};
use std::alloc::Global;

/// What is looked for in a text.
#[derive(Clone, Copy, Debug)]
pub enum Sought {
    /// The source, where it is data.
    Data,
    /// A step or a collection that isn't built yet.
    Unbuilt,
}

// Whether a line says what is sought.
fn is_sought(sought: Sought, line: &Line) -> bool
    ensures { result ≡ says sought (view line.now) }
{
    match (sought, line) {
        (Sought::Data, Line::Source(Source::Csv(_))) => true,
        (Sought::Unbuilt, Line::Par(Kind::Vector)) => true,
        (Sought::Unbuilt, Line::Step(step)) => !is_built(step),
        (Sought::Unbuilt, Line::Last(last)) => !is_built_last(last),
        _ => false,
    }
}

// The number of the first of some lines that says what is sought.
fn first_of(sought: Sought, lines: &[Numbered]) -> Option<u32>
    ensures { result ≡ first_at (says sought) (map numbered lines.now) }
{
    match lines.split_first() {
        None => None,
        Some((line, rest)) => {
            if is_sought(sought, &line.said) {
                return Some(line.at);
            }
            first_of(sought, rest)
        }
    }
}

// The number of the first line of a text that says what is sought. The text reads as a pipeline, and so the one outcome
// is want of memory.
fn first_line(
    alloc: Global,
    sought: Sought,
    text: &[u8],
    pipeline: &Pipeline,
) -> Result<Option<u32>, Outcome>
    requires small { length text.now ≤ 65536 }
    requires reads { Reads text.now (plan pipeline.now) }
    ensures first { IfOk result (λ line. IsFirstLine (says sought) text.now line) }
    ensures memory { IfErr result (λ o. o ≡ is.Memory) }
{
    text_laws();
    match numbered_lines(alloc, text) {
        Ok(lines) => Ok(first_of(sought, &lines)),
        Err(ParseStop::Memory) => Err(Outcome::Memory),
        Err(ParseStop::Refused(_)) => unreachable!(),
    }
}

/// Refuses a pipeline over data where no data is named, on the line of its source.
pub fn check_given(
    alloc: Global,
    text: &[u8],
    pipeline: &Pipeline,
    input: Option<&str>,
) -> Result<(), Outcome>
    requires small { length text.now ≤ 65536 }
    requires reads { Reads text.now (plan pipeline.now) }
    ensures { Decides (IsGiven text.now (plan pipeline.now).origin (named input.entry)) result }
{
    text_laws();
    match (&pipeline.source, input) {
        (Source::Csv(_), None) => match first_line(alloc, Sought::Data, text, pipeline)? {
            Some(line) => Err(Outcome::BadPipeline { line, kind: 14 }),
            None => unreachable!(),
        },
        _ => Ok(()),
    }
}

/// Refuses a pipeline of which something isn't built yet, on the first such line.
pub fn check_built(alloc: Global, text: &[u8], pipeline: &Pipeline) -> Result<(), Outcome>
    requires small { length text.now ≤ 65536 }
    requires reads { Reads text.now (plan pipeline.now) }
    ensures ruled { Decides (IsBuilt text.now) result }
    ensures built { OnOk result (AreBuilt (plan pipeline.now).middles (plan pipeline.now).last) }
{
    text_laws();
    match first_line(alloc, Sought::Unbuilt, text, pipeline)? {
        Some(line) => Err(Outcome::BadPipeline { line, kind: 0 }),
        None => Ok(()),
    }
}

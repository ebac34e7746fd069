//! The pipeline of a file.
ghost use Rattle.std.specs.Prelude.{◌≤◌, ◌^◌, ◌-◌, ◌<◌, length, IfOk};
ghost use Rattle.pipe_program.specs.Plans.{plan as plan_of};
ghost use Rattle.pipe_program.specs.Reading.{Reads};
ghost use Rattle.pipe_run.specs.Sources.{IsBytes, IsPipelineText, IsPlan};
ghost use Rattle.pipe_run.specs.Rulings.{Answers, Decides, ok_map};

use crate::{Counted, Outcome};
use par_edge::{ReadStop, Shelf, read_whole};
use pipe_program::{ParseStop, Pipeline, parse, text_laws};
use std::alloc::Global;

/// The most bytes of a pipeline's file.
const PIPELINE_BYTES: u64 = 65_536;

/// The bytes of the named file. One of more than `most` bytes isn't read further.
pub fn read_file<H: Shelf>(
    alloc: Global,
    shelf: &mut H,
    name: &str,
    what: Counted,
    most: u64,
) -> Result<Vec<u8>, Outcome>
    requires { most < 2 ^ 64 - 1 }
    ensures answer { Answers (IsBytes what most name.now) (H.state shelf.old) (H.state shelf.new) (ok_map (λ v. v.items) result) }
    ensures small { IfOk result (λ v. length v.items ≤ most) }
{
    match read_whole(alloc, shelf, name, most) {
        Ok(bytes) => Ok(bytes),
        Err(ReadStop::Failed) => Err(Outcome::ReadFault),
        Err(ReadStop::TooLong) => Err(Outcome::Limit {
            what,
            count: most + 1,
            most,
        }),
        Err(ReadStop::Memory) => Err(Outcome::Memory),
    }
}

/// The bytes of the pipeline's file.
pub fn read_pipeline<H: Shelf>(alloc: Global, shelf: &mut H, name: &str) -> Result<Vec<u8>, Outcome>
    ensures answer { Answers (IsPipelineText name.now) (H.state shelf.old) (H.state shelf.new) (ok_map (λ v. v.items) result) }
    ensures small { IfOk result (λ v. length v.items ≤ 65536) }
{
    read_file(alloc, shelf, name, Counted::PipelineBytes, PIPELINE_BYTES)
}

/// The pipeline that the text reads as.
pub fn plan(alloc: Global, text: &[u8]) -> Result<Pipeline, Outcome>
    requires { length text.now ≤ 65536 }
    ensures decided { Decides (IsPlan text.now) (ok_map plan_of result) }
    ensures reads { IfOk result (λ p. Reads text.now (plan_of p)) }
{
    text_laws();
    match parse(alloc, text) {
        Ok(pipeline) => Ok(pipeline),
        Err(ParseStop::Refused(refusal)) => Err(Outcome::BadPipeline {
            line: refusal.line,
            kind: refusal.kind,
        }),
        Err(ParseStop::Memory) => Err(Outcome::Memory),
    }
}

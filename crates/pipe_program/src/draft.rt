//! The parts of a pipeline that the lines so far have said.

ghost use Rattle.std.specs.Prelude.{◌≡◌, IfErr, OnOk, option_map};
ghost use Rattle.pipe_steps.specs.Said.{view};
ghost use Rattle.pipe_program.specs.declared.refusal.ParseStop.TheVariants.{Memory};
ghost use Rattle.pipe_program.specs.Plans.{plan};
ghost use Rattle.pipe_program.specs.Parts.{no_parts, parts, whole, with_line};

use crate::pipeline::Pipeline;
use crate::refusal::ParseStop;
use pipe_steps::{Kind, Last, Line, Source, Step};
use std::alloc::Global;

/// The parts of a pipeline that the lines so far have said.
#[derive(Debug, Drop)]
pub(crate) struct Draft {
    version: u8,
    source: Option<Source>,
    kind: Kind,
    steps: Vec<Step>,
    last: Option<Last>,
}

impl Draft {
    /// Before the first line: version 1, held in an array. Takes no memory.
    pub(crate) fn new(alloc: Global) -> Draft
        ensures { parts result ≡ no_parts }
    {
        Draft {
            version: 1,
            source: None,
            kind: Kind::Array,
            steps: Vec::new(alloc),
            last: None,
        }
    }

    /// Puts in what a line says.
    pub(crate) fn add(&mut self, line: Line) -> Result<(), ParseStop>
        ensures added { OnOk result (parts self.new ≡ with_line (parts self.old) (view line)) }
        ensures memory { IfErr result (λ e. e ≡ Memory) }
    {
        match line {
            Line::Version => self.version = 2,
            Line::Source(source) => self.source = Some(source),
            Line::Par(kind) => self.kind = kind,
            Line::Step(step) => {
                if self.steps.push(step).is_err() {
                    return Err(ParseStop::Memory);
                }
            }
            Line::Last(last) => self.last = Some(last),
        }
        Ok(())
    }

    /// The pipeline, if its source and its last step were there.
    pub(crate) fn finish(self) -> Option<Pipeline>
        ensures { option_map plan result ≡ whole (parts self) }
    {
        let source = self.source?;
        let last = self.last?;
        Some(Pipeline {
            version: self.version,
            source,
            kind: self.kind,
            steps: self.steps,
            last,
        })
    }
}

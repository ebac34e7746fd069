//! How a run ends.
ghost use Rattle.std.specs.Prelude.{◌≡◌};
ghost use Rattle.pipe_run.specs.Outcomes.{status_of};

use par_laws::Memory;

/// What a limit counts.
#[derive(Clone, Copy, Debug, PartialEq, Eq)]
pub enum Counted {
    PipelineBytes,
    DataBytes,
    Records,
    RangeItems,
    FlatMapItems,
    ScanItems,
}

/// How a run ended.
#[derive(Clone, Copy, Debug, PartialEq, Eq)]
pub enum Outcome {
    /// The answer was written whole.
    Done,
    /// The words are not lawful.
    Usage,
    /// The pipeline's text is refused on this line, counted from 1, by a refusal of this kind: 0 for a step that isn't
    /// built yet, 1 to 13 as in `parse`, 14 for a source of data where no data was given.
    BadPipeline {
        line: u32,
        kind: u8,
    },
    /// The data is refused at this record, counted from 1 behind the header, by a flaw of this kind: 1 header, 2 fields,
    /// 3 utf8, 4 number.
    BadData {
        at: u32,
        kind: u8,
    },
    /// A read failed.
    ReadFault,
    /// A write failed. A prefix of the answer may be written.
    WriteFault,
    /// There is more of something than may be: so many, and so many at most.
    Limit {
        what: Counted,
        count: u64,
        most: u64,
    },
    /// Want of memory, before the first byte was written.
    Memory,
    /// A value of this step, the source being step 1, faults at this row of those that the step gets, counted from 0: 1
    /// for a division by zero, 2 for a text that is no number.
    Fault {
        stage: u32,
        row: u32,
        kind: u8,
    },
}

impl From<Memory> for Outcome {
    ghost use Rattle.std.specs.Prelude.{◌≡◌};
    ghost use Rattle.pipe_run.specs.declared.outcome.Outcome.TheVariants as is;

    ghost from_gives = { λ _ o. o ≡ is.Memory };

    fn from(_memory: Memory) -> Outcome {
        Outcome::Memory
    }
}

/// The status of the process: 0 and 2 to 9, in the order of the variants. Takes no memory.
pub fn status(o: &Outcome) -> u8
    ensures { result ≡ status_of o.now }
{
    match o {
        Outcome::Done => 0,
        Outcome::Usage => 2,
        Outcome::BadPipeline { .. } => 3,
        Outcome::BadData { .. } => 4,
        Outcome::ReadFault => 5,
        Outcome::WriteFault => 6,
        Outcome::Limit { .. } => 7,
        Outcome::Memory => 8,
        Outcome::Fault { .. } => 9,
    }
}

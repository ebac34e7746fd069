//! Why a step stops.

use par_laws::{FaultAt, Memory};
use par_transform::FlatStop;

/// Why a step stopped.
#[derive(Clone, Copy, Debug, PartialEq, Eq)]
pub enum StepStop {
    /// An expression has no value at a row: the row's index among those that the step got, or among those that pass the
    /// test of a `collect` whose value it is; and the number of the fault's kind, 1 for a zero divisor and 2 for a text
    /// that is no number.
    Fault(FaultAt),
    /// There would be more than 4,194,304 rows.
    TooMany,
    /// Want of memory.
    Memory,
}

impl From<Memory> for StepStop {
    ghost use Rattle.std.specs.Prelude.{◌≡◌};
    ghost use Rattle.pipe_stages.specs.declared.stop.StepStop.TheVariants as stops;

    ghost from_gives = { λ _ stop. stop ≡ stops.Memory };

    fn from(_refused: Memory) -> StepStop {
        StepStop::Memory
    }
}

impl From<FlatStop> for StepStop {
    ghost use Rattle.std.specs.Prelude.{◌≡◌};
    ghost use Rattle.pipe_stages.specs.Stops.{of_flat};

    ghost from_gives = { λ flat stop. stop ≡ of_flat flat };

    fn from(flat: FlatStop) -> StepStop {
        match flat {
            FlatStop::TooMany => StepStop::TooMany,
            FlatStop::Memory => StepStop::Memory,
        }
    }
}

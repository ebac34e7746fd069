//! Why a flat map stops.
use par_laws::Memory;
use std::error::Error;
use std::fmt;

/// Why a flat map stopped.
#[derive(Clone, Copy, Debug, PartialEq, Eq)]
pub enum FlatStop {
    /// There are more items than a collection has.
    TooMany,
    /// Want of memory.
    Memory,
}

impl fmt::Display for FlatStop {
    ghost use Rattle.std.specs.Prelude.{Some};
    ghost use Rattle.par_transform.specs.Stops.{stop_text};

    ghost output = { λ stop. Some (stop_text stop) };

    fn fmt<W: fmt::Write>(&self, f: &mut fmt::Formatter<W>) -> fmt::Result {
        match self {
            FlatStop::TooMany => write!(f, "too many items"),
            FlatStop::Memory => write!(f, "out of memory"),
        }
    }
}

impl Error for FlatStop {}

impl From<Memory> for FlatStop {
    ghost use Rattle.std.specs.Prelude.{◌≡◌};
    ghost use Rattle.par_transform.specs.declared.stop.FlatStop.TheVariants as stops;

    ghost from_gives = { λ _ stop. stop ≡ stops.Memory };

    fn from(_refused: Memory) -> FlatStop {
        FlatStop::Memory
    }
}

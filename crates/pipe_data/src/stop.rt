//! Why data has no table.

use par_laws::Memory;
use std::alloc::AllocFailed;

/// What is wrong with a record. Of several, the first that is listed here is told.
#[derive(Clone, Copy, Debug, PartialEq, Eq)]
pub enum Flaw {
    /// There is no record 0, or its fields aren't the names of the columns, in order.
    Header,
    /// It has another number of fields than there are columns.
    Fields,
    /// A field isn't UTF-8.
    Utf8,
    /// A field of an int column is no int: an optional `-` and one or more ASCII digits, within 64 bits.
    Number,
}

/// Why data has no table.
#[derive(Clone, Copy, Debug, PartialEq, Eq)]
pub enum DataStop {
    /// The first record that has a flaw; the header is record 0.
    Flawed { record: u32, flaw: Flaw },
    /// There are more than `MAX_RECORDS` records behind the header, and no earlier one has a flaw.
    TooMany,
    /// Want of memory.
    Memory,
}

impl From<Memory> for DataStop {
    ghost use Rattle.std.specs.Prelude.{◌≡◌};
    ghost use Rattle.pipe_data.specs.declared.stop.DataStop.TheVariants as stops;

    ghost from_gives = { λ _ stop. stop ≡ stops.Memory };

    fn from(_refused: Memory) -> DataStop {
        DataStop::Memory
    }
}

/// A reader of records of any length over a text in memory has no other error.
impl From<csv::Error> for DataStop {
    ghost use Rattle.std.specs.Prelude.{◌≡◌};
    ghost use Rattle.pipe_data.specs.declared.stop.DataStop.TheVariants as stops;

    ghost from_gives = { λ _ stop. stop ≡ stops.Memory };

    fn from(_error: csv::Error) -> DataStop {
        DataStop::Memory
    }
}

/// Drops the value that was not stored.
impl<T: Drop> From<AllocFailed<T>> for DataStop {
    ghost use Rattle.std.specs.Prelude.{◌≡◌};
    ghost use Rattle.pipe_data.specs.declared.stop.DataStop.TheVariants as stops;

    ghost from_gives = { λ _ stop. stop ≡ stops.Memory };

    fn from(_refused: AllocFailed<T>) -> DataStop {
        DataStop::Memory
    }
}

ghost use Rattle.std.specs.Prelude.{◌≡◌};

use std::alloc::{AllocError, AllocFailed};
use std::error::Error;
use std::fmt;

/// Want of memory. It stands for no other cause, and no contract says when memory is wanting.
#[derive(Clone, Copy, Debug, Default, PartialEq, Eq, Hash)]
pub struct Memory;

impl fmt::Display for Memory {
    ghost use Rattle.std.specs.Prelude.{Some, codes};

    ghost output = { λ _. Some (codes "out of memory") };

    fn fmt<W: fmt::Write>(&self, f: &mut fmt::Formatter<W>) -> fmt::Result {
        write!(f, "out of memory")
    }
}

impl Error for Memory {}

impl From<AllocError> for Memory {
    fn from(_refused: AllocError) -> Memory {
        Memory
    }
}

/// Drops the value that was not stored.
impl<T: Drop> From<AllocFailed<T>> for Memory {
    fn from(_refused: AllocFailed<T>) -> Memory {
        Memory
    }
}

/// Want of memory that hands the item back.
#[derive(Clone, Copy, Debug, Drop, PartialEq, Eq)]
pub struct Back<T> {
    pub item: T,
}

impl<T> From<AllocFailed<T>> for Back<T> {
    ghost from_gives = { λ refused back. back.item ≡ refused.value };

    fn from(refused: AllocFailed<T>) -> Back<T> {
        Back {
            item: refused.value,
        }
    }
}

/// Drops the item.
impl<T: Drop> From<Back<T>> for Memory {
    fn from(_back: Back<T>) -> Memory {
        Memory
    }
}

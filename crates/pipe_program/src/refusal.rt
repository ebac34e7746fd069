//! Where a text is refused, and why.

use std::alloc::AllocFailed;

/// Where a text is refused, and why.
#[derive(Clone, Copy, Debug, PartialEq, Eq)]
pub struct Refusal {
    /// From 1; one more than the last line's where the text ends too soon.
    pub line: u32,
    /// 1 for a line that isn't UTF-8, 2 for something that is no token, 3 for too many tokens, 4 for a step that isn't
    /// one or may not stand there, 5 for a wrong shape, 6 for a number outside 64 bits, 7 for too deep an expression, 8
    /// for a name, 9 for a type, 10 for a zero, 11 for too many columns, 12 for too many steps, 13 for a text without a
    /// last step.
    pub kind: u8,
}

/// Why a text gave no pipeline.
#[derive(Clone, Copy, Debug, PartialEq, Eq)]
pub enum ParseStop {
    Refused(Refusal),
    /// Want of memory, of which no clause says when it comes.
    Memory,
}

/// Drops the value that was not stored.
impl<T: Drop> From<AllocFailed<T>> for ParseStop {
    ghost use Rattle.std.specs.Prelude.{◌≡◌};
    ghost use Rattle.pipe_program.specs.declared.refusal.ParseStop.TheVariants as stops;

    ghost from_gives = { λ _ stop. stop ≡ stops.Memory };

    fn from(_refused: AllocFailed<T>) -> ParseStop {
        ParseStop::Memory
    }
}

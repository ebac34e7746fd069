//! Why a line is refused.

use par_laws::Memory;

/// Why a line is refused in its place. The order is that of the kinds: the first that holds is told.
#[derive(Clone, Copy, Debug, PartialEq, Eq)]
pub enum Fault {
    /// Its first word names no step, or one that may not stand here.
    Step,
    /// It doesn't have the form of its step.
    Shape,
    /// An int is outside 64 bits.
    Number,
    /// An expression is more than 64 deep.
    Depth,
    /// A named column isn't there, or two columns after the line have one name.
    Name,
    /// An operand or an argument has the wrong kind, or `++` stands in a truth.
    Type,
    /// The step of a range is 0, a divisor is 0, or a separator is empty.
    Zero,
    /// It gives more than 64 columns.
    Columns,
    /// It is the 65th step.
    Steps,
}

/// Why a line wasn't taken.
#[derive(Clone, Copy, Debug, PartialEq, Eq)]
pub enum LineStop {
    Fault(Fault),
    /// Want of memory, of which no clause says when it comes.
    Memory,
}

impl From<Memory> for LineStop {
    ghost use Rattle.std.specs.Prelude.{◌≡◌};
    ghost use Rattle.pipe_checks.specs.declared.fault.LineStop.TheVariants as stops;

    ghost from_gives = { λ _ e. e ≡ stops.Memory };

    fn from(_memory: Memory) -> LineStop {
        LineStop::Memory
    }
}

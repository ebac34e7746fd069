//! Why an expression has no value at a row.

ghost use Rattle.std.specs.Prelude.{◌≡◌};
ghost use Rattle.pipe_eval.specs.Answers.{fault_number, made};

use par_laws::Made;

/// Why an expression has no value at a row.
#[derive(Clone, Copy, Debug, PartialEq, Eq)]
pub enum Fault {
    /// A divisor is 0.
    Zero,
    /// A text that `toInt` reads is no number of 64 bits.
    Number,
}

impl Fault {
    /// The number of the kind: 1 for `Zero`, 2 for `Number`.
    pub fn kind(self) -> u8
        ensures { result ≡ fault_number self }
    {
        match self {
            Fault::Zero => 1,
            Fault::Number => 2,
        }
    }
}

// A value, or the fault by its number.
pub(crate) fn made<T>(value: Result<T, Fault>) -> Made<T>
    ensures { result ≡ made value }
{
    match value {
        Ok(value) => Made::Value(value),
        Err(fault) => Made::Fault(fault.kind()),
    }
}

//! Bound numbers.

ghost use Rattle.std.specs.Prelude.{◌≡◌, slice_get};
ghost use Rattle.pipe_eval.specs.Answers.{int_held, quotient, remainder};
ghost use Rattle.pipe_eval.specs.Bound.{amount_at, applied};

use crate::fault::Fault;
use crate::text::Joinable;
use par_rows::{Row, Value};

/// What is reckoned of two numbers.
#[derive(Clone, Copy, Debug)]
pub(crate) enum Arithmetic {
    Plus,
    Minus,
    Times,
    Divide,
    Remainder,
}

/// A number of a row.
#[derive(Debug, Drop)]
pub(crate) enum Amount {
    Fixed(i64),
    /// The number at a place of the row, or 0 where no number is there.
    Column(usize),
    /// The number of a text's characters.
    Length(Joinable),
    /// The number that a text spells.
    Spelled(Joinable),
    Reckoned(Arithmetic, Box<Amount>, Box<Amount>),
}

fn quotient(a: i64, b: i64) -> Result<i64, Fault>
    ensures { result ≡ quotient a b }
{
    if b == 0 {
        Err(Fault::Zero)
    } else {
        Ok(a.wrapping_div(b))
    }
}

fn remainder(a: i64, b: i64) -> Result<i64, Fault>
    ensures { result ≡ remainder a b }
{
    if b == 0 {
        Err(Fault::Zero)
    } else {
        Ok(a.wrapping_rem(b))
    }
}

impl Arithmetic {
    fn apply(self, a: i64, b: i64) -> Result<i64, Fault>
        ensures { result ≡ applied self a b }
    {
        match self {
            Arithmetic::Plus => Ok(a.wrapping_add(b)),
            Arithmetic::Minus => Ok(a.wrapping_sub(b)),
            Arithmetic::Times => Ok(a.wrapping_mul(b)),
            Arithmetic::Divide => quotient(a, b),
            Arithmetic::Remainder => remainder(a, b),
        }
    }
}

fn int_held(row: &Row, place: usize) -> i64
    ensures { result ≡ int_held (slice_get row.now.values place) }
{
    match row.values.get(place) {
        Some(Value::Int(number)) => *number,
        _ => 0,
    }
}

impl Amount {
    /// The number at a row, or its fault. Takes no memory.
    pub(crate) fn at(&self, row: &Row) -> Result<i64, Fault>
        ensures { result ≡ amount_at self.now row.now }
    {
        match self {
            Amount::Fixed(number) => Ok(*number),
            Amount::Column(place) => Ok(int_held(row, *place)),
            Amount::Length(text) => Ok(text.size(row)),
            Amount::Spelled(text) => text.spelled(row),
            Amount::Reckoned(how, a, b) => {
                let left = a.at(row)?;
                let right = b.at(row)?;
                how.apply(left, right)
            }
        }
    }

    /// The same, with no call where the number stands in the expression or in the row.
    #[inline(always)]
    pub(crate) fn quick_at(&self, row: &Row) -> Result<i64, Fault>
        ensures { result ≡ amount_at self.now row.now }
    {
        match self {
            Amount::Fixed(number) => Ok(*number),
            Amount::Column(place) => Ok(int_held(row, *place)),
            _ => self.at(row),
        }
    }
}

//! Texts read as numbers, a byte at a time.

ghost use Rattle.std.specs.Prelude.{◌≡◌};
ghost use Rattle.std.specs.List.{fold};
ghost use Rattle.pipe_expr.specs.Grammar.{int_of};
ghost use Rattle.pipe_eval.specs.Spelled.{more_digits, next, number};

use crate::fault::Fault;

/// What is known of a text's number after some of its bytes.
#[derive(Clone, Copy, Debug)]
pub(crate) enum Spelling {
    /// No byte came.
    Empty,
    /// A minus came.
    Signed,
    /// Digits came, perhaps behind a minus: whether one did, and their number, where 2^64 - 1 stands for each that is
    /// greater.
    Digits(bool, u64),
    /// The text is no number.
    Wrong,
}

fn more_digits(negative: bool, magnitude: u64, byte: u8) -> Spelling
    ensures { result ≡ more_digits negative magnitude byte }
{
    if byte.is_ascii_digit() {
        let tens = magnitude.saturating_mul(10);
        Spelling::Digits(negative, tens.saturating_add((byte - b'0') as u64))
    } else {
        Spelling::Wrong
    }
}

#[tactic(auto, unfolding(pipe_expr::specs::Grammar::int_of))]
fn within(negative: bool, magnitude: u64) -> Option<i64>
    ensures { result ≡ int_of negative magnitude }
{
    if negative {
        if magnitude < 1 << 63 {
            Some(-(magnitude as i64))
        } else if magnitude == 1 << 63 {
            Some(i64::MIN)
        } else {
            None
        }
    } else if magnitude < 1 << 63 {
        Some(magnitude as i64)
    } else {
        None
    }
}

impl Spelling {
    // What is known after one more byte.
    fn next(self, byte: u8) -> Spelling
        ensures { result ≡ next self byte }
    {
        match self {
            Spelling::Empty => {
                if byte == b'-' {
                    Spelling::Signed
                } else {
                    more_digits(false, 0, byte)
                }
            }
            Spelling::Signed => more_digits(true, 0, byte),
            Spelling::Digits(negative, magnitude) => more_digits(negative, magnitude, byte),
            Spelling::Wrong => Spelling::Wrong,
        }
    }

    /// What is known after a piece of the text. Linear.
    pub(crate) fn after(self, piece: &str) -> Spelling
        ensures { result ≡ fold next self piece.now }
    {
        let mut spelling = self;
        for byte in piece.as_bytes() {
            spelling = spelling.next(*byte);
        }
        spelling
    }

    /// The number, once the whole text came.
    pub(crate) fn number(self) -> Result<i64, Fault>
        ensures { result ≡ number self }
    {
        match self {
            Spelling::Digits(negative, magnitude) => {
                match within(negative, magnitude) {
                    Some(number) => Ok(number),
                    None => Err(Fault::Number),
                }
            }
            _ => Err(Fault::Number),
        }
    }
}

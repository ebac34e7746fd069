//! Bound truths.

ghost use Rattle.std.specs.Prelude.{◌≡◌};
ghost use Rattle.pipe_eval.specs.Bound.{claim_at, holds};

use crate::amount::Amount;
use crate::fault::Fault;
use crate::text::Plain;
use par_rows::Row;
use std::cmp::Ordering;

/// How two numbers or two texts are compared.
#[derive(Clone, Copy, Debug)]
pub(crate) enum Comparison {
    Equal,
    Differ,
    Less,
    AtMost,
    More,
    AtLeast,
}

/// What holds of a row, or doesn't.
#[derive(Debug, Drop)]
pub(crate) enum Claim {
    Numbers(Comparison, Amount, Amount),
    Texts(Comparison, Plain, Plain),
    Not(Box<Claim>),
    And(Box<Claim>, Box<Claim>),
    Or(Box<Claim>, Box<Claim>),
}

impl Comparison {
    fn holds(self, order: Ordering) -> bool
        ensures { result ≡ holds self order }
    {
        match self {
            Comparison::Equal => order.is_eq(),
            Comparison::Differ => order.is_ne(),
            Comparison::Less => order.is_lt(),
            Comparison::AtMost => order.is_le(),
            Comparison::More => order.is_gt(),
            Comparison::AtLeast => order.is_ge(),
        }
    }
}

impl Claim {
    /// Whether it holds at a row, or its fault: the right side of `and` and of `or` is looked at only where the left one
    /// leaves it open. Takes no memory.
    pub(crate) fn at(&self, row: &Row) -> Result<bool, Fault>
        ensures { result ≡ claim_at self.now row.now }
    {
        match self {
            Claim::Numbers(how, a, b) => {
                let left = a.quick_at(row)?;
                let right = b.quick_at(row)?;
                Ok(how.holds(left.cmp(&right)))
            }
            Claim::Texts(how, a, b) => Ok(how.holds(a.at(row).cmp(b.at(row)))),
            Claim::Not(claim) => Ok(!claim.at(row)?),
            Claim::And(a, b) => { if a.at(row)? { b.at(row) } else { Ok(false) } }
            Claim::Or(a, b) => { if a.at(row)? { Ok(true) } else { b.at(row) } }
        }
    }
}

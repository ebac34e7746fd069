//! Bound values that a row may hold.

ghost use Rattle.std.specs.Prelude.{◌≡◌, IfOk};
ghost use Rattle.pipe_eval.specs.Bound.{cell_at};

use crate::amount::Amount;
use crate::fault::Fault;
use crate::text::Joinable;
use par_laws::Memory;
use par_rows::{Row, Value};
use std::alloc::Global;

/// A number or a text of a row.
#[derive(Debug, Drop)]
pub(crate) enum Cell {
    Number(Amount),
    Text(Joinable),
}

impl Cell {
    /// The value at a row, or its fault. Takes memory for a text alone.
    pub(crate) fn at(&self, alloc: Global, row: &Row) -> Result<Result<Value, Fault>, Memory>
        ensures { IfOk result (λ value. value ≡ cell_at self.now row.now) }
    {
        match self {
            Cell::Number(amount) => {
                match amount.at(row) {
                    Ok(number) => Ok(Ok(Value::Int(number))),
                    Err(fault) => Ok(Err(fault)),
                }
            }
            Cell::Text(text) => Ok(Ok(Value::Text(text.words(alloc, row)?))),
        }
    }
}

//! The texts of expressions.

ghost use Rattle.std.specs.Prelude.{◌≡◌, IfOk, true};
ghost use Rattle.std.specs.Fmt.{signed_decimal};
ghost use Rattle.pipe_checks.specs.Kinds.{fits};
ghost use Rattle.pipe_checks.specs.declared.uses.Want.TheVariants.{Shown as ShownWanted};
ghost use Rattle.pipe_expr.specs.Grammar.{view};
ghost use Rattle.pipe_eval.specs.Answers.{text_made};
ghost use Rattle.pipe_eval.specs.Mapped.{text_on, written_at};

use crate::bind::bind_cell;
use crate::cell::Cell;
use crate::fault::{Fault, made};
use itoa::Buffer;
use par_laws::{Made, Mapper, Memory, Words};
use par_rows::{Row, Schema};
use pipe_expr::Expr;
use std::alloc::Global;

/// An expression of number or text kind as a mapper to the text of its value, or its fault. A number's text is its
/// decimal form, with `-` where it is negative.
#[derive(Debug, Drop)]
pub struct Shown {
    cell: Cell,
}

// The decimal form of a number.
fn decimal(alloc: Global, number: i64) -> Result<Words, Memory>
    ensures { IfOk result (λ words. words ≡ signed_decimal number) }
{
    let mut buffer = Buffer::new();
    Words::from_text(alloc, buffer.format(number))
}

// The text of a value at a row, or its fault.
fn written(alloc: Global, cell: &Cell, row: &Row) -> Result<Result<Words, Fault>, Memory>
    ensures { IfOk result (λ words. words ≡ written_at cell.now row.now) }
{
    match cell {
        Cell::Number(amount) => {
            match amount.at(row) {
                Ok(number) => Ok(Ok(decimal(alloc, number)?)),
                Err(fault) => Ok(Err(fault)),
            }
        }
        Cell::Text(text) => Ok(Ok(text.words(alloc, row)?)),
    }
}

impl Shown {
    /// The mapper of an expression over rows of these columns. Linear in the expression for each column.
    pub fn bind(alloc: Global, e: &Expr, schema: &Schema) -> Result<Shown, Memory>
        requires { fits schema.now.columns.items ShownWanted (view e.now) ≡ true }
        ensures { IfOk result (λ s. text_on s ≡ text_made schema.now.columns.items (view e.now)) }
    {
        let cell = bind_cell(alloc, &schema.columns, e)?;
        Ok(Shown { cell })
    }
}

/// Takes memory for the text.
impl<'a> Mapper<&'a Row, Made<Words>> for Shown {
    ghost mapped = { text_on };

    fn map(&self, alloc: Global, item: &&'a Row) -> Result<Made<Words>, Memory> {
        Ok(made(written(alloc, &self.cell, item)?))
    }
}

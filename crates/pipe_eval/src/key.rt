//! Expressions as keys.

ghost use Rattle.std.specs.Prelude.{◌≡◌, ◌∷◌, [], IfOk, true};
ghost use Rattle.pipe_checks.specs.Kinds.{fits};
ghost use Rattle.pipe_checks.specs.declared.uses.Want.TheVariants.{Shown as ShownWanted};
ghost use Rattle.pipe_expr.specs.Grammar.{view};
ghost use Rattle.pipe_eval.specs.Answers.{row_made, row_of};
ghost use Rattle.pipe_eval.specs.Mapped.{key_on};

use crate::bind::bind_cell;
use crate::cell::Cell;
use par_laws::{Made, Mapper, Memory};
use par_rows::{Row, Schema, Value, Values};
use pipe_expr::Expr;
use std::alloc::Global;

/// An expression of number or text kind as a mapper to the row of its value, or its fault.
#[derive(Debug, Drop)]
pub struct Key {
    cell: Cell,
}

// The row of one value.
fn row_of_one(alloc: Global, value: Value) -> Result<Row, Memory>
    ensures { IfOk result (λ row. row ≡ row_of (value ∷ [])) }
{
    let mut values = Values::with_room(alloc, 1)?;
    values.push(value)?;
    Ok(Row { values })
}

impl Key {
    /// The mapper of an expression over rows of these columns. Linear in the expression for each column.
    pub fn bind(alloc: Global, e: &Expr, schema: &Schema) -> Result<Key, Memory>
        requires { fits schema.now.columns.items ShownWanted (view e.now) ≡ true }
        ensures { IfOk result (λ k. key_on k ≡ row_made schema.now.columns.items (view e.now ∷ [])) }
    {
        let cell = bind_cell(alloc, &schema.columns, e)?;
        Ok(Key { cell })
    }
}

/// Takes memory for the row.
impl<'a> Mapper<&'a Row, Made<Row>> for Key {
    ghost mapped = { key_on };

    fn map(&self, alloc: Global, item: &&'a Row) -> Result<Made<Row>, Memory> {
        match self.cell.at(alloc, item)? {
            Ok(value) => Ok(Made::Value(row_of_one(alloc, value)?)),
            Err(fault) => Ok(Made::Fault(fault.kind())),
        }
    }
}

//! Rows made of rows.

ghost use Rattle.std.specs.Prelude.{◌≡◌, IfOk, true, map};
ghost use Rattle.pipe_checks.specs.Kinds.{fits};
ghost use Rattle.pipe_checks.specs.Uses.{fields_pass};
ghost use Rattle.pipe_steps.specs.Said.{named_view};
ghost use Rattle.pipe_eval.specs.Answers.{in_order, kept_value, row_made, trees};
ghost use Rattle.pipe_eval.specs.Bound.{cell_at};
ghost use Rattle.pipe_eval.specs.Mapped.{row_on};

use crate::bind::bind_cell;
use crate::cell::Cell;
use crate::fault::Fault;
use par_laws::{Made, Mapper, Memory};
use par_rows::{Column, Row, Schema, Values};
use pipe_steps::Named;
use std::alloc::Global;

/// Named values as a mapper to their row, or to the fault of the first of them that has one.
#[derive(Debug, Drop)]
pub struct Maker {
    cells: Vec<Cell>,
}

// The named values, bound one after the other.
fn bind_cells(alloc: Global, columns: &[Column], list: &[Named]) -> Result<Vec<Cell>, Memory>
    requires { fields_pass (fits columns.now) (map named_view list.now) ≡ true }
    ensures { IfOk result (λ v. map cell_at v.items ≡ map (kept_value columns.now) (trees (map named_view list.now))) }
{
    let mut cells = Vec::with_capacity(alloc, list.len())?;
    for named in list {
        cells.push(bind_cell(alloc, columns, &named.of)?)?;
    }
    Ok(cells)
}

// The values at a row, or the first fault.
fn values_at(alloc: Global, cells: &[Cell], row: &Row) -> Result<Result<Values, Fault>, Memory>
    ensures { IfOk result (λ values. values ≡ in_order (map cell_at cells.now) row.now) }
{
    let mut values = Values::with_room(alloc, cells.len())?;
    for cell in cells {
        match cell.at(alloc, row)? {
            Ok(value) => values.push(value)?,
            Err(fault) => return Ok(Err(fault)),
        }
    }
    Ok(Ok(values))
}

impl Maker {
    /// The mapper of named values over rows of these columns. Linear in the expressions for each column.
    pub fn bind(alloc: Global, list: &[Named], schema: &Schema) -> Result<Maker, Memory>
        requires { fields_pass (fits schema.now.columns.items) (map named_view list.now) ≡ true }
        ensures { IfOk result (λ m. row_on m ≡ row_made schema.now.columns.items (trees (map named_view list.now))) }
    {
        let cells = bind_cells(alloc, &schema.columns, list)?;
        Ok(Maker { cells })
    }
}

/// Takes memory for just the values and their texts.
impl<'a> Mapper<&'a Row, Made<Row>> for Maker {
    ghost mapped = { row_on };

    fn map(&self, alloc: Global, item: &&'a Row) -> Result<Made<Row>, Memory> {
        match values_at(alloc, &self.cells, item)? {
            Ok(values) => Ok(Made::Value(Row { values })),
            Err(fault) => Ok(Made::Fault(fault.kind())),
        }
    }
}

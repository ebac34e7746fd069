use crate::row::Row;
use crate::schema::{Column, Schema};
use par_laws::{Keep, Memory, Shown};
use std::alloc::Global;
use std::collections::LinkedList;

/// Columns with rows of them.
#[derive(Debug, Drop)]
pub struct Table {
    pub schema: Schema,
    pub rows: Vec<Row>,
}

/// Seen as the list of its columns and the list of its rows.
impl Shown for Table {
    type Value = (LinkedList<Column>, LinkedList<Row>);

    ghost shown = { λ t. (t.schema.columns.items, t.rows.items) };
}

impl Keep for Table {
    fn copy(&self, alloc: Global) -> Result<Table, Memory> {
        let schema = self.schema.copy(alloc)?;
        let mut rows = Vec::with_capacity(alloc, self.rows.len())?;
        for row in self.rows.as_slice() {
            rows.push(row.copy(alloc)?)?;
        }
        Ok(Table { schema, rows })
    }
}

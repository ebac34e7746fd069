use par_laws::{Keep, Memory, Shown, Words};
use std::alloc::Global;
use std::collections::LinkedList;

/// What a column holds.
#[derive(Clone, Copy, Debug, PartialEq, Eq)]
pub enum ColumnKind {
    Int,
    Text,
}

/// A column: its name and what it holds.
#[derive(Debug, Drop)]
pub struct Column {
    pub name: Words,
    pub kind: ColumnKind,
}

/// The columns of a table, in order.
#[derive(Debug, Drop)]
pub struct Schema {
    pub columns: Vec<Column>,
}

impl Shown for ColumnKind {
    type Value = ColumnKind;

    ghost shown = { λ x. x };
}

impl Shown for Column {
    type Value = Column;

    ghost shown = { λ x. x };
}

/// Seen as the list of its columns.
impl Shown for Schema {
    type Value = LinkedList<Column>;

    ghost shown = { λ s. s.columns.items };
}

/// Takes no memory.
impl Keep for ColumnKind {
    fn copy(&self, _alloc: Global) -> Result<ColumnKind, Memory> {
        Ok(*self)
    }
}

impl Keep for Column {
    fn copy(&self, alloc: Global) -> Result<Column, Memory> {
        Ok(Column {
            name: self.name.copy(alloc)?,
            kind: self.kind,
        })
    }
}

impl Keep for Schema {
    fn copy(&self, alloc: Global) -> Result<Schema, Memory> {
        let mut columns = Vec::with_capacity(alloc, self.columns.len())?;
        for column in self.columns.as_slice() {
            columns.push(column.copy(alloc)?)?;
        }
        Ok(Schema { columns })
    }
}

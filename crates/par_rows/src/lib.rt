//! Values, rows, schemas and tables.
//!
//! A `Value` is a number or a text, and a `Row` the list of its values; contracts see both as plain data, so that two
//! rows with the same values are equal in a contract wherever they lie. Values and rows have an order and a hash, and
//! serve as keys. A `Table` is a schema with rows.
#![tactic(auto)]

mod row;
mod schema;
mod table;
mod value;

pub use row::{Row, Values};
pub use schema::{Column, ColumnKind, Schema};
pub use table::Table;
pub use value::Value;

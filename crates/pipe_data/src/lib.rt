//! Data: the table that a CSV text is, or the first refusal of it.
//!
//! The records are those of the crate `csv` with its default reader, all of them of any length. The first is the header,
//! which is record 0; the others count from 1.
#![tactic(auto)]

mod record;
mod records;
mod stop;
mod table;

pub use stop::{DataStop, Flaw};
pub use table::{MAX_RECORDS, read_table};

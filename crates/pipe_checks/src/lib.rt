//! Lines in their place: what a line says there, or its least fault.
//!
//! A `Place` holds what the lines before have said, with the columns after them. `judge_line` takes a line's tokens
//! there: it accepts the line, or tells the first of nine kinds of fault that holds, from a step that may not stand
//! here to a 65th step. Each line has one of the two, and just one.
#![tactic(auto)]

mod columns;
mod fault;
mod kinds;
mod laws;
mod place;
mod standing;
mod uses;

pub use columns::{columns_after, source_columns, step_columns};
pub use fault::{Fault, LineStop};
pub use kinds::{ValueKind, kind_of};
pub use laws::place_laws;
pub use place::judge_line;
pub use standing::Place;
pub use uses::Want;

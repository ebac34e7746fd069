//! The pipeline language, as users of the library see it.
//!
//! - `parse` answers the pipeline that a text reads as, or the text's one refusal: the least line that has one, and there
//!   the least kind.
//! - `schema_after` answers the columns behind a step of a pipeline.
//! - `print` writes the one canonical text of a pipeline. It reads as that pipeline and as no other (`language_laws`).
//!
//! A `Pipeline` has a `Source`, a `Kind` of collection, its `Step`s and a `Last` step, and these have `Expr`s: all are plain
//! enums and structs, for a caller to look at.
#![tactic(auto)]

mod laws;

pub use laws::language_laws;
pub use par_laws::{Memory, Words};
pub use par_rows::{Column, ColumnKind, Schema};
pub use pipe_expr::{Expr, Op};
pub use pipe_print::print;
pub use pipe_program::{ParseStop, Pipeline, Refusal, parse, schema_after, text_laws};
pub use pipe_steps::{Agg, Aggregate, Kind, Last, Named, Running, Source, Step};

#[cfg(test)]
mod tests;

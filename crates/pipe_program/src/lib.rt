//! A pipeline text, read line by line.
//!
//! `parse` answers the pipeline that a text reads as, or its one refusal: the least line that has one, and there the
//! least kind. Each text has one of the two, and just one (`text_laws`).
#![tactic(auto)]

mod draft;
mod laws;
mod numbered;
mod pipeline;
mod reading;
mod refusal;
mod schema;

pub use laws::{spelling_laws, text_laws};
pub use numbered::{Numbered, numbered_lines};
pub use pipeline::Pipeline;
pub use reading::parse;
pub use refusal::{ParseStop, Refusal};
pub use schema::schema_after;

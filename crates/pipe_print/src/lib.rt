//! The printer of pipelines: the one canonical text of each.
//!
//! Each line of the text is its step's first word and items behind it, each behind one space. The forms are a table in
//! specs/Lines.antt, one line for each step.
#![tactic(auto)]

mod entry;
mod item;
mod piece;
mod printing;

pub use printing::print;

//! The lines of a pipeline: its source, its steps and its last step, each read from the tokens of a line.
//!
//! A form, in specs/Forms.antt, is a list of slots and what their parts make: one line for each step. `Says` says by
//! these which tokens are which line. No tokens say two lines. `line_of` finds the one that they say.
//!
//! One set of forms serves both versions of the language. `fits_version` tells what version 1 asks beyond them: that
//! each divisor is an int, and that `groupBy` has one key.
#![tactic(auto)]

mod entry;
mod joint;
mod last;
mod laws;
mod line;
mod reader;
mod source;
mod step;

pub use joint::Joint;
pub use last::Last;
pub use laws::saying_laws;
pub use line::Line;
pub use reader::line_of;
pub use source::{Kind, Source};
pub use step::{Agg, Aggregate, Named, Running, Step};

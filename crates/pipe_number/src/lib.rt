//! The number that a text spells.
//!
//! `int_of` reads a text whole. A `Spelling` reads it piece by piece, where the text is not in one place.
#![tactic(auto)]

mod spelling;

pub use spelling::{Spelling, int_of};

//! What the tokens of a line mean: which words are reserved, which begin a step, and what a text and a number are.
//!
//! `meaning` turns the tokens that `pipe_text` cuts into those of the grammar in `pipe_expr`. Version 2 has one
//! reserved word more, `toInt`.
#![tactic(auto)]

mod lexemes;
mod words;

pub use lexemes::{meaning, meanings};
pub use words::reserved;

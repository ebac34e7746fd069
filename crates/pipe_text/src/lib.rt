//! Pipeline text: its lines, and the tokens of a line.
//!
//! `first_line` takes the lines of a text off its front. They are those of Rust's `str::lines`, over any bytes: cut at
//! each line feed, with one carriage return before it.
//!
//! `read_line` gives the tokens of a line: each time the longest that fits, with spaces and tabs between. A blank line
//! and a comment have none. A line that isn't UTF-8, that has something which is no token, or that has too many tokens
//! has a `LineFault`, the first of these three that holds. Each line has tokens or a fault, and just one of them.
#![tactic(auto)]

mod front;
mod laws;
mod lexeme;
mod line;

pub use front::is_word_text;
pub use laws::line_laws;
pub use lexeme::{Lexeme, Symbol};
pub use line::{LineFault, MAX_TOKENS, first_line, read_line};

//! The words that `parcoll` is called with: what they ask for, or that they are not lawful.
//!
//! `command_of`, in specs/Commands.antt, is the rule. The words before `--` are read from left to right:
//!
//! - a word that begins with `-`, and isn't `-` alone, is an option: `--workers N`, `--workers=N`, `--level N`,
//!   `--level=N` or `--audit`. Names are whole, and each option stands at most once. The word after `--workers` or
//!   `--level` is its value, whatever it looks like. Any other such word is refused, so there is no help and no version;
//! - every other word is a positional, and so is every word after `--`;
//! - the positionals are `run PIPE`, `run PIPE DATA` or `check PIPE`, and options go with `run` alone;
//! - N is one or two digits, of a number from 1 to 64. There are 4 workers where none are given, and the level is the
//!   number of workers where none is given.
//!
//! The crate `clap` splits the words, by a grammar that takes more than the rule does: any mode, any number of
//! positionals and any text as a number. What it refuses, the rule refuses.
#![tactic(auto)]

mod command;
mod grammar;
mod laws;
mod number;
mod reader;

pub use command::Command;
pub use laws::word_laws;
pub use reader::read_words;

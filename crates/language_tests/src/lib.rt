//! The tests of the language, of data and of the command line, which see what is public alone. They stand apart, so that
//! each crate is proved once.
#![tactic(auto)]

#[cfg(test)]
mod data;
#[cfg(test)]
mod expr;
#[cfg(test)]
mod number;
#[cfg(test)]
mod print;
#[cfg(test)]
mod program;
#[cfg(test)]
mod text;
#[cfg(test)]
mod words;

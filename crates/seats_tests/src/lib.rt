//! The tests of tasks and markets, which see what is public alone. They stand apart, so that each crate is proved once.
#![tactic(auto)]

#[cfg(test)]
mod market;
#[cfg(test)]
mod task;

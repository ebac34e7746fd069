//! Worked rows of the library: tests that go over several of its crates, which no one crate below could hold.
#![tactic(auto)]

#[cfg(test)]
mod arrays;
#[cfg(test)]
mod collections;
#[cfg(test)]
mod ranges;
#[cfg(test)]
mod rules;

//! The tests of the collections and of what they stand on, which see what is public alone. They stand apart, so that each
//! crate is proved once.
#![tactic(auto)]

#[cfg(test)]
mod buckets;
#[cfg(test)]
mod combiner;
#[cfg(test)]
mod edge;
#[cfg(test)]
mod flat;
#[cfg(test)]
mod laws;
#[cfg(test)]
mod lists;
#[cfg(test)]
mod rows;
#[cfg(test)]
mod splitter;
#[cfg(test)]
mod trie;
#[cfg(test)]
mod vector;

//! A vector of up to 4,194,304 items that is a tree of nodes 32 wide, after Scala's `Vector`.
//!
//! An index is five digits of base 32, and `get` follows one digit a level. The tree is filled from its left: each node
//! but the last of a level is full, so that a node is found by division alone. Items never move once they are pushed.
//! A splitter walks from leaf to leaf, and cutting copies nothing. Contracts see a vector as its list.
#![tactic(auto)]

mod branch;
mod leaf;
mod node;
mod splitter;
mod vector;

pub use splitter::VectorSplitter;
pub use vector::RadixVector;

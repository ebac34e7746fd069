//! A finite map in a hash trie: five bits of the mixed hash a level, and a collision list below level 6.
//!
//! The entries stand in one vector, in the order in which their keys came. The trie leads from a mixed hash to their
//! places. Levels 0 and 1 are `Wide`: a slot for each digit holds a few leaves, or a further level. Levels 2 and 3 are one
//! `Twofold`: a digit of level 2 has a few leaves, or a row of slots, one for each digit of level 3. Levels 4 to 6 are a
//! `Branch` each, which has a kid for each digit that has leaves: one leaf, or a further level. A `Leaf` keeps what is
//! left of the hash. The levels are a nest of types over a `Chain`, so that nothing recurses. `HashTrie` is the map, seen
//! as the list of its entries; `TrieSplitter` cuts that list without copying.
#![tactic(auto)]

mod branch;
mod bucket;
mod chain;
mod kid;
mod leaves;
mod level;
mod node;
mod row;
mod slot;
mod splitter;
mod trie;
mod twofold;
mod wide;

pub use bucket::trie_bucket;
pub use splitter::TrieSplitter;
pub use trie::HashTrie;

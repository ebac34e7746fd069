//! A map whose entries stand in one vector, and an index that leads from a key's hash to the places of its entries.
//!
//! The index sees no keys. It keeps places by mixed hash, and asks a `Wanted` which of them holds the entry that is
//! looked for. So a trie and a table of slots are indexes alike, and the map over them, `Entries`, is written and proved
//! once. The entries keep the order in which their keys came, and a splitter over them is one over a slice.
#![tactic(auto)]

mod entries;
mod index;

pub use entries::Entries;
pub use index::{Index, Leaf, Wanted};

//! Combiners that gather items by bucket: of a map, of groups, and of a set.
//!
//! A key's bucket is one of 32, by bits of its mixed hash. The items of a bucket stand in chunks of their own, so that
//! the parts of a trie or of a table can be built side by side, each from one bucket's items.
#![tactic(auto)]

mod group;
mod lists;
mod map;
mod pairs;
mod set;

pub use group::{GroupCombiner, group_bucket};
pub use map::{MapCombiner, map_bucket};
pub use pairs::{BucketCombiner, PairList};
pub use set::SetCombiner;

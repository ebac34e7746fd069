//! A finite set in a flat hash table: open addressing over 32 blocks of slots, of which a key's bucket names its own.
//!
//! The keys stand in one vector, in the order in which they came, and the slots lead from a mixed hash to their places.
//! A key's home is the slot that the high bits of its mixed hash name; it stands at the first slot that was free when it
//! came, from its home on and round the end. A table doubles its slots before more than half of them would be taken.
//! A `Block` is filled from the keys of one bucket alone, and 32 of them make a table.
//! `FlatTable` is the set, seen as the list of its keys; `FlatSplitter` cuts that list without copying.
#![tactic(auto)]

mod block;
mod block_slots;
mod bucket;
mod flat;
mod keys;
mod slots;
mod splitter;
mod table;

pub use block::{Block, fill_block};
pub use bucket::{flat_bucket, room_for};
pub use flat::FlatTable;
pub use splitter::FlatSplitter;

#[cfg(test)]
mod tests;

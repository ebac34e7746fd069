//! Combiners: builders of a result, each of which gathers a part of the items, that are joined in order.
//!
//! A `Combiner` takes items at its end, and two of them are combined in constant time and without memory. Its `result`
//! stands for its items: an array, or whatever else a combiner makes.
//!
//! - `ArrayCombiner` makes a vector. It keeps its items in `Chunks`, as other combiners over lists do.
//! - `VectorCombiner` makes a radix vector of them.
//! - `Faulted` is a combiner of items that may fault: its result is a `Yield`, all of the values or the first fault.
#![tactic(auto)]

mod array;
mod chunks;
mod combiner;
mod faulted;
mod vector;

pub use array::ArrayCombiner;
pub use chunks::Chunks;
pub use combiner::Combiner;
pub use faulted::{Faulted, Yield};
pub use vector::VectorCombiner;

//! What a parallel collection is given: tests, mappers, keys and monoids, and the laws that they keep.
//!
//! Everything above stands on these traits and sees their values by `Shown`: a reference as what it points to, a vector
//! as its list. Each trait's method answers the definition that a ghost member names, and each impl proves the trait's
//! laws, so that no caller can break a fold by an operator that is not associative.
//!
//! - A `Test` finds a `Verdict`, which may be a fault: `Tried` and `FaultAt` tell of that. A `Probe` counts its tests.
//! - A `Mapper` makes a value of an item, a `KeyOf` its key, and a `HashKey` has an order and a hash.
//! - A `Monoid` joins two values, and a `Gather` adds an item to one. `Sum`, `Least`, `Joined` and their kin are stock
//!   ones. `Guard` folds what a mapper makes, and keeps the first fault.
//! - `Words` is a text, and `Keep` copies. A call that finds no memory answers `Memory`, or `Back` with what it was given.
#![tactic(auto)]

mod guard;
mod hash;
mod keep;
mod key;
mod mapper;
mod memory;
mod monoid;
mod probe;
mod shown;
mod stock;
mod test;
mod tried;
mod words;

pub use guard::{Guard, Guarded, Made};
pub use hash::mix;
pub use keep::Keep;
pub use key::{HashKey, KeyOf};
pub use mapper::Mapper;
pub use memory::{Back, Memory};
pub use monoid::{Gather, Monoid};
pub use probe::Probe;
pub use shown::Shown;
pub use stock::both::Both;
pub use stock::greatest::Greatest;
pub use stock::least::Least;
pub use stock::lists::{Concat, Joined};
pub use stock::numbers::{Count, Product, Sum};
pub use test::{Never, Not, Test, Verdict};
pub use tried::{FaultAt, Tried};
pub use words::Words;

/// No collection has more items.
pub const MAX_ITEMS: u32 = 4_194_304;

//! Calls that make a collection of a collection: filters, maps, cuts and zips, each equal to the list function of its
//! name.
//!
//! Each call takes a source that can be split, a mapper for what is made of an item, and a `Combiner` for what the items
//! make, and tells of its leaves by an `Audit`. A call with a test answers `Tried`: where the test faults on an item that decides, the fault with its index and kind stands in the place of the
//! answer.
//!
//! Each has two forms. `filter` runs on several threads, by a `Plan`; `filter_alone` on the caller's thread, and takes neither
//! threads nor waits. They have one contract, but for what an audit tells.
//!
//! A source begins at place 0 and has at most 4,194,304 items, and a level and a number of workers are 1 to 64. For want of
//! memory nothing is left behind.
//!
//! | Calls | Run |
//! |---|---|
//! | `map`, `zip`, `zip_with_index`, `reverse`, `flat_map` | over all items, without a test |
//! | `filter`, `filter_not`, `collect`, `partition` | tests every item |
//! | `take_while`, `drop_while`, `span` | ends at the first item that doesn't pass |
//! | `take`, `drop`, `slice`, `split_at` | none: they cut, and copy |
//!
//! Contracts speak of the lists in `specs/` of `par_lists` and std. `Faults` in `specs/` of `par_jobs` says which fault is
//! a call's, and `Runs` there what an audit tells. A call runs the job of its family by a function of `par_jobs`.
#![tactic(auto)]

mod choices;
mod collecting;
mod cuts;
mod each;
mod flat;
mod flattening;
mod fronts;
mod gathering;
mod reversed;
mod stop;

pub use choices::{
    collect, collect_alone, filter, filter_alone, filter_not, filter_not_alone, partition,
    partition_alone,
};
pub use cuts::{drop, slice, split_at, take};
pub use each::{
    map, map_alone, reverse, reverse_alone, zip, zip_alone, zip_with_index, zip_with_index_alone,
};
pub use flat::{flat_map, flat_map_alone};
pub use fronts::{drop_while, drop_while_alone, span, span_alone, take_while, take_while_alone};
pub use stop::FlatStop;

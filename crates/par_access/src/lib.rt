//! Folds and searches of parallel collections.
//!
//! A call takes the splitter of its source, and runs the job of its family over it by a function of `par_jobs`: the source
//! is cut into leaves by the level. The call answers with the `Audit` of its leaves. What it answers is the plain list
//! function of the source's list.
//!
//! Each call has two forms. `count` runs on several threads, by a `Plan`; `count_alone` on the caller's thread, and takes
//! neither threads nor waits. They have one contract, but for what an audit tells and that `find` may name any item.
//!
//! | Calls | Answer |
//! |---|---|
//! | `aggregate`, `fold`, `sum`, `product` | the fold of the items |
//! | `reduce_option`, `min`, `max` | the items joined, or None of none |
//! | `count` | how many items pass |
//! | `find`, `exists`, `forall`, `same_elements` | whether and where an item passes |
//! | `index_where`, `last_index_where`, `segment_length` | the first, the last item that passes, and how many pass in a row |
//!
//! A test may find that an item has no truth value. A call with a test answers `Tried`: its answer, or the fault that
//! stands in its place, by the rule `fault_of` in specs/Faults of `par_jobs`. The audit says what the leaves tested. A look
//! at the one item that ended a search, for the kind of its fault, is in no leaf.
//!
//! Every call has the conditions that its source begins at place 0 and has at most `MAX_ITEMS` items, and that its level
//! and its number of workers are 1 to 64. Its one error is want of memory.
#![tactic(auto)]

mod counts;
mod faults;
mod folds;
mod gathering;
mod indexes;
mod searches;

pub use counts::{count, count_alone};
pub use folds::{
    aggregate, aggregate_alone, fold, fold_alone, max, max_alone, min, min_alone, product,
    product_alone, reduce_option, reduce_option_alone, sum, sum_alone,
};
pub use indexes::{
    index_where, index_where_alone, last_index_where, last_index_where_alone, segment_length,
    segment_length_alone,
};
pub use searches::{
    exists, exists_alone, find, find_alone, forall, forall_alone, same_elements,
    same_elements_alone,
};

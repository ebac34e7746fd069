//! The jobs of the calls on parallel collections, one a family.
//!
//! | Job | Family | Serves |
//! |---|---|---|
//! | `GatherJob` | no test | folds, `map`, groups |
//! | `SiftJob` | tests every item | `count`, `filter`, `collect`, `partition` |
//! | `FrontJob` | ends at the first marked item | `takeWhile`, `indexWhere`, `segmentLength` |
//! | `SpanJob` | ends at the first marked item, and keeps what is left | `span`, `dropWhile` |
//! | `SearchJob` | ends at any marked item | `find`, `exists`, `forall`, `sameElements` |
//! | `LastJob` | looks for the last marked item | `lastIndexWhere` |
//!
//! Each job has two functions that run it whole over a source, and say of its part what it means for the source's list:
//! `gather_pooled`, `sift_pooled`, `front_pooled`, `spanned_pooled`, `search_pooled` and `last_pooled` on several threads, and
//! the same with `_alone` on the caller's. A test
//! may find that an item has no truth value; which item's fault is then the call's says `fault_of` of specs/Faults, and
//! `fault_here` and `fault_before` look at the one item that ended a job. What an audit tells is `IsRunOver` of specs/Runs.
//!
//! What is kept of the items is a `Builder`'s business, so that a call above is a builder and a few lines. The leaf of a
//! low-flag job is one function, `pass_low`, whatever is kept. Leaves that may end early pass their items a few at once, by
//! `pass_few`.
#![tactic(auto)]

mod abort;
mod builder;
mod fault;
mod few;
mod front;
mod gather;
mod keeping;
mod last;
mod looking;
mod low;
mod runs;
mod search;
mod sift;
mod span;
mod stock;

pub use builder::Builder;
pub use front::{Front, FrontJob};
pub use gather::GatherJob;
pub use last::LastJob;
pub use looking::{fault_before, fault_here};
pub use runs::{
    front_alone, front_pooled, gather_alone, gather_pooled, last_alone, last_pooled, search_alone,
    search_pooled, sift_alone, sift_pooled, spanned_alone, spanned_pooled,
};
pub use search::{SearchJob, Sought};
pub use sift::{SiftJob, Sifted};
pub use span::{SpanJob, Spanned};
pub use stock::{Counting, Folding, Listing, Nothing};

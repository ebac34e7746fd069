//! Jobs over a source that is cut into leaves, and one thread that runs them.
//!
//! A `Job` says what one leaf gives and how two parts are merged. `chain` cuts a source into a head and tails, whose
//! nodes are numbers of a binary tree. `run_alone` makes the chain of node 1 and runs its leaves in order, each with the
//! flags of `par_signal` in hand, so that a marked item ends the later leaves early. What it answers is good over the
//! whole source and comes from the leaves of its `Audit`. Nothing here starts a thread or waits.
//!
//! The words of the contracts stand in specs/: `Marking` and `Leaves` (which items are marked, which numbers of a leaf
//! are lawful), `Seats` (what a leaf owes to its seat), `Parts` (which part is good, family by family), `Audits` and
//! `Alone` (how leaves tile a source, and where an answer comes from).
#![tactic(auto)]

mod audit;
mod cutting;
mod job;
mod marked;
mod run;
mod tails;

pub use audit::{Audit, Leaf};
pub use cutting::chain;
pub use job::{Done, Job};
pub use marked::Marked;
pub use run::{Place, run_alone, run_leaf, threshold};
pub use tails::{Chain, Tails};

//! Threads that run one job together.
//!
//! `run_job` runs a job as `run_alone` of par_task does, on several threads, and has the same clauses for every order in
//! which they come to its parts. The job's source is offered as node 1 of a board. Whoever claims a node that it found
//! through the market cuts it into a chain, offers its tails, runs the head, and then goes through the tails from the
//! nearest: one that is still offered it runs itself, and one that another has claimed it waits for. Nobody holds more
//! than two nodes, and nothing recurses.
//!
//! A node gives a `Bundle`: its part with the leaves that it comes from, or nothing where memory was wanting. So every
//! node that is claimed is finished, and the root's bundle is the answer. Each worker also keeps the list of its own leaves
//! by turn, and `check.rt` compares the two.
#![tactic(auto)]

mod bundle;
mod check;
mod crew;
mod crossing;
mod helping;
mod leaves;
mod offers;
mod pause;
mod plan;
mod run;
mod runs;
mod serve;
mod settle;
mod shared;
mod tracked;
mod worker;

pub use plan::Plan;
pub use run::run_job;

#[cfg(test)]
mod tests;

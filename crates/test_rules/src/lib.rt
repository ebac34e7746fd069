//! What the tests of several crates stand on: a test and a mapper over numbers, short ranges, and a sum of an audit.
#![tactic(auto)]

mod audit;
mod rule;
mod short;

pub use audit::tested;
pub use rule::{Rule, Same};
pub use short::{from_to, stepping};

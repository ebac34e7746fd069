//! Where threads that work on one job tell each other of offered parts.
//!
//! A `Ticket` names a part that somebody offered. A `Market` has queues of tickets: a seat posts to a queue of its own and
//! looks at all queues, and `find` looks at one after the other until it has a ticket. A ticket is a hint and gives no right:
//! only a claim on the board decides, so a ticket that is lost or found late changes no answer.
//!
//! `LockedMarket` is one queue behind a lock. `DequeMarket` has a deque a seat; `rule.rt` has the rule that holds of each
//! deque over all interleavings: the tickets in it are those that its owner posted last, each with its place, and no place is
//! found twice.
#![tactic(auto)]

mod count;
mod crossing;
mod deque;
mod ends;
mod locked;
mod market;
mod rule;
mod ticket;

pub use deque::{DequeMarket, DequeSeat};
pub use locked::{LockedMarket, LockedSeat};
pub use market::{Market, find};
pub use rule::Entry;
pub use ticket::{Ticket, Unposted};

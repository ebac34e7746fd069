//! The rule of one deque, which holds between any two steps of any threads, and what its steps tell.
//!
//! An entry has its ticket's place in the list of tickets that the owner posted. What is in the deque is that list without
//! its first few, and each entry that was found is one of those few. So a take has a place that nobody has found.
use crate::ticket::Ticket;
use crossbeam_deque::protocol::{Outcome, Protocol};
use std::collections::LinkedList;

/// A ticket with its place in the list of all tickets that were posted to its deque, from 0.
#[derive(Clone, Copy, Debug, Drop, PartialEq, Eq)]
pub struct Entry {
    pub place: u64,
    pub ticket: Ticket,
}

/// What a thread's pass to one deque knows: whether it is the owner's, and then what was posted; and what it found there,
/// in order. It is there for contracts, and no value is made.
pub struct Account {
    pub owner: bool,
    pub posted: LinkedList<Ticket>,
    pub found: LinkedList<Entry>,
}

/// What a seat posted to its own deque, and what it found in each. It is there for contracts, and no value is made.
pub struct Told {
    pub posted: LinkedList<Ticket>,
    pub found: LinkedList<LinkedList<Entry>>,
}

/// The rule of a deque.
pub struct DequeRule;

impl Protocol<Entry, Account> for DequeRule {
    ghost use Rattle.std.specs.Prelude.{true, false, []};
    ghost use Rattle.par_market.specs.Deques.{account, IsOrdered};

    ghost holds = { IsOrdered };

    ghost first = { account true [] [] };

    ghost guest = { account false [] [] };
}

/// The owner's ticket was added at the back.
pub(crate) struct Posted;

impl Outcome<Entry, Account> for Posted {
    ghost use Rattle.par_market.specs.Deques.{Adds};

    ghost then = { Adds };
}

/// The first entry was taken.
pub(crate) struct Found;

impl Outcome<Entry, Account> for Found {
    ghost use Rattle.par_market.specs.Deques.{Takes};

    ghost then = { Takes };
}

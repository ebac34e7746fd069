//! The two ends of a deque: its owner's, and the lane by which a seat takes from it.
ghost use Rattle.std.specs.Prelude.{◌≡◌, ◌∷◌, ◌++◌, [], true, length, if◌then◌else◌, MatchOption};
ghost use Rattle.crossbeam_deque.specs.Handles.{view, IsPassOf, SameWorker, stealer_deque, worker_view};
ghost use Rattle.par_edge.specs.Count.{raised};
ghost use Rattle.par_market.specs.Deques.{account, Above, with_found, HasTaken};

use crate::count::raise;
use crate::rule::{Account, DequeRule, Entry, Found, Posted};
use crate::ticket::Ticket;
use crossbeam_deque::{Pass, Steal, Stealer, Worker};
use std::alloc::Global;
use std::sync::Wait;

/// The end of a deque at which its owner posts.
pub(crate) type Owner = Worker<Entry, Global, Account, DequeRule>;

/// The end from which all seats take.
pub(crate) type Thief = Stealer<Entry, Global, Account, DequeRule>;

/// What a seat has of one deque: its pass, and how many of its looks found the deque empty.
#[derive(Drop)]
pub(crate) struct Lane {
    pub(crate) pass: Pass<Entry, Account>,
    pub(crate) empty: u64,
}

/// Adds an entry at the back, or answers false where the deque can't grow.
pub(crate) fn put(owner: &mut Owner, entry: Entry) -> bool
    requires owner { (worker_view owner.old).owner ≡ true }
    requires place { entry.place ≡ length (worker_view owner.old).posted }
    ensures same { SameWorker owner.old owner.new }
    ensures put { worker_view owner.new ≡ (if result then account true ((worker_view owner.old).posted ++ entry.ticket ∷ []) (worker_view owner.old).found else worker_view owner.old) }
{
    owner.push_as::<Posted>(entry).is_ok()
}

/// Takes the first entry. A steal that another thread overtook is tried again.
fn take<R: Wait>(rt: &R, thief: &Thief, pass: &mut Pass<Entry, Account>) -> Option<Entry>
    requires { IsPassOf (stealer_deque thief.now) pass.old }
    ensures of { IsPassOf (stealer_deque thief.now) pass.new }
    ensures found { MatchOption result
        (view pass.new ≡ view pass.old)
        (λ e. Above (view pass.old).found e.place × (view pass.new ≡ with_found (view pass.old) e)) }
{
    for _ in rt.forever() {
        match thief.steal_as::<Found>(pass) {
            Steal::Success(entry) => return Some(entry),
            Steal::Empty => return None,
            Steal::Retry => {}
        }
    }
    unreachable!()
}

/// Takes the first ticket by a lane, and counts where there is none.
pub(crate) fn take_by<R: Wait>(rt: &R, thief: &Thief, lane: &mut Lane) -> Option<Ticket>
    requires { IsPassOf (stealer_deque thief.now) lane.old.pass }
    ensures of { IsPassOf (stealer_deque thief.now) lane.new.pass }
    ensures found { MatchOption result
        ((view lane.new.pass ≡ view lane.old.pass) × (lane.new.empty ≡ raised lane.old.empty 1))
        (λ t. HasTaken (view lane.old.pass) t (view lane.new.pass) × (lane.new.empty ≡ lane.old.empty)) }
{
    match take(rt, thief, &mut lane.pass) {
        Some(entry) => Some(entry.ticket),
        None => {
            raise(&mut lane.empty);
            None
        }
    }
}

//! What a market is, and how a seat finds a ticket.
ghost use Rattle.std.specs.Prelude.{◌≡◌, ◌<◌, ◌≤◌, ◌-◌, ◌%◌, ◌^◌, ℕ, IfSome, IfNone};
ghost use Rattle.std.specs.Int.{leading_zeros, w32};
ghost use Rattle.par_edge.specs.Count.{Rose};
ghost use Rattle.par_market.specs.Markets.{AreEmpty};

use crate::ticket::{Ticket, Unposted};
use std::sync::Wait;

/// Queues of tickets, with a seat for each thread.
///
/// A seat counts its posts that were refused, and for each queue its looks that found it empty. No count falls, and each
/// stays at the last value of a `u64`. Every call with a seat asks that it is a seat of this market; those that an `open`
/// hands out are, and stay so.
pub trait Market {
    ghost use Rattle.std.specs.Prelude.{◌≡◌, ◌<◌, ◌≤◌, ℕ, MatchResult, MatchOption};
    ghost use Rattle.par_edge.specs.Count.{Rose};
    ghost use Rattle.par_market.specs.declared.ticket.Ticket.{Ticket};
    ghost use Rattle.par_market.specs.Markets.{NoneFell};

    type Seat: Drop;

    /// What contracts see of what a seat posted and found.
    type Known;

    // The seat is one of this market.
    ghost is_of: { Self → Self.Seat → Type 0 };

    // How many queues there are.
    ghost width: { Self → ℕ };

    // How many posts of the seat were refused.
    ghost refused: { Self.Seat → ℕ };

    // How many of its looks at each queue found it empty.
    ghost empty: { Self.Seat → ℕ → ℕ };

    // What the seat posted and found.
    ghost known: { Self.Seat → Self.Known };

    // What a post of the ticket makes of it.
    ghost posts: { Self.Known → Ticket → Self.Known → Type 0 };

    // What a look at the queue makes of it that found the ticket.
    ghost finds: { Self.Known → ℕ → Ticket → Self.Known → Type 0 };

    /// How many queues there are. They are numbered from 0.
    fn queues(&self) -> u32
        ensures { result ≡ width self.now };

    /// The number of the seat's own queue.
    fn own(&self, seat: &Self::Seat) -> u32
        requires { is_of self.now seat.now }
        ensures { result < width self.now };

    /// Posts a ticket to the seat's own queue, or hands it back where the queue has no room and gets no memory.
    fn post<R: Wait>(&self, rt: &R, seat: &mut Self::Seat, ticket: Ticket) -> Result<(), Unposted>
        requires { is_of self.now seat.old }
        ensures of { is_of self.now seat.new }
        ensures refused { refused seat.old ≤ refused seat.new }
        ensures empty { NoneFell (empty seat.old) (empty seat.new) }
        ensures posted { MatchResult result
            (λ _. posts (known seat.old) ticket (known seat.new))
            (λ u. (u.ticket ≡ ticket) × Rose (refused seat.old) (refused seat.new) × (known seat.new ≡ known seat.old)) };

    /// Takes the first ticket of a queue. `None` comes only where the seat's count of empty looks of that queue rose.
    fn look<R: Wait>(&self, rt: &R, seat: &mut Self::Seat, k: u32) -> Option<Ticket>
        requires of { is_of self.now seat.old }
        requires queue { k < width self.now }
        ensures of { is_of self.now seat.new }
        ensures refused { refused seat.old ≤ refused seat.new }
        ensures empty { NoneFell (empty seat.old) (empty seat.new) }
        ensures found { MatchOption result
            (Rose (empty seat.old k) (empty seat.new k) × (known seat.new ≡ known seat.old))
            (λ t. finds (known seat.old) k t (known seat.new)) };
}

// The queue that a seat looks at first behind its own: that of the seat whose number lacks its highest binary digit.
// So seats that start one after the other halve what is left: seat 1 takes half of what seat 0 has, seats 2 and 3 half of
// what 0 and 1 have, seats 4 to 7 half of what 0 to 3 have.
fn first_behind(own: u32) -> u32
    ensures first { result ≡ own % 2 ^ (31 - leading_zeros w32 own) }
    ensures within { result ≤ own }
{
    own % (1 << 31u32.saturating_sub(own.leading_zeros()))
}

// Looks at the queues from `lo` up to `hi`, but not at the seat's own again, until one has a ticket.
fn look_among<M: Market, R: Wait>(
    rt: &R,
    market: &M,
    seat: &mut M::Seat,
    own: u32,
    lo: u32,
    hi: u32,
) -> Option<Ticket>
    requires of { M.is_of market.now seat.old }
    requires queues { hi ≤ M.width market.now }
    ensures of { M.is_of market.now seat.new }
    ensures none { IfNone result (AreEmpty own lo hi (M.empty seat.old) (M.empty seat.new) × (M.known seat.new ≡ M.known seat.old)) }
    ensures some { IfSome result (λ t. (k : ℕ) × (k < M.width market.now) × M.finds (M.known seat.old) k t (M.known seat.new)) }
{
    for k in lo..hi {
        if k == own {
            continue;
        }
        if let Some(ticket) = market.look(rt, seat, k) {
            return Some(ticket);
        }
    }
    None
}

/// Looks at the seat's own queue, and then at the others in order, round from that of the seat whose number lacks the
/// highest binary digit of its own, until one has a ticket. `None` comes only where the seat's count of empty looks of each
/// queue rose. Linear in the number of queues.
pub fn find<M: Market, R: Wait>(rt: &R, market: &M, seat: &mut M::Seat) -> Option<Ticket>
    requires { M.is_of market.now seat.old }
    ensures of { M.is_of market.now seat.new }
    ensures none { IfNone result (((k : ℕ) → k < M.width market.now → Rose (M.empty seat.old k) (M.empty seat.new k)) × (M.known seat.new ≡ M.known seat.old)) }
    ensures some { IfSome result (λ t. (k : ℕ) × (k < M.width market.now) × M.finds (M.known seat.old) k t (M.known seat.new)) }
{
    let own = market.own(seat);
    if let Some(ticket) = market.look(rt, seat, own) {
        return Some(ticket);
    }
    let first = first_behind(own);
    if let Some(ticket) = look_among(rt, market, seat, own, first, market.queues()) {
        return Some(ticket);
    }
    look_among(rt, market, seat, own, 0, first)
}

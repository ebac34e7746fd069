//! The tails of a chain, offered.
ghost use Rattle.std.specs.Prelude.{◌≡◌, ℕ, ◌<◌, ◌≤◌, length};
ghost use Rattle.par_pool.specs.Tails.{AreTails, AreOffered, FreeBelow};

use crate::shared::Run;
use crate::tracked::Tracked;
use arrayvec::ArrayVec;
use par_board::{BoardSeat, tree_laws};
use par_market::{Market, Ticket};
use par_splitter::Splitter;
use par_task::{Job, Tails};
use std::sync::Wait;

/// The tickets of a chain, which has at most ten tails; no place is None.
type Tickets = ArrayVec<Option<Ticket>, 10>;

impl<'w, 'r, 'a, J: Job, G, M: Market> Run<'w, 'r, 'a, J, G, M> {
    /// Offers the tails of a chain that was made at k, the nearest first, and posts their tickets, the farthest first. So who
    /// takes from the front of a queue takes the greatest tail, and the owner, who goes on from the nearest, meets nobody
    /// before half of its items are done.
    pub(crate) fn offer_tails<R: Wait>(
        &self,
        rt: &R,
        place: &mut M::Seat,
        seat: &mut BoardSeat<Tracked<J>>,
        _k: u32,
        tails: Tails<J::Split>,
    )
        requires tracked { self.now.board.now.job.job.value ≡ self.now.job.now }
        requires board { seat.old.of ≡ self.now.board.now.of }
        requires node { (0 < _k) × (_k < 2048) }
        requires tree { FreeBelow _k seat.old }
        requires tails { (from : ℕ) × (hi : ℕ) × AreTails J.Split.items J.Split.lo (J.source self.now.job.now) _k from hi tails }
        requires place { M.is_of self.now.market.now place.old }
        ensures place { M.is_of self.now.market.now place.new }
        ensures board { seat.new.of ≡ self.now.board.now.of }
        ensures offered { AreOffered J.Split.items J.Split.lo _k tails seat.old seat.new }
    {
        tree_laws();
        let mut tickets = Tickets::new();
        let mut left = tails;
        while let Some((node, tail)) = left.pop_front() {
            let (lo, hi) = tail.span();
            self.board.offer(seat, node, tail);
            let _ = tickets.try_push(Some(Ticket { node, lo, hi }));
        }
        self.post_all(rt, place, tickets);
    }

    // Posts the tickets, the last one first. A ticket that is handed back is not posted: the owner comes to its node by
    // itself.
    fn post_all<R: Wait>(&self, rt: &R, place: &mut M::Seat, mut tickets: Tickets)
        requires { M.is_of self.now.market.now place.old }
        ensures { M.is_of self.now.market.now place.new }
    {
        while let Some(Some(ticket)) = tickets.pop() {
            let _ = self.market.post(rt, place, ticket);
        }
    }
}

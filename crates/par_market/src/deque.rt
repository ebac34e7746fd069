//! A deque a seat.
ghost use Rattle.std.specs.Prelude.{◌≡◌, ◌<◌, ◌≤◌, [], ℕ, true, false, IfOk, All, length, map, vec_len, slice_index_or};
ghost use Rattle.crossbeam_deque.specs.Handles.{view, worker_deque, worker_view};
ghost use Rattle.par_edge.specs.Count.{raised};
ghost use Rattle.par_market.specs.Deques.{account};
ghost use Rattle.par_market.specs.Seats.{DequeId, deques_of, lane_deques, IsBare, fresh};

use crate::count::raise;
use crate::ends::{Lane, Owner, Thief, put, take_by};
use crate::market::Market;
use crate::rule::{Entry, Told};
use crate::ticket::{Ticket, Unposted};
use par_laws::Memory;
use std::alloc::Global;
use std::marker::Model;
use std::sync::Wait;

// The slots that a deque begins with. A part has at most ten tails.
const ROOM: usize = 16;

/// A market of a first-in first-out deque a seat: a seat posts at the back of its own, and all take from the front. Contracts
/// see which deques these are.
#[derive(Drop)]
pub struct DequeMarket {
    thieves: Vec<Thief>,
}

impl Model for DequeMarket {
    ghost use Rattle.std.specs.Prelude.{List, ◌<◌, ◌^◌, length};
    ghost use Rattle.par_market.specs.Seats.{DequeId, deques_of};

    ghost Value = { List DequeId };

    ghost view = { λ m. deques_of m.thieves.items };

    ghost invariant = { λ m. length m.thieves.items < 2 ^ 32 };
}

/// A seat of a market of deques. Contracts see which deques it looks at, which is its own, its counts, and what it posted and
/// found.
#[derive(Drop)]
pub struct DequeSeat {
    own: u32,
    posted: u64,
    refused: u64,
    owner: Owner,
    lanes: Vec<Lane>,
}

impl Model for DequeSeat {
    ghost use Rattle.std.specs.Prelude.{◌≡◌, ◌<◌, true, length, All, slice_index_or};
    ghost use Rattle.crossbeam_deque.specs.Handles.{worker_view, worker_deque};
    ghost use Rattle.par_market.specs.Seats.{DequeId, Seats, lane_deques, lane_counts, lane_finds, IsBare};
    ghost use Rattle.par_market.specs.Deques.{told};

    ghost Value = { Seats };

    ghost view = { λ s. record {
      deques = lane_deques s.lanes.items;
      own = s.own;
      refused = s.refused;
      empty = lane_counts s.lanes.items;
      known = told (worker_view s.owner).posted (lane_finds s.lanes.items);
    } };

    ghost invariant = { λ s. (s.own < length s.lanes.items) × (slice_index_or (lane_deques s.lanes.items) s.own (worker_deque s.owner) ≡ worker_deque s.owner) × (s.posted ≡ length (worker_view s.owner).posted) × ((worker_view s.owner).owner ≡ true) × All IsBare s.lanes.items };
}

// So many deques, by their owners' ends.
fn owners(alloc: Global, count: u32) -> Result<Vec<Owner>, Memory>
    ensures len { IfOk result (λ v. length v.items ≡ count) }
    ensures new { IfOk result (λ v. All (λ w. worker_view w ≡ account true [] []) v.items) }
{
    let mut owners = Vec::with_capacity(alloc, count as usize)?;
    for _ in 0..count {
        owners.push(Owner::fifo_as(alloc, ROOM)?)?;
    }
    Ok(owners)
}

// The other ends of these deques.
fn thieves(alloc: Global, owners: &[Owner]) -> Result<Vec<Thief>, Memory>
    ensures { IfOk result (λ v. deques_of v.items ≡ map worker_deque owners.now) }
{
    let mut thieves = Vec::with_capacity(alloc, owners.len())?;
    for owner in owners {
        thieves.push(owner.stealer()?)?;
    }
    Ok(thieves)
}

// A lane to each deque.
fn lanes(alloc: Global, thieves: &[Thief]) -> Result<Vec<Lane>, Memory>
    ensures deques { IfOk result (λ v. lane_deques v.items ≡ deques_of thieves.now) }
    ensures new { IfOk result (λ v. All (λ l. IsBare l × (l.empty ≡ 0) × (view l.pass ≡ account false [] [])) v.items) }
{
    let mut lanes = Vec::with_capacity(alloc, thieves.len())?;
    for thief in thieves {
        lanes.push(Lane {
            pass: thief.pass(),
            empty: 0,
        })?;
    }
    Ok(lanes)
}

// The seat that posts by this end.
fn seat_of(alloc: Global, own: u32, owner: Owner, thieves: &[Thief]) -> Result<DequeSeat, Memory>
    requires own { own < length thieves.now }
    requires deque { slice_index_or (deques_of thieves.now) own (worker_deque owner) ≡ worker_deque owner }
    requires new { worker_view owner ≡ account true [] [] }
    ensures { IfOk result (λ s. s ≡ fresh (deques_of thieves.now) own) }
{
    let lanes = lanes(alloc, thieves)?;
    Ok(DequeSeat {
        own,
        posted: 0,
        refused: 0,
        owner,
        lanes,
    })
}

impl DequeMarket {
    /// A market with so many seats, 1 to 64, each with a deque of its own. Its one error is want of memory. Quadratic in the
    /// number of seats.
    pub fn open(alloc: Global, seats: u32) -> Result<(DequeMarket, Vec<DequeSeat>), Memory>
        requires { (1 ≤ seats) × (seats ≤ 64) }
        ensures market { IfOk result (λ m. length m.0 ≡ seats) }
        ensures len { IfOk result (λ m. vec_len m.1 ≡ seats) }
        ensures each { IfOk result (λ m. (i : ℕ) (d : _) → i < seats → slice_index_or m.1.items i d ≡ fresh m.0 i) }
    {
        let mut owners = owners(alloc, seats)?;
        let thieves = thieves(alloc, &owners)?;
        let mut all = Vec::with_capacity(alloc, seats as usize)?;
        for own in 0..seats {
            all.push(seat_of(alloc, own, owners.remove(0), &thieves)?)?;
        }
        Ok((DequeMarket { thieves }, all))
    }
}

impl DequeSeat {
    // Counts a refused post.
    fn refuse(&mut self, ticket: Ticket) -> Unposted
        ensures seat { self.new ≡ record self.old { refused = raised self.old.refused 1 } }
        ensures ticket { result.ticket ≡ ticket }
    {
        raise(&mut self.refused);
        Unposted { ticket }
    }
}

impl Market for DequeMarket {
    ghost use Rattle.std.specs.Prelude.{length, slice_index};
    ghost use Rattle.par_market.specs.Seats.{IsSeatOf, HasPosted, HasFound};

    type Seat = DequeSeat;

    type Known = Told;

    ghost is_of = { IsSeatOf };

    ghost width = { λ m. length m };

    ghost refused = { λ s. s.refused };

    ghost empty = { λ s k. slice_index s.empty k };

    ghost known = { λ s. s.known };

    ghost posts = { HasPosted };

    ghost finds = { HasFound };

    fn queues(&self) -> u32 {
        self.thieves.len() as u32
    }

    fn own(&self, seat: &DequeSeat) -> u32 {
        seat.own
    }

    fn post<R: Wait>(&self, _rt: &R, seat: &mut DequeSeat, ticket: Ticket) -> Result<(), Unposted> {
        let place = seat.posted;
        if place == u64::MAX {
            return Err(seat.refuse(ticket));
        }
        if !put(&mut seat.owner, Entry { place, ticket }) {
            return Err(seat.refuse(ticket));
        }
        seat.posted += 1;
        Ok(())
    }

    fn look<R: Wait>(&self, rt: &R, seat: &mut DequeSeat, k: u32) -> Option<Ticket> {
        let thief = &self.thieves[k as usize];
        take_by(rt, thief, &mut seat.lanes[k as usize])
    }
}

//! One queue behind a lock.
ghost use Rattle.std.specs.Prelude.{◌≡◌, ◌≤◌, IfOk, All, vec_len};

use crate::count::raise;
use crate::market::Market;
use crate::ticket::{Ticket, Unposted};
use par_laws::Memory;
use std::alloc::Global;
use std::collections::VecDeque;
use std::sync::{Mutex, Wait};

/// A market of one queue, number 0, behind a lock. Its calls wait for the lock.
#[derive(Drop)]
pub struct LockedMarket {
    queue: Mutex<VecDeque<Ticket>>,
}

/// A seat of a locked market: its counts.
#[derive(Drop)]
pub struct LockedSeat {
    refused: u64,
    empty: u64,
}

impl LockedMarket {
    /// A market with so many seats, 1 to 64. Its one error is want of memory.
    pub fn open(alloc: Global, seats: u32) -> Result<(LockedMarket, Vec<LockedSeat>), Memory>
        requires { (1 ≤ seats) × (seats ≤ 64) }
        ensures { IfOk result (λ m. vec_len m.1 ≡ seats) }
    {
        let mut all = Vec::with_capacity(alloc, seats as usize)?;
        for _ in 0..seats {
            all.push(LockedSeat {
                refused: 0,
                empty: 0,
            })?;
        }
        let queue = Mutex::new(VecDeque::new(alloc));
        Ok((LockedMarket { queue }, all))
    }
}

impl Market for LockedMarket {
    type Seat = LockedSeat;

    type Known = ();

    ghost is_of = { λ _ _. Unit {0} };

    ghost width = { λ _. 1 };

    ghost refused = { λ s. s.refused };

    ghost empty = { λ s _. s.empty };

    ghost known = { λ _. tt };

    ghost posts = { λ _ _ _. Unit {0} };

    ghost finds = { λ _ _ _ _. Unit {0} };

    fn queues(&self) -> u32 {
        1
    }

    fn own(&self, _seat: &LockedSeat) -> u32 {
        0
    }

    fn post<R: Wait>(&self, rt: &R, seat: &mut LockedSeat, ticket: Ticket) -> Result<(), Unposted> {
        match self.queue.lock(rt).push_back(ticket) {
            Ok(()) => Ok(()),
            Err(_) => {
                raise(&mut seat.refused);
                Err(Unposted { ticket })
            }
        }
    }

    fn look<R: Wait>(&self, rt: &R, seat: &mut LockedSeat, _k: u32) -> Option<Ticket> {
        let first = self.queue.lock(rt).pop_front();
        if first.is_none() {
            raise(&mut seat.empty);
        }
        first
    }
}

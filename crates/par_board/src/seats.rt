//! How a board is opened and closed, and how seats come and go.
ghost use Rattle.std.specs.Prelude.{◌≡◌, ℕ, ◌<◌, ◌≤◌, ◌⊎◌, length, Some, IfOk};
ghost use Rattle.par_board.specs.Seen.{owned_free, not_owned, not_held, owns_at, holds_at};
ghost use Rattle.par_board.specs.Calls.{fresh, left_of, right_of, joined, merge, HoldsNothing, IsLast};

use crate::board::{Board, BoardOf, BoardSeat, SeatOf};
use crate::rule::{Cut, Glue};
use atomic_table::Table;
use par_laws::Memory;
use par_task::Job;
use std::alloc::Global;
use std::snapshot::Snapshot;

// One place a node, by its number. The place 0 is never used.
const PLACES: usize = 2048;

impl<'a, J: Job> Board<'a, J> {
    /// Opens a board over the `n` items of the job's source. All nodes are free, the seat owns them, and it stands for all
    /// parts of the board. The one error is want of memory. Linear in the number of nodes.
    pub fn open(alloc: Global, job: &'a J, n: u32) -> Result<(Board<'a, J>, BoardSeat<J>), Memory>
        requires length { length (J.source job.now) ≡ n }
        requires few { n ≤ 4194304 }
        ensures board { IfOk result (λ b. b.0.job ≡ job.now) }
        ensures seat { IfOk result (λ b. b.1 ≡ fresh b.0.of) }
        ensures all { IfOk result (λ b. (m : ℕ) → m < 2048 → (owns_at b.1 m ≡ owned_free) × (holds_at b.1 m ≡ not_held)) }
    {
        let Ok(words) = Vec::from_elem(alloc, 0u64, PLACES) else {
            return Err(Memory);
        };
        let key = Snapshot::of(job);
        let Ok((table, seat)) = Table::vacant(alloc, words.as_slice(), PLACES, &key) else {
            return Err(Memory);
        };
        Ok((BoardOf { job, n, table }, SeatOf { seat }))
    }

    /// The job. Constant time.
    pub fn job(&self) -> &'a J
        ensures { result.now ≡ self.now.job }
    {
        self.job
    }

    /// The number of items of the job's source. Constant time.
    pub fn count(&self) -> u32
        ensures { result ≡ length (J.source self.now.job) }
    {
        self.n
    }

    /// A new seat, for another thread. It owns, holds and has open nothing, and stands for one part of the board, where the
    /// old seat has another left; else both are left with none, and no seat ever stands for all again. Constant time.
    pub fn split_seat(
        &self,
        _alloc: Global,
        seat: &mut BoardSeat<J>,
    ) -> Result<BoardSeat<J>, Memory>
        requires { seat.old.of ≡ self.now.of }
        ensures old { seat.new ≡ left_of seat.old }
        ensures new { IfOk result (λ s. s ≡ right_of seat.old) }
        ensures bare { IfOk result (λ s. (m : ℕ) → m < 2048 → (owns_at s m ≡ not_owned) × (holds_at s m ≡ not_held)) }
    {
        let seat = self.table.shared.split_seat::<Cut>(&mut seat.seat);
        Ok(SeatOf { seat })
    }

    /// Gives up a seat that holds nothing: the other seat owns what both did, and stands for the parts of both.
    /// Constant time.
    pub fn join_seat(&self, seat: &mut BoardSeat<J>, other: BoardSeat<J>) -> Result<(), Memory>
        requires of { seat.old.of ≡ self.now.of }
        requires other { (other.of ≡ self.now.of) × HoldsNothing other }
        ensures seat { seat.new ≡ joined seat.old other }
        ensures owns { (m : ℕ) → m < 2048 → owns_at seat.new m ≡ merge (owns_at seat.old m) (owns_at other m) }
    {
        let SeatOf { seat: other } = other;
        self.table.shared.join_seat::<Glue>(&mut seat.seat, other);
        Ok(())
    }

    /// Gives the board up, from its last seat: one that stands for all parts of the board and has nothing open, or one
    /// that owns every node, free or merged. Every node was free or merged, and its slot was empty. Linear in the
    /// number of nodes, and takes no memory.
    pub fn close(self, _alloc: Global, seat: BoardSeat<J>) -> Result<(), Memory>
        requires of { seat.of ≡ self.of }
        requires last { IsLast seat }
    {
        let BoardOf {
            job: _,
            n: _,
            table,
        } = self;
        let SeatOf { seat } = seat;
        let mut closed = table.close_with(seat);
        let mut k = 0;
        while k < PLACES {
            let state = closed.word(k) % 16;
            prove!(state == 0 || state == 6);
            let None = closed.take(k) else { unreachable!() };
            k += 1;
        }
        closed.free();
        Ok(())
    }
}

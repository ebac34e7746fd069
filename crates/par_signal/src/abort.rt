//! The abort flag: `No` at first, set once `By` a marked index, and at any time for want of memory.
ghost use Rattle.std.specs.Prelude.{◌≡◌, true};
ghost use Rattle.par_laws.specs.Marks.{IsMarked};
ghost use Rattle.par_signal.specs.Values.{IsAbort, IsSet, MayFollow, set_by};
ghost use Rattle.par_signal.specs.Calls.{ReadsAbort, sees_abort, aborts, aborts_memory};

use crate::rule::{ABORT, AbortBy, AbortMemory, LoadAbort, MEMORY_WORD};
use crate::signals::{SignalSeat, Signals};

/// What the abort flag says.
#[derive(Clone, Copy, Debug, PartialEq, Eq)]
pub enum Abort {
    /// Nobody asked for an end.
    No,
    /// This marked index decides.
    By(u32),
    /// Somebody wants memory.
    Memory,
}

impl Signals {
    /// Sets the flag to `By(i)` where it is `No`, and else leaves it. Constant time, and takes no memory.
    pub fn abort(&self, seat: &mut SignalSeat, i: u32)
        requires of { seat.old.of ≡ self.now }
        requires marked { IsMarked self.now.marks i }
        ensures of { seat.new.of ≡ self.now }
        ensures seen { (a : Abort) × ReadsAbort self.now.marks seat.old a × (seat.new ≡ aborts seat.old i a) }
        ensures names { IsAbort self.now.marks seat.new.abort }
        ensures set { IsSet seat.new.abort }
        ensures follows { MayFollow seat.old.abort seat.new.abort }
        ensures alone { seat.old.alone ≡ true → seat.new.abort ≡ set_by seat.old.abort i }
    {
        let shared = &self.table.shared;
        shared.compare_exchange::<AbortBy>(&mut seat.seat, ABORT, 0, 1 + u64::from(i));
    }

    /// Sets the flag to `Memory`, whatever stood there. Constant time, and takes no memory.
    pub fn abort_memory(&self, seat: &mut SignalSeat)
        requires { seat.old.of ≡ self.now }
        ensures of { seat.new.of ≡ self.now }
        ensures seen { (a : Abort) × ReadsAbort self.now.marks seat.old a × (seat.new ≡ aborts_memory seat.old a) }
        ensures set { seat.new.abort ≡ Abort.Memory }
    {
        let shared = &self.table.shared;
        shared.fetch_max::<AbortMemory>(&mut seat.seat, ABORT, MEMORY_WORD);
    }

    /// What the flag says. `By` always names a marked index, and whatever is set stays set: `By` of the same index, or
    /// `Memory`. Constant time, and takes no memory.
    pub fn aborted(&self, seat: &mut SignalSeat) -> Abort
        requires { seat.old.of ≡ self.now }
        ensures of { seat.new.of ≡ self.now }
        ensures seen { seat.new ≡ sees_abort seat.old result }
        ensures names { IsAbort self.now.marks result }
        ensures follows { MayFollow seat.old.abort result }
        ensures set { IsSet seat.old.abort → IsSet result }
        ensures alone { seat.old.alone ≡ true → result ≡ seat.old.abort }
        // Where no other seat is there, Memory comes only where this one called `abort_memory`.
        ensures caller { seat.old.alone ≡ true → result ≡ Abort.Memory → seat.old.called ≡ true }
    {
        let found = self.table.shared.load::<LoadAbort>(&mut seat.seat, ABORT);
        if found == 0 {
            Abort::No
        } else if found == MEMORY_WORD {
            Abort::Memory
        } else {
            Abort::By((found - 1) as u32)
        }
    }
}

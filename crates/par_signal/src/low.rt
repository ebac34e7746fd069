//! The low flag: the number of items at first, then a marked index that only falls.
ghost use Rattle.std.specs.Prelude.{◌≡◌, ◌≤◌, ℕ, min, true};
ghost use Rattle.par_laws.specs.Marks.{IsMarked};
ghost use Rattle.par_signal.specs.Values.{IsLow};
ghost use Rattle.par_signal.specs.Calls.{ReadsLow, sees_low, lowers};

use crate::rule::{LOW, LoadLow, Lower};
use crate::signals::{SignalSeat, Signals};

impl Signals {
    /// Lowers the flag to `i`, or leaves it where it is lower already. Constant time, and takes no memory.
    pub fn lower(&self, seat: &mut SignalSeat, i: u32)
        requires of { seat.old.of ≡ self.now }
        requires marked { IsMarked self.now.marks i }
        ensures of { seat.new.of ≡ self.now }
        ensures seen { (x : ℕ) × ReadsLow self.now.marks seat.old x × (seat.new ≡ lowers seat.old i x) }
        ensures names { IsLow self.now.marks seat.new.low }
        ensures bound { seat.new.low ≤ i }
        ensures falls { seat.new.low ≤ seat.old.low }
        ensures alone { seat.old.alone ≡ true → seat.new.low ≡ min seat.old.low i }
    {
        let shared = &self.table.shared;
        shared.fetch_min::<Lower>(&mut seat.seat, LOW, u64::from(i));
    }

    /// The flag: the number of items, or a marked index. Constant time, and takes no memory.
    pub fn low(&self, seat: &mut SignalSeat) -> u32
        requires { seat.old.of ≡ self.now }
        ensures of { seat.new.of ≡ self.now }
        ensures seen { seat.new ≡ sees_low seat.old result }
        ensures names { IsLow self.now.marks result }
        ensures falls { result ≤ seat.old.low }
        ensures alone { seat.old.alone ≡ true → result ≡ seat.old.low }
    {
        self.table.shared.load::<LoadLow>(&mut seat.seat, LOW) as u32
    }
}

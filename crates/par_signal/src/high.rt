//! The high flag: 0 at first, then one above a marked index, which only rises.
ghost use Rattle.std.specs.Prelude.{◌≡◌, ◌+◌, ◌≤◌, ℕ, max, true};
ghost use Rattle.par_laws.specs.Marks.{IsMarked};
ghost use Rattle.par_signal.specs.Values.{IsHigh};
ghost use Rattle.par_signal.specs.Calls.{ReadsHigh, sees_high, raises};

use crate::rule::{HIGH, LoadHigh, Raise};
use crate::signals::{SignalSeat, Signals};

impl Signals {
    /// Raises the flag to `i + 1`, or leaves it where it is higher already. Constant time, and takes no memory.
    pub fn raise(&self, seat: &mut SignalSeat, i: u32)
        requires of { seat.old.of ≡ self.now }
        requires marked { IsMarked self.now.marks i }
        ensures of { seat.new.of ≡ self.now }
        ensures seen { (x : ℕ) × ReadsHigh self.now.marks seat.old x × (seat.new ≡ raises seat.old (i + 1) x) }
        ensures names { IsHigh self.now.marks seat.new.high }
        ensures bound { i + 1 ≤ seat.new.high }
        ensures rises { seat.old.high ≤ seat.new.high }
        ensures alone { seat.old.alone ≡ true → seat.new.high ≡ max seat.old.high (i + 1) }
    {
        let shared = &self.table.shared;
        shared.fetch_max::<Raise>(&mut seat.seat, HIGH, u64::from(i) + 1);
    }

    /// The flag: 0, or one above a marked index. Constant time, and takes no memory.
    pub fn high(&self, seat: &mut SignalSeat) -> u32
        requires { seat.old.of ≡ self.now }
        ensures of { seat.new.of ≡ self.now }
        ensures seen { seat.new ≡ sees_high seat.old result }
        ensures names { IsHigh self.now.marks result }
        ensures rises { seat.old.high ≤ result }
        ensures alone { seat.old.alone ≡ true → result ≡ seat.old.high }
    {
        self.table.shared.load::<LoadHigh>(&mut seat.seat, HIGH) as u32
    }
}

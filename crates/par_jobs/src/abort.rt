//! Reads of the abort flag.
ghost use Rattle.std.specs.Prelude.{◌≡◌, ◌<◌, ◌≤◌, ◌-◌, true, false, IfOk};
ghost use Rattle.par_laws.specs.Marks.{IsMarked};
ghost use Rattle.par_signal.specs.Values.{IsSet};
ghost use Rattle.par_task.specs.Leaves.{IsReadAgain};
ghost use Rattle.par_task.specs.Seats.{IsLater};
ghost use Rattle.par_jobs.specs.Steps.{IsAbortRead, IsGoingOn, IsAborted};

use par_laws::Memory;
use par_signal::{Abort, SignalSeat, Signals};

// Which item decided, if one did.
pub(crate) fn decided(signals: &Signals, seat: &mut SignalSeat) -> Result<Option<u32>, Memory>
    requires { seat.old.of ≡ signals.now }
    ensures later { IsLater seat.old seat.new }
    ensures read { IfOk result (λ r. IsAbortRead signals.now.marks seat.old seat.new r) }
{
    match signals.aborted(seat) {
        Abort::No => Ok(None),
        Abort::By(i) => Ok(Some(i)),
        Abort::Memory => Err(Memory),
    }
}

// The item that decided, where the flag was seen to be set.
pub(crate) fn decider(signals: &Signals, seat: &mut SignalSeat) -> Result<u32, Memory>
    requires seat { seat.old.of ≡ signals.now }
    requires set { IsSet seat.old.abort }
    ensures later { IsLater seat.old seat.new }
    ensures marked { IfOk result (λ i. IsMarked signals.now.marks i) }
{
    match signals.aborted(seat) {
        Abort::No => unreachable!(),
        Abort::By(i) => Ok(i),
        Abort::Memory => Err(Memory),
    }
}

// Whether the flag is set, where item `at` is before `hi`. It stays out of line, so that the loop over the items keeps to
// one test of its counter.
#[inline(never)]
fn is_aborted(signals: &Signals, seat: &mut SignalSeat, at: u32, hi: u32) -> bool
    requires { seat.old.of ≡ signals.now }
    ensures later { IsLater seat.old seat.new }
    ensures unset { result ≡ false → IsGoingOn seat.old seat.new }
    ensures set { result ≡ true → IsAborted seat.old seat.new at hi }
{
    if hi <= at {
        return false;
    }
    match signals.aborted(seat) {
        Abort::No => false,
        Abort::By(_) => true,
        Abort::Memory => true,
    }
}

// Whether a leaf over `lo..hi` breaks off before item `at`: the flag is read after every 512 items, while items are left.
pub(crate) fn is_decided(
    signals: &Signals,
    seat: &mut SignalSeat,
    lo: u32,
    at: u32,
    hi: u32,
) -> bool
    requires seat { seat.old.of ≡ signals.now }
    requires on { lo < at }
    ensures later { IsLater seat.old seat.new }
    ensures unset { result ≡ false → IsGoingOn seat.old seat.new }
    ensures set { result ≡ true → IsReadAgain (at - lo) × IsAborted seat.old seat.new at hi }
{
    if (at - lo) % 512 != 0 {
        return false;
    }
    is_aborted(signals, seat, at, hi)
}

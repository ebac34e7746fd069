ghost use Rattle.std.specs.Prelude.{◌≡◌, ◌≤◌, IfOk, true, false, ◌∷◌, []};
ghost use Rattle.par_laws.specs.Marks.{IsMarked};

use super::*;
use par_laws::Memory;
use std::alloc::Global;
use std::test::Fail;
use std::thread;
use std::thread::Threads;

// Flags over four items, of which the second and the fourth are marked.
fn four_items(alloc: Global) -> Result<(Signals, SignalSeat), Fail>
    ensures marks { IfOk result (λ s. s.0.marks ≡ false ∷ true ∷ false ∷ true ∷ []) }
    ensures seat { IfOk result (λ s. s.1.of ≡ s.0) }
{
    let marks = MarkList {
        marks: vec![in alloc; false, true, false, true]?,
    };
    Ok(Signals::open(alloc, &marks, 4)?)
}

#[test]
fn each_flag_goes_one_way(rt: HostRuntime) -> Result<(), Fail> {
    let (signals, mut seat) = four_items(rt.alloc())?;
    assert_eq!(rt; signals.low(&mut seat), 4);
    signals.lower(&mut seat, 3);
    assert_eq!(rt; signals.low(&mut seat), 3);
    signals.lower(&mut seat, 1);
    signals.lower(&mut seat, 3);
    assert_eq!(rt; signals.low(&mut seat), 1);
    assert_eq!(rt; signals.high(&mut seat), 0);
    signals.raise(&mut seat, 1);
    assert_eq!(rt; signals.high(&mut seat), 2);
    signals.raise(&mut seat, 3);
    signals.raise(&mut seat, 1);
    assert_eq!(rt; signals.high(&mut seat), 4);
    assert_eq!(rt; signals.aborted(&mut seat), Abort::No);
    signals.abort(&mut seat, 3);
    signals.abort(&mut seat, 1);
    assert_eq!(rt; signals.aborted(&mut seat), Abort::By(3));
    signals.abort_memory(&mut seat);
    signals.abort(&mut seat, 1);
    assert_eq!(rt; signals.aborted(&mut seat), Abort::Memory);
    Ok(())
}

#[test]
fn a_seat_split_and_joined_finds_the_same(rt: HostRuntime) -> Result<(), Fail> {
    let (signals, mut seat) = four_items(rt.alloc())?;
    signals.lower(&mut seat, 3);
    signals.abort(&mut seat, 3);
    let mut other = signals.split_seat(rt.alloc(), &mut seat)?;
    assert_eq!(rt; signals.low(&mut other), 3);
    signals.raise(&mut other, 1);
    signals.join_seat(&mut seat, other)?;
    assert_eq!(rt; signals.low(&mut seat), 3);
    assert_eq!(rt; signals.high(&mut seat), 2);
    assert_eq!(rt; signals.aborted(&mut seat), Abort::By(3));
    Ok(())
}

// Lowers, and gives the seat back.
fn lowered(signals: &Signals, mut seat: SignalSeat, i: u32) -> SignalSeat
    requires of { seat.of ≡ signals.now }
    requires marked { IsMarked signals.now.marks i }
    ensures { (result.of ≡ signals.now) × (result.low ≤ i) }
{
    signals.lower(&mut seat, i);
    seat
}

// Reads low until it is no more than i, or gives up after many turns.
fn watched(signals: &Signals, mut seat: SignalSeat, i: u32) -> (SignalSeat, bool)
    requires { seat.of ≡ signals.now }
    ensures { result.0.of ≡ signals.now }
{
    for _ in 0..100_000_000u32 {
        if signals.low(&mut seat) <= i {
            return (seat, true);
        }
    }
    (seat, false)
}

// One thread lowers to i, and another watches. Answers whether it saw that, and what low is then.
fn seen_by_another<R: Threads + Sync>(
    rt: &R,
    signals: &Signals,
    one: SignalSeat,
    two: SignalSeat,
    i: u32,
) -> Result<(bool, u32), Memory>
    requires one { one.of ≡ signals.now }
    requires two { two.of ≡ signals.now }
    requires marked { IsMarked signals.now.marks i }
    ensures { IfOk result (λ r. r.1 ≤ i) }
{
    let ((watcher, saw), mut lowerer) = thread::join(
        rt,
        move ||
            requires { two.of ≡ signals.now }
            ensures { result.0.of ≡ signals.entry.now }
        { watched(signals, two, i) },
        move ||
            requires { (one.of ≡ signals.now) × IsMarked signals.now.marks i }
            ensures { (result.of ≡ signals.entry.now) × (result.low ≤ i) }
        { lowered(signals, one, i) },
    );
    signals.join_seat(&mut lowerer, watcher)?;
    let low = signals.low(&mut lowerer);
    Ok((saw, low))
}

#[test]
fn one_thread_sees_what_another_lowers(rt: HostRuntime) -> Result<(), Fail> {
    let (signals, mut seat) = four_items(rt.alloc())?;
    let other = signals.split_seat(rt.alloc(), &mut seat)?;
    assert_eq!(rt; seen_by_another(&rt, &signals, seat, other, 1)?, (true, 1));
    Ok(())
}

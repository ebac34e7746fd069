//! The leaf of a low-flag job.
ghost use Rattle.std.specs.Prelude.{◌≡◌, ℕ, ◌+◌, ◌-◌, ◌<◌, ◌≤◌, length, map, true, IfOk};
ghost use Rattle.par_laws.specs.Marks.{IsMarked};
ghost use Rattle.par_signal.specs.Values.{IsLow};
ghost use Rattle.par_task.specs.Marking.{low_flag, marks_of};
ghost use Rattle.par_task.specs.Leaves.{IsReadAgain};
ghost use Rattle.par_task.specs.Seats.{IsLater, IsLeafOf};
ghost use Rattle.par_jobs.specs.Steps.{IsLowRead, IsLowered};
ghost use Rattle.par_jobs.specs.Passing.{IsPassed, IsLeft, IsGiven, is_whole, left_by};

use crate::builder::Builder;
use crate::few::{FEW, Stage, pass_few};
use par_laws::{Memory, Probe, Shown, Test};
use par_signal::{SignalSeat, Signals};
use par_splitter::Splitter;
use par_task::Marked;
use std::alloc::Global;

/// Where a low-flag leaf ended.
#[derive(Drop)]
pub(crate) enum Ended<I> {
    /// After its last item.
    Whole,
    /// At this item, which is marked.
    Halted(I),
    /// At an item that another leaf had lowered the flag to, or one past it.
    Past,
}

impl<I> Ended<I> {
    // Whether it passed all its items.
    pub(crate) fn is_whole(&self) -> bool
        ensures { result ≡ is_whole self.now }
    {
        match self {
            Ended::Whole => true,
            Ended::Halted(_) => false,
            Ended::Past => false,
        }
    }
}

/// What a low-flag leaf did: the flag that it read at its start, the index that it came to, what it built of the items
/// before that, and where it ended.
#[derive(Drop)]
pub(crate) struct Passed<K, I> {
    pub flag: u32,
    pub at: u32,
    pub kept: K,
    pub ended: Ended<I>,
}

// What a leaf did, by its parts.
fn leaf_did<K: Drop, I: Drop>(flag: u32, at: u32, kept: K, ended: Ended<I>) -> Passed<K, I>
    ensures { result ≡ record { flag = flag; at = at; kept = kept; ended = ended } }
{
    Passed {
        flag,
        at,
        kept,
        ended,
    }
}

// The low flag.
#[tactic(auto, using(crate::proofs::Fronts::low_read))]
fn read_low(signals: &Signals, seat: &mut SignalSeat) -> u32
    requires { seat.old.of ≡ signals.now }
    ensures names { IsLow signals.now.marks result }
    ensures read { IsLowRead seat.old seat.new }
    ensures seen { result ≡ seat.new.low }
{
    signals.low(seat)
}

// Tells that item `at` is marked.
#[tactic(auto, using(crate::proofs::Fronts::lower_later))]
fn tell_mark(signals: &Signals, seat: &mut SignalSeat, at: u32)
    requires seat { seat.old.of ≡ signals.now }
    requires marked { IsMarked signals.now.marks at }
    ensures later { IsLater seat.old seat.new }
    ensures told { seat.new.low ≤ at }
{
    signals.lower(seat, at);
}

// Whether another leaf lowered the flag to item `at` or one before it, where `at` is before `hi`. It stays out of line, so
// that the loop over the items keeps to one test of its counter.
#[inline(never)]
fn is_lowered(signals: &Signals, seat: &mut SignalSeat, at: u32, hi: u32) -> bool
    requires { seat.old.of ≡ signals.now }
    ensures read { IsLowRead seat.old seat.new }
    ensures past { result ≡ true → IsLowered signals.now.marks seat.old at hi }
{
    if hi <= at {
        return false;
    }
    read_low(signals, seat) <= at
}

// Whether a leaf over `lo..hi` breaks off before item `at`: the low flag is read after every 512 items, while items are
// left.
fn is_past(signals: &Signals, seat: &mut SignalSeat, lo: u32, at: u32, hi: u32) -> bool
    requires seat { seat.old.of ≡ signals.now }
    requires on { lo < at }
    ensures read { IsLowRead seat.old seat.new }
    ensures past { result ≡ true → IsReadAgain (at - lo) × IsLowered signals.now.marks seat.old at hi }
{
    if (at - lo) % 512 != 0 {
        return false;
    }
    is_lowered(signals, seat, at, hi)
}

// Passes the items of a leaf whose flag is past its first item: up to the first marked one, which it tells by the low
// flag, or to where another leaf has lowered the flag. It stands inline, so that a probe and a splitter of the caller's
// own stay in registers.
#[inline(always)]
fn pass_items<S: Splitter, P: Test<S::Item>, B: Builder<S::Item>>(
    alloc: Global,
    marked: &Marked<'_, S, P>,
    builder: &B,
    flag: u32,
    input: &mut S,
    probe: &mut Probe<'_, P>,
    signals: &Signals,
    seat: &mut SignalSeat,
) -> Result<Passed<B::Built, S::Item>, Memory>
    requires given { IsGiven low_flag (S.items marked.now.split) (P.verdict marked.now.inner) (P.verdict probe.old.inner) (S.lo input.old) (S.items input.old) probe.old.made signals.now seat.old.of }
    requires flag { IsLow signals.now.marks flag × (S.lo input.old < flag) × (flag ≤ seat.old.low) }
    ensures test { probe.new.inner ≡ probe.old.inner }
    ensures made { probe.old.made ≤ probe.new.made }
    ensures seat { IsLater seat.old seat.new }
    ensures leaf { IfOk result (λ r. IsLeafOf low_flag (marks_of low_flag (map (P.verdict marked.now.inner) (S.items marked.now.split))) (S.lo input.old) (S.lo input.old + length (S.items input.old)) seat.old seat.new flag (probe.new.made - probe.old.made)) }
    ensures passed { IfOk result (λ r. (r.flag ≡ flag) × IsPassed (B.built builder.now) (S.items marked.now.split) (marks_of low_flag (map (P.verdict marked.now.inner) (S.items marked.now.split))) (S.lo input.old) (S.lo input.old + length (S.items input.old)) r.at (B.Built.shown r.kept) (is_whole r.ended)) }
    ensures left { IfOk result (λ r. IsLeft (S.items marked.now.split) r.at (S.lo input.old + length (S.items input.old)) (left_by S.Item.shown r.ended (S.items input.new))) }
{
    let (lo, hi) = input.span();
    let mut at = lo;
    let mut kept = builder.start(alloc)?;
    loop {
        let few = pass_few(alloc, marked, builder, FEW, at, kept, input, probe)?;
        at = few.at;
        kept = few.kept;
        match few.stage {
            Stage::All => {}
            Stage::Met(item, _) => {
                tell_mark(signals, seat, at);
                return Ok(leaf_did(flag, at, kept, Ended::Halted(item)));
            }
            Stage::Out => return Ok(leaf_did(flag, hi, kept, Ended::Whole)),
        }
        let past = is_past(signals, seat, lo, at, hi);
        if past {
            return Ok(leaf_did(flag, at, kept, Ended::Past));
        }
    }
}

/// Passes the items of a leaf up to the first marked one, which it tells by the low flag. It passes none where the flag
/// is at most `lo`, and breaks off where another leaf lowered the flag to what it has passed. The item that ended it and
/// those left in `input` are all those from the place on where it ended. It stands inline with the loop, so that the
/// caller's input stays in registers.
#[inline(always)]
pub(crate) fn pass_low<S: Splitter, P: Test<S::Item>, B: Builder<S::Item>>(
    alloc: Global,
    marked: &Marked<'_, S, P>,
    builder: &B,
    input: &mut S,
    probe: &mut Probe<'_, P>,
    signals: &Signals,
    seat: &mut SignalSeat,
) -> Result<Passed<B::Built, S::Item>, Memory>
    requires { IsGiven low_flag (S.items marked.now.split) (P.verdict marked.now.inner) (P.verdict probe.old.inner) (S.lo input.old) (S.items input.old) probe.old.made signals.now seat.old.of }
    ensures test { probe.new.inner ≡ probe.old.inner }
    ensures made { probe.old.made ≤ probe.new.made }
    ensures seat { IsLater seat.old seat.new }
    ensures leaf { IfOk result (λ r. IsLeafOf low_flag (marks_of low_flag (map (P.verdict marked.now.inner) (S.items marked.now.split))) (S.lo input.old) (S.lo input.old + length (S.items input.old)) seat.old seat.new r.flag (probe.new.made - probe.old.made)) }
    ensures passed { IfOk result (λ r. IsPassed (B.built builder.now) (S.items marked.now.split) (marks_of low_flag (map (P.verdict marked.now.inner) (S.items marked.now.split))) (S.lo input.old) (S.lo input.old + length (S.items input.old)) r.at (B.Built.shown r.kept) (is_whole r.ended)) }
    ensures left { IfOk result (λ r. IsLeft (S.items marked.now.split) r.at (S.lo input.old + length (S.items input.old)) (left_by S.Item.shown r.ended (S.items input.new))) }
{
    let (lo, _) = input.span();
    let flag = read_low(signals, seat);
    if flag <= lo {
        let none = builder.start(alloc)?;
        return Ok(leaf_did(flag, lo, none, Ended::Past));
    }
    let mut asking = probe.take();
    let passed = pass_items(
        alloc,
        marked,
        builder,
        flag,
        input,
        &mut asking,
        signals,
        seat,
    );
    *probe = asking;
    passed
}

//! A job that ends at any marked item.
ghost use Rattle.std.specs.Prelude.{◌≡◌, ℕ, ◌+◌, ◌-◌, ◌≤◌, ◌<◌, ◌^◌, length, map, IfOk};
ghost use Rattle.par_task.specs.Marking.{abort_flag, marks_of};
ghost use Rattle.par_task.specs.Seats.{IsLater, IsLeafOf};
ghost use Rattle.par_task.specs.Spans.{IsSpan};
ghost use Rattle.par_jobs.specs.Merges.{IsSought, not_found_by};
ghost use Rattle.par_jobs.specs.Passing.{IsGiven};
ghost use Rattle.par_jobs.specs.Few.{IsFew};
ghost use Rattle.par_jobs.specs.declared.search.Sought.TheVariants.{Found};

use crate::abort::{decided, decider, is_decided};
use crate::fault::{is_pass, note_fault};
use crate::few::{FEW, Few, Stage, pass_few};
use crate::stock::Nothing;
use par_laws::{FaultAt, Memory, Probe, Shown, Test};
use par_signal::{SignalSeat, Signals};
use par_splitter::Splitter;
use par_task::{Done, Job, Marked};
use std::alloc::Global;

/// What a search found: the index of an item that passes; or, where none passes, the least fault; or nothing.
#[derive(Clone, Copy, Debug, PartialEq, Eq)]
pub enum Sought {
    Found(u32),
    Fell(FaultAt),
    Nowhere,
}

impl Shown for Sought {
    type Value = Sought;

    ghost shown = { λ x. x };
}

// What is answered where no item passes.
fn not_found(fault: Option<FaultAt>) -> Sought
    ensures { result ≡ not_found_by fault }
{
    match fault {
        None => Sought::Nowhere,
        Some(fault) => Sought::Fell(fault),
    }
}

// What a leaf did that ended at an item that passes, or after another leaf met one.
fn found(i: u32, flag: u32) -> Done<Sought>
    ensures { result ≡ record { part = Found i; flag = flag } }
{
    Done {
        part: Sought::Found(i),
        flag,
    }
}

// Passes the next items of a leaf over `lo..`, up to the first that does not fail: a few of them, or one where an item that
// was met left fewer up to the next place at which the flag is read.
#[inline(always)]
fn seek_few<S: Splitter, P: Test<S::Item>>(
    alloc: Global,
    marked: &Marked<'_, S, P>,
    lo: u32,
    at: u32,
    input: &mut S,
    probe: &mut Probe<'_, P>,
) -> Result<Few<Nothing, S::Item>, Memory>
    requires from { lo ≤ at }
    requires part { IsSpan (S.items marked.now.split) at (S.items input.old) }
    requires small { length (S.items marked.now.split) ≤ 4194304 }
    requires test { map (P.verdict probe.old.inner) (S.items marked.now.split) ≡ map (P.verdict marked.now.inner) (S.items marked.now.split) }
    requires room { probe.old.made + length (S.items input.old) < 2 ^ 64 }
    ensures test { probe.new.inner ≡ probe.old.inner }
    ensures made { probe.old.made ≤ probe.new.made }
    ensures few { IfOk result (λ r. IsFew S.Item.shown (P.verdict marked.now.inner) (S.items marked.now.split) at (S.items input.old) r.at r.stage (S.items input.new) (probe.new.made - probe.old.made)) }
{
    if (at - lo) % FEW == 0 {
        pass_few(alloc, marked, &Nothing, FEW, at, Nothing, input, probe)
    } else {
        pass_few(alloc, marked, &Nothing, 1, at, Nothing, input, probe)
    }
}

// Looks through the items of a leaf for one that passes, and tells it by the abort flag. It breaks off where another leaf
// met one. It stands inline, so that a probe of the caller's own stays in registers.
#[inline(always)]
fn seek<S: Splitter, P: Test<S::Item>>(
    alloc: Global,
    marked: &Marked<'_, S, P>,
    mut input: S,
    probe: &mut Probe<'_, P>,
    signals: &Signals,
    seat: &mut SignalSeat,
) -> Result<Done<Sought>, Memory>
    requires { IsGiven abort_flag (S.items marked.now.split) (P.verdict marked.now.inner) (P.verdict probe.old.inner) (S.lo input) (S.items input) probe.old.made signals.now seat.old.of }
    ensures test { probe.new.inner ≡ probe.old.inner }
    ensures made { probe.old.made ≤ probe.new.made }
    ensures seat { IsLater seat.old seat.new }
    ensures leaf { IfOk result (λ d. IsLeafOf abort_flag (marks_of abort_flag (map (P.verdict marked.now.inner) (S.items marked.now.split))) (S.lo input) (S.lo input + length (S.items input)) seat.old seat.new d.flag (probe.new.made - probe.old.made)) }
    ensures good { IfOk result (λ d. IsSought (map (P.verdict marked.now.inner) (S.items marked.now.split)) (marks_of abort_flag (map (P.verdict marked.now.inner) (S.items marked.now.split))) (S.lo input) (S.lo input + length (S.items input)) d.part) }
{
    if let Some(i) = decided(signals, seat)? {
        return Ok(found(i, 0));
    }
    let flag = marked.count();
    let (lo, hi) = input.span();
    let mut at = lo;
    let mut fault: Option<FaultAt> = None;
    loop {
        let few = seek_few(alloc, marked, lo, at, &mut input, probe)?;
        at = few.at;
        match few.stage {
            Stage::All => {}
            Stage::Met(_, verdict) => {
                let pass = is_pass(verdict);
                if pass {
                    signals.abort(seat, at);
                    return Ok(found(at, flag));
                }
                fault = note_fault(fault, verdict, at);
                at += 1;
            }
            Stage::Out => {
                return Ok(Done {
                    part: not_found(fault),
                    flag,
                });
            }
        }
        let ended = is_decided(signals, seat, lo, at, hi);
        if ended {
            let i = decider(signals, seat)?;
            return Ok(found(i, flag));
        }
    }
}

/// Finds an item that passes. `forall` and `sameElements` have the contrary test.
#[derive(Drop)]
pub struct SearchJob<'a, S: Splitter, P: Test<S::Item>> {
    pub marked: Marked<'a, S, P>,
    pub ghost small: { length (S.items marked.split) ≤ 4194304 },
}

impl<'a, S: Splitter, P: Test<S::Item>> Job for SearchJob<'a, S, P> {
    ghost use Rattle.std.proofs.Common.{sym, ◌∙◌};
    ghost use Rattle.par_jobs.specs.Merges.{sought_merge, sought_joins};

    type Split = S;

    type Pred = P;

    type Part = Sought;

    ghost kind = { abort_flag };

    ghost source = { λ j. S.items j.marked.split };

    ghost verdicts = { λ j. map (P.verdict j.marked.inner) (S.items j.marked.split) };

    ghost good = { λ j lo hi p. IsSought (map (P.verdict j.marked.inner) (S.items j.marked.split)) (marks_of abort_flag (map (P.verdict j.marked.inner) (S.items j.marked.split))) lo hi p };

    ghost merges = { λ j a b c. c ≡ sought_merge a b };

    fn leaf(
        &self,
        alloc: Global,
        input: S,
        probe: &mut Probe<'_, P>,
        signals: &Signals,
        seat: &mut SignalSeat,
    ) -> Result<Done<Sought>, Memory> {
        let mut asking = probe.take();
        let done = seek(alloc, &self.marked, input, &mut asking, signals, seat);
        *probe = asking;
        done
    }

    fn merge(&self, left: Sought, right: Sought) -> Result<Sought, Memory> {
        Ok(match (left, right) {
            (Sought::Found(i), _) => Sought::Found(i),
            (Sought::Fell(_), Sought::Found(i)) => Sought::Found(i),
            (Sought::Fell(fault), _) => Sought::Fell(fault),
            (Sought::Nowhere, other) => other,
        })
    }

    ghost joins = { λ j lo mid hi a b c h k l p q m. sought_joins _ _ lo mid hi a b c h k p q m };

    ghost one_merge = { λ j a b c d p q. p ∙ sym q };
}

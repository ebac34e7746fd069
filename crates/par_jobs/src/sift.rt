//! A job that tests every item.
ghost use Rattle.std.specs.Prelude.{◌≡◌, ℕ, ◌≤◌, ◌<◌, ◌^◌, List, ◌++◌, length, map, IfOk};
ghost use Rattle.par_jobs.specs.Merges.{sifted_by, kept_if};

use crate::builder::Builder;
use crate::fault::{is_fail, is_pass, note_fault};
use par_laws::{FaultAt, Memory, Probe, Shown, Test};
use par_signal::{SignalSeat, Signals};
use par_splitter::Splitter;
use par_task::{Done, Job, Marked};
use std::alloc::Global;

/// What was built of the items that pass and of those that fail; or the least fault, where an item faults.
#[derive(Drop)]
pub enum Sifted<A, B> {
    Got(A, B),
    Fell(FaultAt),
}

impl<A: Shown, B: Shown> Shown for Sifted<A, B> {
    ghost use Rattle.par_jobs.specs.Merges.{sifted_shown};

    type Value = Sifted<A::Value, B::Value>;

    ghost shown = { λ p. sifted_shown A.shown B.shown p };
}

// What is built with an item more, where it is to be added.
fn add_if<I: Shown, B: Builder<I>>(
    alloc: Global,
    builder: &B,
    value: B::Built,
    adds: bool,
    item: &I,
) -> Result<B::Built, Memory>
    requires { (xs : List I.Value) × (length xs < 4194304) × B.built builder.now xs (B.Built.shown value) }
    ensures { IfOk result (λ v. (xs : List I.Value) → B.built builder.now xs (B.Built.shown value) → B.built builder.now (xs ++ kept_if adds (I.shown item.now)) (B.Built.shown v)) }
{
    if adds {
        builder.add(alloc, value, item)
    } else {
        Ok(value)
    }
}

// What a leaf answers: what it built, or the fault that it met.
fn outcome<A: Drop, B: Drop>(fault: Option<FaultAt>, passing: A, failing: B) -> Sifted<A, B>
    ensures { result ≡ sifted_by fault passing failing }
{
    match fault {
        None => Sifted::Got(passing, failing),
        Some(fault) => Sifted::Fell(fault),
    }
}

/// Builds of the items that pass, and of those that fail.
#[derive(Drop)]
pub struct SiftJob<'a, S: Splitter, P: Test<S::Item>, A, B> {
    pub marked: Marked<'a, S, P>,
    pub passing: &'a A,
    pub failing: &'a B,
    pub ghost small: { length (S.items marked.split) ≤ 4194304 },
}

impl<'a, S: Splitter, P: Test<S::Item>, A: Builder<S::Item>, B: Builder<S::Item>> Job
    for SiftJob<'a, S, P, A, B> {
    ghost use Rattle.par_task.specs.Marking.{no_flag};
    ghost use Rattle.par_jobs.specs.Merges.{IsSiftedOf, SiftedMerges, sifted_joins, one_sifted};

    type Split = S;

    type Pred = P;

    type Part = Sifted<A::Built, B::Built>;

    ghost kind = { no_flag };

    ghost source = { λ j. S.items j.marked.split };

    ghost verdicts = { λ j. map (P.verdict j.marked.inner) (S.items j.marked.split) };

    ghost good = { λ j lo hi p. IsSiftedOf (P.verdict j.marked.inner) (A.built j.passing.now) (B.built j.failing.now) (S.items j.marked.split) lo hi p };

    ghost merges = { λ j a b c. SiftedMerges (A.joined j.passing.now) (B.joined j.failing.now) a b c };

    fn leaf(
        &self,
        alloc: Global,
        mut input: S,
        probe: &mut Probe<'_, P>,
        _signals: &Signals,
        _seat: &mut SignalSeat,
    ) -> Result<Done<Sifted<A::Built, B::Built>>, Memory> {
        let (lo, _) = input.span();
        let mut at = lo;
        let mut passing = self.passing.start(alloc)?;
        let mut failing = self.failing.start(alloc)?;
        let mut fault: Option<FaultAt> = None;
        while let Some(item) = input.next() {
            let verdict = probe.test(&item);
            fault = note_fault(fault, verdict, at);
            at += 1;
            passing = add_if(alloc, self.passing, passing, is_pass(verdict), &item)?;
            failing = add_if(alloc, self.failing, failing, is_fail(verdict), &item)?;
        }
        Ok(Done {
            part: outcome(fault, passing, failing),
            flag: self.marked.count(),
        })
    }

    fn merge(
        &self,
        left: Sifted<A::Built, B::Built>,
        right: Sifted<A::Built, B::Built>,
    ) -> Result<Sifted<A::Built, B::Built>, Memory> {
        match (left, right) {
            (Sifted::Got(a, b), Sifted::Got(c, d)) => {
                let passing = self.passing.join(a, c)?;
                let failing = self.failing.join(b, d)?;
                Ok(Sifted::Got(passing, failing))
            }
            (Sifted::Fell(fault), _) => Ok(Sifted::Fell(fault)),
            (Sifted::Got(_, _), Sifted::Fell(fault)) => Ok(Sifted::Fell(fault)),
        }
    }

    ghost joins = { λ j lo mid hi a b c h k l p q m. sifted_joins (P.verdict j.marked.inner) (A.built j.passing.now) (B.built j.failing.now) (A.joined j.passing.now) (B.joined j.failing.now) (A.joins j.passing.now) (B.joins j.failing.now) _ lo mid hi a b c h k p q m };

    ghost one_merge = { λ j a b c d p q. one_sifted (A.joined j.passing.now) (B.joined j.failing.now) (A.one_join j.passing.now) (B.one_join j.failing.now) a b c d p q };
}

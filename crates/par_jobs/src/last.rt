//! A job that looks for the last marked item.
ghost use Rattle.std.specs.Prelude.{◌≡◌, ℕ, ◌+◌, ◌≤◌, ◌<◌, ◌^◌, length, map, true, false, IfOk};
ghost use Rattle.par_laws.specs.Marks.{IsMarked};
ghost use Rattle.par_task.specs.Seats.{IsLater};

use crate::fault::is_halt;
use par_laws::{Memory, Probe, Shown, Test};
use par_signal::{SignalSeat, Signals};
use par_splitter::Splitter;
use par_task::{Done, Job, Marked};
use std::alloc::Global;

/// Finds one above the index of the last marked item, or 0. An item whose verdict is Pass or Fault is marked.
#[derive(Drop)]
pub struct LastJob<'a, S: Splitter, P: Test<S::Item>> {
    pub marked: Marked<'a, S, P>,
    pub ghost small: { length (S.items marked.split) ≤ 4194304 },
}

// The part of a leaf that is skipped: its flag, or 0 where it has no items.
fn skipped(lo: u32, hi: u32, flag: u32) -> u32
    ensures some { lo < hi → result ≡ flag }
    ensures none { hi ≤ lo → result ≡ 0 }
{
    if lo < hi { flag } else { 0 }
}

// One above the last marked index, after an item whose index is one below `at`.
fn later(last: u32, halt: bool, at: u32) -> u32
    ensures some { halt ≡ true → result ≡ at }
    ensures none { halt ≡ false → result ≡ last }
{
    if halt { at } else { last }
}

// Tells the last marked index, if there is one.
fn tell(signals: &Signals, seat: &mut SignalSeat, last: u32)
    requires seat { seat.old.of ≡ signals.now }
    requires marked { (i : ℕ) → last ≡ i + 1 → IsMarked signals.now.marks i }
    ensures later { IsLater seat.old seat.new }
    ensures told { (i : ℕ) → last ≡ i + 1 → i + 1 ≤ seat.new.high }
{
    if last > 0 {
        signals.raise(seat, last - 1);
    }
}

impl<'a, S: Splitter, P: Test<S::Item>> Job for LastJob<'a, S, P> {
    ghost use Rattle.std.proofs.Common.{sym, ◌∙◌};
    ghost use Rattle.par_task.specs.Marking.{high_flag, marks_of};
    ghost use Rattle.par_task.specs.Parts.{IsLastIn};
    ghost use Rattle.par_jobs.specs.Merges.{last_merge, last_joins};

    type Split = S;

    type Pred = P;

    type Part = u32;

    ghost kind = { high_flag };

    ghost source = { λ j. S.items j.marked.split };

    ghost verdicts = { λ j. map (P.verdict j.marked.inner) (S.items j.marked.split) };

    ghost good = { λ j lo hi h. IsLastIn (marks_of high_flag (map (P.verdict j.marked.inner) (S.items j.marked.split))) lo hi h };

    ghost merges = { λ j a b c. c ≡ last_merge a b };

    fn leaf(
        &self,
        _alloc: Global,
        mut input: S,
        probe: &mut Probe<'_, P>,
        signals: &Signals,
        seat: &mut SignalSeat,
    ) -> Result<Done<u32>, Memory> {
        let (lo, hi) = input.span();
        let flag = signals.high(seat);
        if hi <= flag {
            return Ok(Done {
                part: skipped(lo, hi, flag),
                flag,
            });
        }
        let mut at = lo;
        let mut last = 0;
        while let Some(item) = input.next() {
            let halt = is_halt(probe.test(&item));
            at += 1;
            last = later(last, halt, at);
        }
        tell(signals, seat, last);
        Ok(Done { part: last, flag })
    }

    fn merge(&self, left: u32, right: u32) -> Result<u32, Memory> {
        Ok(if right > 0 { right } else { left })
    }

    ghost joins = { λ j lo mid hi a b c h k l p q m. last_joins _ lo mid hi a b c h k p q m };

    ghost one_merge = { λ j a b c d p q. p ∙ sym q };
}

//! A job that ends at the first marked item.
ghost use Rattle.std.specs.Prelude.{◌≡◌, ℕ, ◌≤◌, ◌<◌, ◌^◌, length, map, IfOk};

use crate::builder::Builder;
use crate::low::pass_low;
use par_laws::{Memory, Probe, Shown, Test};
use par_signal::{SignalSeat, Signals};
use par_splitter::Splitter;
use par_task::{Done, Job, Marked};
use std::alloc::Global;

/// The front of a span: what was built of the items before `end`, and whether `end` is the end of the span.
#[derive(Drop)]
pub struct Front<K> {
    pub kept: K,
    pub end: u32,
    pub whole: bool,
}

impl<K: Shown> Shown for Front<K> {
    type Value = Front<K::Value>;

    ghost shown = { λ p. record { kept = K.shown p.kept; end = p.end; whole = p.whole } };
}

/// Builds of the items before the first marked one, and finds its index. An item whose verdict is Pass or Fault is
/// marked. `takeWhile` and `segmentLength` have the contrary test.
#[derive(Drop)]
pub struct FrontJob<'a, S: Splitter, P: Test<S::Item>, B> {
    pub marked: Marked<'a, S, P>,
    pub builder: &'a B,
    pub ghost small: { length (S.items marked.split) ≤ 4194304 },
}

impl<'a, S: Splitter, P: Test<S::Item>, B: Builder<S::Item>> Job for FrontJob<'a, S, P, B> {
    ghost use Rattle.par_task.specs.Marking.{low_flag, marks_of};
    ghost use Rattle.par_task.specs.Parts.{IsFront};
    ghost use Rattle.par_jobs.specs.Merges.{FrontMerges, front_joins, one_front};

    type Split = S;

    type Pred = P;

    type Part = Front<B::Built>;

    ghost kind = { low_flag };

    ghost source = { λ j. S.items j.marked.split };

    ghost verdicts = { λ j. map (P.verdict j.marked.inner) (S.items j.marked.split) };

    ghost good = { λ j lo hi p. IsFront (B.built j.builder.now) (S.items j.marked.split) (marks_of low_flag (map (P.verdict j.marked.inner) (S.items j.marked.split))) lo hi p.kept p.end p.whole };

    ghost merges = { λ j a b c. FrontMerges (B.joined j.builder.now) a b c };

    fn leaf(
        &self,
        alloc: Global,
        mut input: S,
        probe: &mut Probe<'_, P>,
        signals: &Signals,
        seat: &mut SignalSeat,
    ) -> Result<Done<Front<B::Built>>, Memory> {
        let passed = pass_low(
            alloc,
            &self.marked,
            self.builder,
            &mut input,
            probe,
            signals,
            seat,
        )?;
        let whole = passed.ended.is_whole();
        Ok(Done {
            part: Front {
                kept: passed.kept,
                end: passed.at,
                whole,
            },
            flag: passed.flag,
        })
    }

    fn merge(
        &self,
        left: Front<B::Built>,
        right: Front<B::Built>,
    ) -> Result<Front<B::Built>, Memory> {
        if !left.whole {
            return Ok(left);
        }
        let kept = self.builder.join(left.kept, right.kept)?;
        Ok(Front {
            kept,
            end: right.end,
            whole: right.whole,
        })
    }

    ghost joins = { λ j lo mid hi a b c h k l p q m. front_joins (B.built j.builder.now) (B.joined j.builder.now) (B.joins j.builder.now) _ _ lo mid hi a b c h k p q m };

    ghost one_merge = { λ j a b c d p q. one_front (B.joined j.builder.now) (B.one_join j.builder.now) a b c d p q };
}

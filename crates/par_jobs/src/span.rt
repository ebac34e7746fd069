//! A job that keeps both sides of the first marked item.
ghost use Rattle.std.specs.Prelude.{◌≡◌, ℕ, ◌≤◌, ◌<◌, ◌^◌, length, map, IfOk};

use crate::builder::Builder;
use crate::keeping::keep_rest;
use crate::low::pass_low;
use par_laws::{Memory, Probe, Shown, Test};
use par_signal::{SignalSeat, Signals};
use par_splitter::Splitter;
use par_task::{Done, Job, Marked};
use std::alloc::Global;

/// Both sides of a span: what was built of the items before `end`, and of those from `end` on. `whole` says that no item
/// of the part ended the span, so that the second is built of no item.
#[derive(Drop)]
pub struct Spanned<K> {
    pub prefix: K,
    pub suffix: K,
    pub end: u32,
    pub whole: bool,
}

impl<K: Shown> Shown for Spanned<K> {
    type Value = Spanned<K::Value>;

    ghost shown = { λ p. record { prefix = K.shown p.prefix; suffix = K.shown p.suffix; end = p.end; whole = p.whole } };
}

/// Builds of the items before the first marked one, and of that and all later ones. An item whose verdict is Pass or
/// Fault is marked. `span` and `dropWhile` have the contrary test.
///
/// One builder serves both sides. A leaf that runs before the flag was lowered keeps as its first side what may turn out
/// to stand past the stop, so that `dropWhile` too needs what every leaf kept (Scala: `dropWhile` is the second half of
/// `span`).
#[derive(Drop)]
pub struct SpanJob<'a, S: Splitter, P: Test<S::Item>, B> {
    pub marked: Marked<'a, S, P>,
    pub builder: &'a B,
    pub ghost small: { length (S.items marked.split) ≤ 4194304 },
}

impl<'a, S: Splitter, P: Test<S::Item>, B: Builder<S::Item>> Job for SpanJob<'a, S, P, B> {
    ghost use Rattle.par_task.specs.Marking.{low_flag, marks_of};
    ghost use Rattle.par_task.specs.Parts.{IsSpanned};
    ghost use Rattle.par_jobs.specs.Spanned.{SpannedMerges, spanned_joins, one_spanned};

    type Split = S;

    type Pred = P;

    type Part = Spanned<B::Built>;

    ghost kind = { low_flag };

    ghost source = { λ j. S.items j.marked.split };

    ghost verdicts = { λ j. map (P.verdict j.marked.inner) (S.items j.marked.split) };

    ghost good = { λ j lo hi p. IsSpanned (B.built j.builder.now) (S.items j.marked.split) (marks_of low_flag (map (P.verdict j.marked.inner) (S.items j.marked.split))) lo hi p.prefix p.suffix p.end p.whole };

    ghost merges = { λ j a b c. SpannedMerges (B.joined j.builder.now) a b c };

    fn leaf(
        &self,
        alloc: Global,
        mut input: S,
        probe: &mut Probe<'_, P>,
        signals: &Signals,
        seat: &mut SignalSeat,
    ) -> Result<Done<Spanned<B::Built>>, Memory> {
        let passed = pass_low(
            alloc,
            &self.marked,
            self.builder,
            &mut input,
            probe,
            signals,
            seat,
        )?;
        let whole = passed.ended.is_whole();
        let suffix = keep_rest(alloc, self.builder, passed.ended, input)?;
        Ok(Done {
            part: Spanned {
                prefix: passed.kept,
                suffix,
                end: passed.at,
                whole,
            },
            flag: passed.flag,
        })
    }

    fn merge(
        &self,
        left: Spanned<B::Built>,
        right: Spanned<B::Built>,
    ) -> Result<Spanned<B::Built>, Memory> {
        if left.whole {
            let prefix = self.builder.join(left.prefix, right.prefix)?;
            return Ok(Spanned {
                prefix,
                suffix: right.suffix,
                end: right.end,
                whole: right.whole,
            });
        }
        let rest = self.builder.join(right.prefix, right.suffix)?;
        let suffix = self.builder.join(left.suffix, rest)?;
        Ok(Spanned {
            prefix: left.prefix,
            suffix,
            end: left.end,
            whole: false,
        })
    }

    ghost joins = { λ j lo mid hi a b c h k l p q m. spanned_joins (B.built j.builder.now) (B.joined j.builder.now) (B.joins j.builder.now) _ _ lo mid hi a b c h k p q m };

    ghost one_merge = { λ j a b c d p q. one_spanned (B.joined j.builder.now) (B.one_join j.builder.now) a b c d p q };
}

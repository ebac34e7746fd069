//! A job without a test.
ghost use Rattle.std.specs.Prelude.{◌≡◌, ℕ, ◌≤◌, ◌<◌, ◌^◌, length, map, IfOk};

use crate::builder::Builder;
use crate::keeping::add_all;
use par_laws::{Memory, Never, Probe, Shown, Test};
use par_signal::{SignalSeat, Signals};
use par_splitter::Splitter;
use par_task::{Done, Job, Marked};
use std::alloc::Global;

/// Builds of all items, and tests none.
#[derive(Drop)]
pub struct GatherJob<'a, S: Splitter, B> {
    pub marked: Marked<'a, S, Never>,
    pub builder: &'a B,
    pub ghost small: { length (S.items marked.split) ≤ 4194304 },
}

impl<'a, S: Splitter, B: Builder<S::Item>> Job for GatherJob<'a, S, B> {
    ghost use Rattle.par_task.specs.Marking.{no_test};
    ghost use Rattle.par_task.specs.Parts.{IsGathered};
    ghost use Rattle.par_jobs.specs.Merges.{gather_joins};
    ghost use Rattle.par_laws.specs.declared.test.Verdict.TheVariants.{Fail};

    type Split = S;

    type Pred = Never;

    type Part = B::Built;

    ghost kind = { no_test };

    ghost source = { λ j. S.items j.marked.split };

    ghost verdicts = { λ j. map (λ _. Fail) (S.items j.marked.split) };

    ghost good = { λ j lo hi p. IsGathered (B.built j.builder.now) (S.items j.marked.split) lo hi p };

    ghost merges = { λ j a b c. B.joined j.builder.now a b c };

    fn leaf(
        &self,
        alloc: Global,
        input: S,
        _probe: &mut Probe<'_, Never>,
        _signals: &Signals,
        _seat: &mut SignalSeat,
    ) -> Result<Done<B::Built>, Memory> {
        let none = self.builder.start(alloc)?;
        let built = add_all(alloc, self.builder, none, input)?;
        Ok(Done {
            part: built,
            flag: self.marked.count(),
        })
    }

    fn merge(&self, left: B::Built, right: B::Built) -> Result<B::Built, Memory> {
        self.builder.join(left, right)
    }

    ghost joins = { λ j lo mid hi a b c h k l p q m. gather_joins (B.built j.builder.now) (B.joined j.builder.now) (B.joins j.builder.now) _ lo mid hi a b c h k p q m };

    ghost one_merge = { λ j a b c d p q. B.one_join j.builder.now a b c d p q };
}

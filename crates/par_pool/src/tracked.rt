//! A job as the board sees it: its parts are bundles.
use crate::bundle::Bundle;
use par_laws::{Memory, Probe};
use par_signal::{SignalSeat, Signals};
use par_task::{Done, Job};
use std::alloc::Global;
use std::snapshot::Snapshot;

/// A job whose parts come with the leaves that they come from. It is never run: the workers run the job itself, and the
/// board takes from this what a part is.
#[derive(Drop)]
pub struct Tracked<J> {
    pub job: Snapshot<J>,
}

impl<J: Job> Job for Tracked<J> {
    ghost use Rattle.par_task.specs.Marking.{marks_of};
    ghost use Rattle.par_pool.specs.Bundles.{IsShownBundle, BundlesMerge, bundles_join, bundles_one};

    type Split = J::Split;

    type Pred = J::Pred;

    type Part = Bundle<J::Part>;

    ghost kind = { J.kind };

    ghost source = { λ t. J.source t.job.value };

    ghost verdicts = { λ t. J.verdicts t.job.value };

    ghost good = { λ t lo hi b. IsShownBundle J.kind (marks_of J.kind (J.verdicts t.job.value)) (J.good t.job.value) (J.merges t.job.value) lo hi b };

    ghost merges = { λ t a b c. BundlesMerge (J.merges t.job.value) a b c };

    fn leaf(
        &self,
        _alloc: Global,
        _input: J::Split,
        _probe: &mut Probe<'_, J::Pred>,
        _signals: &Signals,
        _seat: &mut SignalSeat,
    ) -> Result<Done<Bundle<J::Part>>, Memory> {
        Err(Memory)
    }

    fn merge(
        &self,
        _left: Bundle<J::Part>,
        _right: Bundle<J::Part>,
    ) -> Result<Bundle<J::Part>, Memory> {
        Err(Memory)
    }

    ghost joins = { λ t lo mid hi a b c h k l p q m. bundles_join J.kind (marks_of J.kind (J.verdicts t.job.value)) (J.good t.job.value) (J.merges t.job.value) lo mid hi (λ x y z u v w. J.joins t.job.value lo mid hi x y z h k l u v w) a b c p q m };

    ghost one_merge = { λ t a b c d p q. bundles_one (J.merges t.job.value) (J.one_merge t.job.value) a b c d p q };
}

//! What the run of a node gives.
ghost use Rattle.std.specs.Prelude.{◌≡◌, ℕ, ◌≤◌, length};
ghost use Rattle.par_task.specs.Marking.{marks_of};
ghost use Rattle.par_pool.specs.Bundles.{IsBundle};

use par_laws::Shown;
use par_task::{Job, Leaf};
use std::collections::LinkedList;

/// Nothing, where memory was wanting, or a part and the leaves that it comes from, in order.
#[derive(Drop)]
pub enum Bundle<P> {
    Wanting,
    Whole(P, Vec<Leaf>),
}

impl<P: Shown> Shown for Bundle<P> {
    ghost use Rattle.par_pool.specs.Bundles.{bundle_shown};

    type Value = Option<(P::Value, LinkedList<Leaf>)>;

    ghost shown = { bundle_shown P.shown };
}

/// The merge of the bundles of two adjacent spans, or nothing where one is nothing or memory is wanting.
pub(crate) fn merged<J: Job>(
    job: &J,
    left: Bundle<J::Part>,
    right: Bundle<J::Part>,
) -> Bundle<J::Part>
    requires { (lo mid hi : ℕ) × (lo ≤ mid) × (mid ≤ hi) × (hi ≤ length (J.source job.now)) × IsBundle J.kind (marks_of J.kind (J.verdicts job.now)) (J.good job.now) (J.merges job.now) J.Part.shown lo mid left × IsBundle J.kind (marks_of J.kind (J.verdicts job.now)) (J.good job.now) (J.merges job.now) J.Part.shown mid hi right }
    ensures { (lo mid hi : ℕ) → lo ≤ mid → mid ≤ hi → hi ≤ length (J.source job.now) → IsBundle J.kind (marks_of J.kind (J.verdicts job.now)) (J.good job.now) (J.merges job.now) J.Part.shown lo mid left → IsBundle J.kind (marks_of J.kind (J.verdicts job.now)) (J.good job.now) (J.merges job.now) J.Part.shown mid hi right → IsBundle J.kind (marks_of J.kind (J.verdicts job.now)) (J.good job.now) (J.merges job.now) J.Part.shown lo hi result }
{
    match (left, right) {
        (Bundle::Whole(left, mut leaves), Bundle::Whole(right, mut more)) => {
            match job.merge(left, right) {
                Ok(part) => match leaves.append(&mut more) {
                    Ok(()) => Bundle::Whole(part, leaves),
                    Err(_) => Bundle::Wanting,
                },
                Err(_) => Bundle::Wanting,
            }
        }
        _ => Bundle::Wanting,
    }
}

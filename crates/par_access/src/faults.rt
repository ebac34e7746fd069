//! The fault that stands in the place of an answer.
ghost use Rattle.std.specs.Prelude.{◌≡◌};
ghost use Rattle.par_jobs.specs.Faults as faults;

use par_laws::{FaultAt, Tried};

/// The answer, or the fault in its place.
pub(crate) fn tried<T: Drop>(fault: Option<FaultAt>, answer: T) -> Tried<T>
    ensures { result ≡ faults.tried fault answer }
{
    match fault {
        None => Tried::Got(answer),
        Some(fault) => Tried::Fault(fault),
    }
}

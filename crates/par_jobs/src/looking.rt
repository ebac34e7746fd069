//! A look at one item of a source, for the kind of its fault.
ghost use Rattle.std.specs.Prelude.{◌≡◌, map};
ghost use Rattle.par_jobs.specs.Faults.{fault_at, fault_below};

use crate::fault::as_fault;
use par_laws::{FaultAt, Test};
use par_splitter::{Precise, Splitter};

/// The fault of the item at that index of a source that begins at place 0, if there is such an item and it faults. It
/// tests that item alone, and no audit tells of it.
pub fn fault_here<S: Precise, P: Test<S::Item>>(source: S, test: &P, at: u32) -> Option<FaultAt>
    ensures { result ≡ fault_at (map (P.verdict test.now) (S.items source)) at }
{
    let (_, mut rest) = source.cut_at(at);
    let item = rest.next()?;
    as_fault(test.test(&item), at)
}

/// The fault of the item below that index, if there is such an item and it faults. It tests that item alone, and no audit
/// tells of it.
pub fn fault_before<S: Precise, P: Test<S::Item>>(
    source: S,
    test: &P,
    above: u32,
) -> Option<FaultAt>
    ensures { result ≡ fault_below (map (P.verdict test.now) (S.items source)) above }
{
    if above == 0 {
        None
    } else {
        fault_here(source, test, above - 1)
    }
}

//! What a verdict says, and the least fault of a leaf.
ghost use Rattle.std.specs.Prelude.{◌≡◌};
ghost use Rattle.par_task.specs.Marking.{passes, halts};
ghost use Rattle.par_jobs.specs.Faults.{fault_by};
ghost use Rattle.par_jobs.specs.Steps.{noted, fails};

use par_laws::{FaultAt, Verdict};

// Whether the verdict is Pass.
pub(crate) fn is_pass(verdict: Verdict) -> bool
    ensures { result ≡ passes verdict }
{
    match verdict {
        Verdict::Pass => true,
        Verdict::Fail => false,
        Verdict::Fault(_) => false,
    }
}

// Whether the verdict is Fail.
pub(crate) fn is_fail(verdict: Verdict) -> bool
    ensures { result ≡ fails verdict }
{
    match verdict {
        Verdict::Pass => false,
        Verdict::Fail => true,
        Verdict::Fault(_) => false,
    }
}

// Whether the verdict is Pass or Fault.
pub(crate) fn is_halt(verdict: Verdict) -> bool
    ensures { result ≡ halts verdict }
{
    match verdict {
        Verdict::Pass => true,
        Verdict::Fail => false,
        Verdict::Fault(_) => true,
    }
}

// The fault that the item at that index has, if its verdict is one.
pub(crate) fn as_fault(verdict: Verdict, at: u32) -> Option<FaultAt>
    ensures { result ≡ fault_by at verdict }
{
    match verdict {
        Verdict::Fault(kind) => Some(FaultAt { at, kind }),
        Verdict::Pass => None,
        Verdict::Fail => None,
    }
}

// The first fault so far.
pub(crate) fn note_fault(fault: Option<FaultAt>, verdict: Verdict, at: u32) -> Option<FaultAt>
    ensures { result ≡ noted fault verdict at }
{
    match fault {
        Some(first) => Some(first),
        None => as_fault(verdict, at),
    }
}

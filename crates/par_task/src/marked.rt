//! The marks of a job, as its test gives them.
ghost use Rattle.std.specs.Prelude.{◌≡◌, length, map};

use par_laws::Test;
use par_signal::Marks;
use par_splitter::Splitter;
use std::marker::Model;

/// The marks of a test over the items of a splitter: an item that passes is marked, and where `faults` is true one that
/// faults too. It offers no call that tests, so that a job which holds it cannot test behind its probe.
#[derive(Drop)]
pub struct Marked<'a, S, P> {
    split: &'a S,
    inner: &'a P,
    faults: bool,
}

impl<'a, S, P> Model for Marked<'a, S, P> {
    ghost use Rattle.par_task.specs.MarkedBy.{MarkedBy, marked_code};

    ghost Value = { MarkedBy S P };

    ghost coded = { marked_code S.code P.code };

    ghost view = { λ m. record { split = m.split.now; inner = m.inner.now; faults = m.faults } };
}

impl<'a, S: Splitter, P: Test<S::Item>> Marked<'a, S, P> {
    /// The marks of `inner` over the items of `split`. It takes no memory and runs no test.
    pub fn over(split: &'a S, inner: &'a P, faults: bool) -> Marked<'a, S, P>
        ensures { result ≡ record { split = split.entry.now; inner = inner.entry.now; faults = faults } }
    {
        Marked {
            split,
            inner,
            faults,
        }
    }

    /// How many items there are.
    pub fn count(&self) -> u32
        ensures { result ≡ length (S.items self.now.split) }
    {
        self.split.remaining()
    }
}

impl<'a, S: Splitter, P: Test<S::Item>> Marks for Marked<'a, S, P> {
    ghost use Rattle.par_task.specs.MarkedBy.{marks_by};

    ghost marks = { λ m. map (marks_by m.faults) (map (P.verdict m.inner) (S.items m.split)) };
}

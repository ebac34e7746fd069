ghost use Rattle.std.specs.Prelude.{◌≡◌, ◌+◌, ◌<◌, ◌^◌};

use crate::shown::Shown;
use crate::test::{Test, Verdict};
use std::marker::Model;

/// A test that counts how often it was asked. Contracts see the test and the count.
#[derive(Drop)]
pub struct Probe<'p, P> {
    inner: &'p P,
    made: u64,
}

impl<'p, P> Model for Probe<'p, P> {
    ghost use Rattle.par_laws.specs.Probing.{Probing, probing_code};

    ghost Value = { Probing P };

    ghost coded = { probing_code P.code };

    ghost view = { λ p. record { inner = p.inner.now; made = p.made } };
}

impl<'p, P> Probe<'p, P> {
    /// A probe of the test, which was not asked yet.
    pub fn new(inner: &'p P) -> Probe<'p, P>
        ensures inner { result.inner ≡ inner.entry.now }
        ensures made { result.made ≡ 0 }
    {
        Probe { inner, made: 0 }
    }

    /// How many tests were made.
    pub fn made(&self) -> u64
        ensures { result ≡ self.now.made }
    {
        self.made
    }

    /// The probe with its count. What stays counts from 0. So a loop can ask by a probe of its own, which stays in
    /// registers, and put it back.
    pub fn take(&mut self) -> Probe<'p, P>
        ensures taken { result ≡ self.old }
        ensures inner { self.new.inner ≡ self.old.inner }
        ensures made { self.new.made ≡ 0 }
    {
        let made = self.made;
        self.made = 0;
        Probe {
            inner: self.inner,
            made,
        }
    }

    /// The test's verdict on the item. The count rises by one.
    pub fn test<I: Shown>(&mut self, item: &I) -> Verdict
    where
        P: Test<I>,
        requires { self.old.made + 1 < 2 ^ 64 }
        ensures answer { result ≡ P.verdict self.old.inner (I.shown item.now) }
        ensures inner { self.new.inner ≡ self.old.inner }
        ensures made { self.new.made ≡ self.old.made + 1 }
    {
        self.made += 1;
        self.inner.test(item)
    }
}

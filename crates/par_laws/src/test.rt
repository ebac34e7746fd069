ghost use Rattle.std.specs.Prelude.{◌≡◌};

use crate::shown::Shown;

/// What a test finds of an item.
#[derive(Clone, Copy, Debug, PartialEq, Eq, Hash)]
pub enum Verdict {
    Pass,
    Fail,
    /// The item has no truth value. The number is the caller's own kind.
    Fault(u8),
}

/// A test of an item. It answers its definition, always returns and takes no memory.
pub trait Test<I: Shown> {
    ghost use Rattle.par_laws.specs.declared.test.Verdict.{Verdict};

    ghost verdict: { Self → I.Value → Verdict };

    /// The verdict on the item.
    fn test(&self, item: &I) -> Verdict
        ensures { result ≡ verdict self.now (I.shown item.now) };
}

/// The contrary test: it exchanges Pass and Fail, and keeps a fault.
#[derive(Clone, Copy, Debug, Drop)]
pub struct Not<P> {
    pub inner: P,
}

impl<I: Shown, P: Test<I>> Test<I> for Not<P> {
    ghost use Rattle.par_laws.specs.Verdict.{contrary};

    ghost verdict = { λ n x. contrary (P.verdict n.inner x) };

    fn test(&self, item: &I) -> Verdict {
        match self.inner.test(item) {
            Verdict::Pass => Verdict::Fail,
            Verdict::Fail => Verdict::Pass,
            Verdict::Fault(kind) => Verdict::Fault(kind),
        }
    }
}

/// A test that is lent answers as the test itself.
impl<I: Shown, P: Test<I>> Test<I> for &P {
    ghost verdict = { λ n x. P.verdict n.now x };

    fn test(&self, item: &I) -> Verdict {
        (**self).test(item)
    }
}

/// The test that no item passes. A job without a predicate has it.
#[derive(Clone, Copy, Debug, Default)]
pub struct Never;

impl<I: Shown> Test<I> for Never {
    ghost use Rattle.par_laws.specs.declared.test.Verdict.TheVariants.{Fail};

    ghost verdict = { λ _ _. Fail };

    fn test(&self, _item: &I) -> Verdict {
        Verdict::Fail
    }
}

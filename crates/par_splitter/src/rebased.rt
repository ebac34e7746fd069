ghost use Rattle.std.specs.Prelude.{◌≡◌, ℕ, ◌-◌, ◌≤◌, List};

use crate::cut::{Cut, Precise, Splitter};

/// A splitter with its place moved, so that it begins at 0. Its parts keep that move.
#[derive(Drop)]
pub struct Rebased<S: Splitter> {
    inner: S,
    base: u32,
    ghost moved: { base ≤ S.lo inner },
}

impl<S: Splitter> Rebased<S> {
    /// The items of `inner`, from place 0. Constant time, and takes no memory.
    pub fn new(inner: S) -> Rebased<S>
        ensures list { ⟦<Rebased<S> as Splitter>⟧.items result ≡ S.items inner }
        ensures place { ⟦<Rebased<S> as Splitter>⟧.lo result ≡ 0 }
    {
        let (base, _) = inner.span();
        Rebased { inner, base }
    }
}

impl<S: Splitter> Splitter for Rebased<S> {
    type Item = S::Item;

    ghost items = { λ s. S.items s.inner };

    ghost lo = { λ s. S.lo s.inner - s.base };

    ghost halves = { S.halves };

    fn remaining(&self) -> u32 {
        self.inner.remaining()
    }

    fn span(&self) -> (u32, u32) {
        let (lo, hi) = self.inner.span();
        (lo - self.base, hi - self.base)
    }

    fn next(&mut self) -> Option<S::Item> {
        self.inner.next()
    }

    fn split(self) -> Cut<Self> {
        let Rebased { inner, base } = self;
        match inner.split() {
            Cut::One(inner) => Cut::One(Rebased { inner, base }),
            Cut::Two(left, right) => Cut::Two(
                Rebased { inner: left, base },
                Rebased { inner: right, base },
            ),
        }
    }

    fn dup(&self) -> Self {
        Rebased {
            inner: self.inner.dup(),
            base: self.base,
        }
    }
}

impl<S: Precise> Precise for Rebased<S> {
    ghost halving = { S.halving };

    fn cut_at(self, k: u32) -> (Self, Self) {
        let Rebased { inner, base } = self;
        let (left, right) = inner.cut_at(k);
        (
            Rebased { inner: left, base },
            Rebased { inner: right, base },
        )
    }
}

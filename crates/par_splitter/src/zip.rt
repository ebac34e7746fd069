ghost use Rattle.std.specs.Prelude.{◌≡◌, ℕ, List, length, true};
ghost use Rattle.std.specs.List.{zip};
ghost use Rattle.std.proofs.Common.{rules};

use crate::cut::{Cut, Precise, Splitter};

/// A splitter over the pairs of two splitters. It ends with the shorter one, and its place is that of the first one.
#[derive(Drop)]
pub struct ZipSplitter<A: Precise, B: Precise> {
    a: A,
    b: B,
    ghost even: { length (A.items a) ≡ length (B.items b) },
}

impl<A: Precise, B: Precise> ZipSplitter<A, B> {
    /// All pairs. It drops what the longer one has past the end of the shorter one. Constant time, and takes no memory.
    pub fn new(a: A, b: B) -> ZipSplitter<A, B>
        ensures list { ⟦<ZipSplitter<A, B> as Splitter>⟧.items result ≡ zip (A.items a) (B.items b) }
        ensures place { ⟦<ZipSplitter<A, B> as Splitter>⟧.lo result ≡ A.lo a }
    {
        let n = a.remaining().min(b.remaining());
        let (a, _) = a.cut_at(n);
        let (b, _) = b.cut_at(n);
        ZipSplitter { a, b }
    }
}

impl<A: Precise, B: Precise> Splitter for ZipSplitter<A, B> {
    type Item = (A::Item, B::Item);

    ghost items = { λ s. zip (A.items s.a) (B.items s.b) };

    ghost lo = { λ s. A.lo s.a };

    ghost halves = { true };

    fn remaining(&self) -> u32 {
        self.a.remaining()
    }

    fn span(&self) -> (u32, u32) {
        self.a.span()
    }

    fn next(&mut self) -> Option<(A::Item, B::Item)> {
        let first = self.a.next()?;
        let second = self.b.next()?;
        Some((first, second))
    }

    fn split(self) -> Cut<Self> {
        match self.remaining() {
            0 | 1 => Cut::One(self),
            n => {
                let (left, right) = self.cut_at(n / 2);
                Cut::Two(left, right)
            }
        }
    }

    fn dup(&self) -> Self {
        ZipSplitter {
            a: self.a.dup(),
            b: self.b.dup(),
        }
    }
}

impl<A: Precise, B: Precise> Precise for ZipSplitter<A, B> {
    ghost halving = { Prim.search rules };

    fn cut_at(self, k: u32) -> (Self, Self) {
        let ZipSplitter { a, b } = self;
        let (left, right) = a.cut_at(k);
        let (left_b, right_b) = b.cut_at(k);
        (
            ZipSplitter { a: left, b: left_b },
            ZipSplitter {
                a: right,
                b: right_b,
            },
        )
    }
}

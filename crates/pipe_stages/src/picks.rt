//! A splitter over items that are copied.
ghost use Rattle.std.specs.Prelude.{◌≡◌, ◌+◌, ◌<◌, ◌≤◌, ◌^◌, length, map, true};
ghost use Rattle.std.proofs.Common.{rules};

use par_laws::Shown;
use par_splitter::{Cut, Precise, Splitter};

/// A splitter over a slice, whose items are copies of the slice's, as those of `iter().copied()` are. Over a slice of
/// references it gives the references, so that what it picks outlives the slice.
#[derive(Drop)]
pub struct CopySplitter<'s, T> {
    rest: &'s [T],
    at: u32,
    ghost fits: { at + length rest.now < 2 ^ 32 },
}

impl<'s, T: Copy + Shown + Drop> CopySplitter<'s, T> {
    /// All of the slice, from place 0. Constant time, and takes no memory.
    pub fn new(items: &'s [T]) -> CopySplitter<'s, T>
        requires { length items.now ≤ 4194304 }
        ensures list { ⟦<CopySplitter<'s, T> as Splitter>⟧.items result ≡ map T.shown items.entry.now }
        ensures place { ⟦<CopySplitter<'s, T> as Splitter>⟧.lo result ≡ 0 }
    {
        CopySplitter { rest: items, at: 0 }
    }
}

impl<'s, T: Copy + Shown + Drop> Splitter for CopySplitter<'s, T> {
    type Item = T;

    ghost items = { λ s. map T.shown s.rest.now };

    ghost lo = { λ s. s.at };

    ghost halves = { true };

    fn remaining(&self) -> u32 {
        self.rest.len() as u32
    }

    fn span(&self) -> (u32, u32) {
        (self.at, self.at + self.rest.len() as u32)
    }

    fn next(&mut self) -> Option<T> {
        let (first, rest) = self.rest.split_first()?;
        self.rest = rest;
        self.at += 1;
        Some(*first)
    }

    fn split(self) -> Cut<Self> {
        match self.remaining() {
            0 | 1 => Cut::One(self),
            n => {
                let (left, right) = self.cut_at(n / 2);
                Cut::Two(left, right)
            }
        }
    }

    fn dup(&self) -> Self {
        CopySplitter {
            rest: self.rest,
            at: self.at,
        }
    }
}

impl<'s, T: Copy + Shown + Drop> Precise for CopySplitter<'s, T> {
    ghost halving = { Prim.search rules };

    fn cut_at(self, k: u32) -> (Self, Self) {
        let k = k.min(self.remaining());
        let (left, right) = self.rest.split_at(k as usize);
        (
            CopySplitter {
                rest: left,
                at: self.at,
            },
            CopySplitter {
                rest: right,
                at: self.at + k,
            },
        )
    }
}

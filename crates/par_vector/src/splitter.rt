//! A splitter over a vector.
ghost use Rattle.std.specs.Prelude.{◌≡◌, ℕ, ◌+◌, ◌-◌, ◌<◌, ◌≤◌, ◌^◌, List, length, take, drop, true};
ghost use Rattle.std.proofs.Common.{rules};
ghost use Rattle.par_vector.specs.Runs.{IsRun};

use crate::vector::RadixVector;
use par_splitter::{Cut, Precise, Splitter};

/// A splitter over a vector, whose items are references into it. It copies nothing.
///
/// It holds what is left of the leaf at its place, so that a walk costs the depth once a leaf.
#[derive(Drop)]
pub struct VectorSplitter<'a, T: Drop> {
    vector: &'a RadixVector<T>,
    leaf: &'a [T],
    at: u32,
    end: u32,
    ghost ordered: { at ≤ end },
    ghost within: { end ≤ length vector.now },
    ghost held: { leaf.now ≡ take (length leaf.now) (drop at vector.now) },
    ghost small: { length vector.now ≤ 4194304 },
}

impl<'a, T: Drop> VectorSplitter<'a, T> {
    pub(crate) fn over(vector: &'a RadixVector<T>) -> VectorSplitter<'a, T>
        ensures list { ⟦<VectorSplitter<'a, T> as Splitter>⟧.items result ≡ vector.now }
        ensures place { ⟦<VectorSplitter<'a, T> as Splitter>⟧.lo result ≡ 0 }
    {
        VectorSplitter {
            vector,
            leaf: &[],
            at: 0,
            end: vector.len(),
        }
    }

    // The items from this place to the end of their leaf.
    fn here(&self) -> &'a [T]
        requires { self.now.at < length self.now.vector.now }
        ensures { IsRun self.now.vector.now self.now.at result.now }
    {
        if self.leaf.is_empty() {
            self.vector.run(self.at)
        } else {
            self.leaf
        }
    }
}

impl<'a, T: Drop> Splitter for VectorSplitter<'a, T> {
    type Item = &'a T;

    ghost items = { λ s. take (s.end - s.at) (drop s.at s.vector.now) };

    ghost lo = { λ s. s.at };

    ghost halves = { true };

    fn remaining(&self) -> u32 {
        self.end - self.at
    }

    fn span(&self) -> (u32, u32) {
        (self.at, self.end)
    }

    fn next(&mut self) -> Option<&'a T> {
        if self.at == self.end {
            return None;
        }
        let (first, rest) = self.here().split_first()?;
        self.leaf = rest;
        self.at += 1;
        Some(first)
    }

    fn split(self) -> Cut<Self> {
        match self.remaining() {
            0 | 1 => Cut::One(self),
            n => {
                let (left, right) = self.cut_at(n / 2);
                Cut::Two(left, right)
            }
        }
    }

    fn dup(&self) -> Self {
        VectorSplitter {
            vector: self.vector,
            leaf: self.leaf,
            at: self.at,
            end: self.end,
        }
    }
}

impl<'a, T: Drop> Precise for VectorSplitter<'a, T> {
    ghost halving = { Prim.search rules };

    fn cut_at(self, k: u32) -> (Self, Self) {
        let middle = self.at + k.min(self.remaining());
        (
            VectorSplitter {
                vector: self.vector,
                leaf: self.leaf,
                at: self.at,
                end: middle,
            },
            VectorSplitter {
                vector: self.vector,
                leaf: &[],
                at: middle,
                end: self.end,
            },
        )
    }
}

//! A source from its last item to its first.
ghost use Rattle.std.specs.Prelude.{◌≡◌, ◌+◌, ◌<◌, ◌≤◌, ◌^◌, length, reverse, true};

use par_splitter::{Cut, Precise, Splitter};

/// The items of a splitter, the last one first. Places are those of the reversed list. Constant time, as the splitter's
/// own calls.
#[derive(Drop)]
pub(crate) struct Reversed<S: Precise> {
    inner: S,
    at: u32,
    ghost fits: { at + length (S.items inner) < 2 ^ 32 },
}

impl<S: Precise> Reversed<S> {
    /// All of them, from place 0. Takes no memory.
    pub fn new(inner: S) -> Reversed<S>
        requires { length (S.items inner) ≤ 4194304 }
        ensures list { ⟦<Reversed<S> as Splitter>⟧.items result ≡ reverse (S.items inner) }
        ensures place { ⟦<Reversed<S> as Splitter>⟧.lo result ≡ 0 }
    {
        Reversed { inner, at: 0 }
    }
}

impl<S: Precise> Splitter for Reversed<S> {
    type Item = S::Item;

    ghost items = { λ s. reverse (S.items s.inner) };

    ghost lo = { λ s. s.at };

    ghost halves = { true };

    fn remaining(&self) -> u32 {
        self.inner.remaining()
    }

    fn span(&self) -> (u32, u32) {
        (self.at, self.at + self.inner.remaining())
    }

    fn next(&mut self) -> Option<S::Item> {
        let n = self.inner.remaining();
        if n == 0 {
            return None;
        }
        let (rest, mut last) = self.inner.dup().cut_at(n - 1);
        self.inner = rest;
        self.at += 1;
        last.next()
    }

    fn split(self) -> Cut<Self> {
        let n = self.inner.remaining();
        if n < 2 {
            return Cut::One(self);
        }
        let Reversed { inner, at } = self;
        let (first, second) = inner.cut_at(n - n / 2);
        Cut::Two(
            Reversed { inner: second, at },
            Reversed {
                inner: first,
                at: at + n / 2,
            },
        )
    }

    fn dup(&self) -> Self {
        Reversed {
            inner: self.inner.dup(),
            at: self.at,
        }
    }
}

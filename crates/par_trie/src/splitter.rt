ghost use Rattle.std.specs.Prelude.{◌≡◌, ℕ, ◌≤◌, List, length, true};

use par_laws::MAX_ITEMS;
use par_splitter::{ArraySplitter, Cut, Splitter};

/// A splitter over the entries of a trie, whose items are references to a key and its value. It copies nothing.
#[derive(Drop)]
pub struct TrieSplitter<'a, K, V> {
    entries: ArraySplitter<'a, (K, V)>,
}

impl<'a, K: Sync, V: Sync> TrieSplitter<'a, K, V> {
    pub(crate) fn over(entries: &'a [(K, V)]) -> TrieSplitter<'a, K, V>
        requires { length entries.now ≤ MAX_ITEMS }
        ensures list { ⟦<TrieSplitter<'a, K, V> as Splitter>⟧.items result ≡ entries.entry.now }
        ensures place { ⟦<TrieSplitter<'a, K, V> as Splitter>⟧.lo result ≡ 0 }
    {
        TrieSplitter {
            entries: ArraySplitter::new(entries),
        }
    }
}

impl<'a, K: Sync, V: Sync> Splitter for TrieSplitter<'a, K, V> {
    type Item = (&'a K, &'a V);

    ghost items = { λ s. ⟦<ArraySplitter<'a, (K, V)> as Splitter>⟧.items s.entries };

    ghost lo = { λ s. ⟦<ArraySplitter<'a, (K, V)> as Splitter>⟧.lo s.entries };

    ghost halves = { true };

    fn remaining(&self) -> u32 {
        self.entries.remaining()
    }

    fn span(&self) -> (u32, u32) {
        self.entries.span()
    }

    fn next(&mut self) -> Option<(&'a K, &'a V)> {
        let entry = self.entries.next()?;
        Some((&entry.0, &entry.1))
    }

    fn split(self) -> Cut<Self> {
        match self.entries.split() {
            Cut::One(entries) => Cut::One(TrieSplitter { entries }),
            Cut::Two(left, right) => Cut::Two(
                TrieSplitter { entries: left },
                TrieSplitter { entries: right },
            ),
        }
    }

    fn dup(&self) -> Self {
        TrieSplitter {
            entries: self.entries.dup(),
        }
    }
}

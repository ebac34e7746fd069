ghost use Rattle.std.specs.Prelude.{◌≡◌, ℕ, ◌≤◌, List, length, true};
ghost use Rattle.std.specs.Map.{keys_of};

use par_laws::MAX_ITEMS;
use par_splitter::{ArraySplitter, Cut, Splitter};

/// A splitter over the keys of a table, whose items are references to them. It copies nothing.
#[derive(Drop)]
pub struct FlatSplitter<'a, K> {
    keys: ArraySplitter<'a, (K, ())>,
}

impl<'a, K: Sync> FlatSplitter<'a, K> {
    pub(crate) fn over(keys: &'a [(K, ())]) -> FlatSplitter<'a, K>
        requires { length keys.now ≤ MAX_ITEMS }
        ensures list { ⟦<FlatSplitter<'a, K> as Splitter>⟧.items result ≡ keys_of keys.entry.now }
        ensures place { ⟦<FlatSplitter<'a, K> as Splitter>⟧.lo result ≡ 0 }
    {
        FlatSplitter {
            keys: ArraySplitter::new(keys),
        }
    }
}

impl<'a, K: Sync> Splitter for FlatSplitter<'a, K> {
    ghost use Rattle.std.specs.Map.{keys_of};

    type Item = &'a K;

    ghost items = { λ s. keys_of (⟦<ArraySplitter<'a, (K, ())> as Splitter>⟧.items s.keys) };

    ghost lo = { λ s. ⟦<ArraySplitter<'a, (K, ())> as Splitter>⟧.lo s.keys };

    ghost halves = { true };

    fn remaining(&self) -> u32 {
        self.keys.remaining()
    }

    fn span(&self) -> (u32, u32) {
        self.keys.span()
    }

    fn next(&mut self) -> Option<&'a K> {
        let entry = self.keys.next()?;
        Some(&entry.0)
    }

    fn split(self) -> Cut<Self> {
        match self.keys.split() {
            Cut::One(keys) => Cut::One(FlatSplitter { keys }),
            Cut::Two(left, right) => Cut::Two(
                FlatSplitter { keys: left },
                FlatSplitter { keys: right },
            ),
        }
    }

    fn dup(&self) -> Self {
        FlatSplitter {
            keys: self.keys.dup(),
        }
    }
}

ghost use Rattle.std.specs.Prelude.{◌≡◌, ℕ, ◌<◌, Bool, true, false, IfSome, IfNone, OnOk, OnErr};
ghost use Rattle.par_index.specs.Places.{IsGrown, IsUnchanged};

use par_laws::{MAX_ITEMS, Memory};

/// What is left of an entry's mixed hash on some level of an index, and the entry's place.
#[derive(Clone, Copy, Debug, PartialEq, Eq)]
pub struct Leaf {
    pub rest: u32,
    pub at: u32,
}

/// Tells whether the entry at a place is the one that is looked for.
pub trait Wanted {
    ghost is_wanted: { Self → ℕ → Bool };

    /// Takes no memory.
    fn is_at(&self, at: u32) -> bool
        ensures { result ≡ is_wanted self.now at };
}

/// The places of entries, by mixed hash. Places are numbered from 0 in the order in which they are pushed.
pub trait Index: Sized + Drop {
    /// Whether a place is kept under a hash.
    ghost has: { Self → ℕ → ℕ → Bool };

    /// How many places there are.
    ghost count: { Self → ℕ };

    /// A wanted place under the hash. None exactly where no place there is wanted. Takes no memory.
    fn find<W: Wanted>(&self, hash: u32, wanted: &W) -> Option<u32>
        ensures found { IfSome result (λ at. W.is_wanted wanted.now at ≡ true) }
        ensures absent { IfNone result ((at : ℕ) → has self.now hash at ≡ true → W.is_wanted wanted.now at ≡ false) };

    /// Keeps one more place under the hash. A refusal for want of memory leaves the index as it was.
    fn push(&mut self, hash: u32) -> Result<(), Memory>
        requires { count self.old < MAX_ITEMS }
        ensures ok { OnOk result (IsGrown has count self.old self.new hash) }
        ensures err { OnErr result (IsUnchanged has count self.old self.new) };
}

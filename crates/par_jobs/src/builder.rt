//! What a job builds of its items.
ghost use Rattle.std.specs.Prelude.{◌≡◌, ℕ, ◌+◌, ◌<◌, ◌≤◌, List, [], ◌∷◌, ◌++◌, length, IfOk};

use par_laws::{Memory, Shown};
use std::alloc::Global;

/// Builds a value from a list of items, part by part: a leaf starts a value and adds its items in order, and the values
/// of adjacent parts are joined. Its calls answer want of memory and no other error.
pub trait Builder<I: Shown> {
    type Built: Shown + Drop;

    // The value stands for these items.
    ghost built: { Self → List I.Value → Self.Built.Value → Type 0 };

    // The third value is the first joined with the second.
    ghost joined: { Self → Self.Built.Value → Self.Built.Value → Self.Built.Value → Type 0 };

    /// The value of no items.
    fn start(&self, alloc: Global) -> Result<Self::Built, Memory>
        ensures { IfOk result (λ v. built self.now [] (Self.Built.shown v)) };

    /// The value with one item more, at the end.
    fn add(&self, alloc: Global, value: Self::Built, item: &I) -> Result<Self::Built, Memory>
        requires { (xs : List I.Value) × (length xs < 4194304) × built self.now xs (Self.Built.shown value) }
        ensures { IfOk result (λ v. (xs : List I.Value) → built self.now xs (Self.Built.shown value) → built self.now (xs ++ I.shown item.now ∷ []) (Self.Built.shown v)) };

    /// The value of both lists.
    fn join(&self, left: Self::Built, right: Self::Built) -> Result<Self::Built, Memory>
        requires { ∥ ((xs ys : List I.Value) × (length xs + length ys ≤ 4194304) × built self.now xs (Self.Built.shown left) × built self.now ys (Self.Built.shown right)) ∥₁ }
        ensures { IfOk result (λ v. joined self.now (Self.Built.shown left) (Self.Built.shown right) (Self.Built.shown v)) };

    // What is joined stands for the joined list.
    ghost joins: { (b : Self) (xs ys : List I.Value) (v w c : Self.Built.Value) → built b xs v → built b ys w → joined b v w c → built b (xs ++ ys) c };

    // Two values have at most one join.
    ghost one_join: { (b : Self) (v w c d : Self.Built.Value) → joined b v w c → joined b v w d → c ≡ d };
}

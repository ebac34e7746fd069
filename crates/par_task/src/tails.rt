//! The tails of a chain.
ghost use Rattle.std.specs.Prelude.{◌≡◌, ◌<◌, [], ◌∷◌, length, MatchOption};

use std::marker::Model;
use std::mem;

/// The tails of a chain, the nearest first, each with its node. There are at most ten, and the list takes no memory.
// The places are named fields. An inline `SmallVec` has an array of its element, and a generic struct with an array of a
// type parameter owes at each generic call that its size is below 2^63.
pub struct Tails<S> {
    t0: Option<(u32, S)>,
    t1: Option<(u32, S)>,
    t2: Option<(u32, S)>,
    t3: Option<(u32, S)>,
    t4: Option<(u32, S)>,
    t5: Option<(u32, S)>,
    t6: Option<(u32, S)>,
    t7: Option<(u32, S)>,
    t8: Option<(u32, S)>,
    t9: Option<(u32, S)>,
}

impl<S> Model for Tails<S> {
    ghost use Rattle.std.specs.Prelude.{ℕ, List, [], ◌∷◌};
    ghost use Rattle.par_task.specs.Tails.{somes, IsPacked};

    ghost Value = { List (ℕ × S) };

    ghost view = { λ t. somes (t.t0 ∷ t.t1 ∷ t.t2 ∷ t.t3 ∷ t.t4 ∷ t.t5 ∷ t.t6 ∷ t.t7 ∷ t.t8 ∷ t.t9 ∷ []) };

    ghost invariant = { λ t. IsPacked (t.t0 ∷ t.t1 ∷ t.t2 ∷ t.t3 ∷ t.t4 ∷ t.t5 ∷ t.t6 ∷ t.t7 ∷ t.t8 ∷ t.t9 ∷ []) };
}

impl<S: Drop> Tails<S> {
    /// No tails.
    pub fn new() -> Tails<S>
        ensures { result ≡ [] }
    {
        Tails {
            t0: None,
            t1: None,
            t2: None,
            t3: None,
            t4: None,
            t5: None,
            t6: None,
            t7: None,
            t8: None,
            t9: None,
        }
    }

    /// A tail before all others. Constant time.
    pub fn push_front(&mut self, node: u32, part: S)
        requires { length self.old < 10 }
        ensures { self.new ≡ (node, part) ∷ self.old }
    {
        let next = mem::replace(&mut self.t0, Some((node, part)));
        let next = mem::replace(&mut self.t1, next);
        let next = mem::replace(&mut self.t2, next);
        let next = mem::replace(&mut self.t3, next);
        let next = mem::replace(&mut self.t4, next);
        let next = mem::replace(&mut self.t5, next);
        let next = mem::replace(&mut self.t6, next);
        let next = mem::replace(&mut self.t7, next);
        let next = mem::replace(&mut self.t8, next);
        let _last = mem::replace(&mut self.t9, next);
    }

    /// Takes the nearest tail. Constant time.
    pub fn pop_front(&mut self) -> Option<(u32, S)>
        ensures { MatchOption result ((self.old ≡ []) × (self.new ≡ [])) (λ x. self.old ≡ x ∷ self.new) }
    {
        let next = mem::replace(&mut self.t9, None);
        let next = mem::replace(&mut self.t8, next);
        let next = mem::replace(&mut self.t7, next);
        let next = mem::replace(&mut self.t6, next);
        let next = mem::replace(&mut self.t5, next);
        let next = mem::replace(&mut self.t4, next);
        let next = mem::replace(&mut self.t3, next);
        let next = mem::replace(&mut self.t2, next);
        let next = mem::replace(&mut self.t1, next);
        mem::replace(&mut self.t0, next)
    }
}

// Written out, so that a function which drops a list of tails makes one call.
impl<S: Drop> Drop for Tails<S> {
    fn drop(self) {
        let Tails {
            t0: _,
            t1: _,
            t2: _,
            t3: _,
            t4: _,
            t5: _,
            t6: _,
            t7: _,
            t8: _,
            t9: _,
        } = self;
    }
}

/// A source cut into a head and tails, each with its node. The tails go on where the head ends, the nearest first.
#[derive(Drop)]
pub struct Chain<S> {
    pub node: u32,
    pub head: S,
    pub tails: Tails<S>,
}

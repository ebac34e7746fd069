//! The record of a run.
use std::marker::Model;

/// What one leaf did.
#[derive(Clone, Copy, Debug, PartialEq, Eq)]
pub struct Leaf {
    /// The number of its part in the tree of cuts, 1 to 2,047.
    pub node: u32,
    /// Its items are those from `lo` on and before `hi`.
    pub lo: u32,
    pub hi: u32,
    /// Who ran it.
    pub seat: u32,
    /// How many leaves of the job the seat had run before.
    pub turn: u32,
    /// The flag that it read at its start.
    pub flag: u32,
    /// How many of its items it tested.
    pub tested: u64,
}

/// The leaves of a run, by `lo`.
#[derive(Drop)]
pub struct Audit {
    leaves: Vec<Leaf>,
}

impl Model for Audit {
    ghost use Rattle.std.specs.Prelude.{List};
    ghost use Rattle.par_task.specs.declared.audit.Leaf.{Leaf};

    ghost Value = { List Leaf };

    ghost view = { λ a. a.leaves.items };
}

impl Audit {
    ghost use Rattle.std.specs.Prelude.{◌≡◌};

    /// The audit of these leaves.
    pub fn of(leaves: Vec<Leaf>) -> Audit
        ensures { result ≡ leaves.items }
    {
        Audit { leaves }
    }

    /// The leaves by `lo`.
    pub fn leaves(&self) -> &[Leaf]
        ensures { result.now ≡ self.now }
    {
        &self.leaves
    }
}

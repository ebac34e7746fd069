//! What the rule of the board means: facts that hold between any two steps, for the proofs of callers.
ghost use Rattle.std.specs.Prelude.{Option, Some, length};
ghost use Rattle.atomic_table.specs.Table.{State};
ghost use Rattle.par_board.specs.Tree.{TreeLaws};
ghost use Rattle.par_board.specs.Rule.{Plain, Known, Kept};
ghost use Rattle.par_board.specs.Points.{Points};

use crate::board::Board;
use par_task::Job;

/// Says what the tree of nodes is like. It does nothing.
#[tactic(auto, using(crate::proofs::Trees::tree_laws))]
pub fn tree_laws()
    ensures { TreeLaws }
{}

impl<'a, J: Job> Board<'a, J> {
    /// Says what the rule means that holds between any two steps of any threads: each node that is not kept back is owned by
    /// exactly one seat, below an offered node all is free, a taken node is held by exactly one seat, each slot has what its
    /// node's state says, and what a seat noted holds still. It does nothing.
    pub fn points(&self)
        ensures { (s : State (Option (Plain J)) (Known J)) → Kept (Some self.now.job) (length (J.source self.now.job)) s → Points (Some self.now.job) (length (J.source self.now.job)) s }
    {}
}

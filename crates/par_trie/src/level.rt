ghost use Rattle.std.specs.Prelude.{◌≡◌, ℕ};

use crate::branch::Branch;
use crate::chain::Chain;
use crate::node::Node;
use crate::twofold::Twofold;
use crate::wide::Wide;
use par_index::{Index, Leaf, Wanted};
use par_laws::Memory;
use std::alloc::Global;

/// Levels 4 to 6, which few keys come to, and a collision list below them.
type Deep = Branch<Branch<Branch<Chain>>>;

/// Levels 0 to 3, which hold the leaves of a million keys, over the deeper ones.
pub type Levels = Wide<Wide<Twofold<Box<Deep>>>>;

/// The levels of a trie, and how many leaves they hold.
#[derive(Drop)]
pub struct Root<N> {
    alloc: Global,
    top: N,
    count: u32,
}

impl Root<Levels> {
    /// Without leaves. Takes no memory.
    pub fn new(alloc: Global) -> Root<Levels>
        ensures { ⟦<Root<Levels> as Index>⟧.count result ≡ 0 }
    {
        Root {
            alloc,
            top: Wide::empty(alloc),
            count: 0,
        }
    }
}

impl<N: Node> Index for Root<N> {
    ghost use Rattle.par_index.specs.Places.{is_among};

    ghost has = { λ root q a. is_among a (N.places root.top q) };

    ghost count = { λ root. root.count };

    fn find<W: Wanted>(&self, hash: u32, wanted: &W) -> Option<u32> {
        self.top.find(hash, wanted)
    }

    fn push(&mut self, hash: u32) -> Result<(), Memory> {
        let leaf = Leaf {
            rest: hash,
            at: self.count,
        };
        self.top.push(self.alloc, leaf)?;
        self.count += 1;
        Ok(())
    }
}

//! A source cut along the left side of the tree.
ghost use Rattle.std.specs.Prelude.{◌≡◌, ◌<◌, ◌≤◌, ◌⊎◌, [], length};
ghost use Rattle.par_task.specs.Chains.{IsChain};

use crate::tails::{Chain, Tails};
use par_splitter::{Cut, Splitter};
use std::alloc::Global;

/// Cuts a source that stands at a node into a head and tails.
///
/// While the head has more than `t` items and 2,047 is not passed, its second part becomes the nearest tail, with the
/// number `2 * node + 1`, and its first part the head, with the number `2 * node`. There are at most ten tails. The
/// allocator is for the list of tails; the call takes no memory.
pub fn chain<S: Splitter>(_alloc: Global, source: S, node: u32, t: u32) -> Chain<S>
    requires node { (1 ≤ node) × (node ≤ 2047) }
    requires threshold { (1 ≤ t) ⊎ (S.items source ≡ []) }
    ensures { IsChain S.items S.lo source node t result.node result.head result.tails }
{
    let mut tails = Tails::new();
    let mut at = node;
    let mut head = source;
    while head.remaining() > t && 2 * at + 1 <= 2047 {
        match head.split() {
            Cut::One(_) => unreachable!(),
            Cut::Two(left, right) => {
                tails.push_front(2 * at + 1, right);
                head = left;
                at *= 2;
            }
        }
    }
    Chain {
        node: at,
        head,
        tails,
    }
}

//! The check of an audit: that its leaves tile the items, and are those of the workers' own lists.
ghost use Rattle.std.specs.Prelude.{◌≡◌, ◌<◌, ◌≤◌, IfOk, IfSome, IsTrue, Contains, length};
ghost use Rattle.par_task.specs.Audits.{Adjoins, Covers};
ghost use Rattle.par_pool.specs.Lists.{IsTable, IsTiling, StandsAt};

use par_laws::Memory;
use par_task::Leaf;
use std::alloc::Global;

// One place a node, by its number. The place 0 is never used.
const NODES: usize = 2048;

// Whether the leaves go from 0 to n, each where the one before ends, and none is empty.
fn adjoin(leaves: &[Leaf], n: u32) -> bool
    ensures { IsTrue result → Adjoins 0 n leaves.now }
{
    let mut at = 0;
    for leaf in leaves {
        if leaf.lo != at || leaf.hi <= leaf.lo {
            return false;
        }
        at = leaf.hi;
    }
    at == n
}

// Whether there is one leaf, of node 1 and over nothing.
fn is_empty_run(leaves: &[Leaf]) -> bool
    ensures { IsTrue result → Covers 0 leaves.now }
{
    match leaves {
        [leaf] => leaf.node == 1 && leaf.lo == 0 && leaf.hi == 0,
        _ => false,
    }
}

// Whether the leaves cover the n items.
fn cover(leaves: &[Leaf], n: u32) -> bool
    ensures { IsTrue result → Covers n leaves.now }
{
    if n == 0 {
        is_empty_run(leaves)
    } else {
        adjoin(leaves, n)
    }
}

// At each leaf's node its place and 1. None where two leaves have one node, or a leaf has none of the nodes 1 to 2,047.
fn places(alloc: Global, leaves: &[Leaf]) -> Result<Option<Vec<usize>>, Memory>
    ensures { IfOk result (λ o. IfSome o (λ t. IsTable t.items leaves.now)) }
{
    let mut table = Vec::from_elem(alloc, 0usize, NODES)?;
    for (place, leaf) in leaves.iter().enumerate() {
        let node = leaf.node as usize;
        if node < 1 || node >= NODES || table[node] != 0 {
            return Ok(None);
        }
        table[node] = place + 1;
    }
    Ok(Some(table))
}

// Whether two leaves are one.
fn is_same(one: &Leaf, other: &Leaf) -> bool
    ensures { IsTrue result → one.now ≡ other.now }
{
    one == other
}

// Whether the leaf stands in the list of its seat at its turn.
fn stands(leaf: &Leaf, lists: &[Vec<Leaf>]) -> bool
    ensures { IsTrue result → StandsAt (λ v. v.items) lists.now leaf.now }
{
    let Some(list) = lists.get(leaf.seat as usize) else {
        return false;
    };
    let Some(own) = list.as_slice().get(leaf.turn as usize) else {
        return false;
    };
    is_same(own, leaf)
}

// Whether each of the leaves does.
fn all_stand(leaves: &[Leaf], lists: &[Vec<Leaf>]) -> bool
    ensures { IsTrue result → (a : Leaf) → Contains leaves.now a → StandsAt (λ v. v.items) lists.now a }
{
    for leaf in leaves {
        if !stands(leaf, lists) {
            return false;
        }
    }
    true
}

// Whether the leaf is one of these, by the table of their places.
fn is_told(leaf: &Leaf, leaves: &[Leaf], table: &[usize]) -> bool
    ensures { IsTrue result → Contains leaves.now leaf.now }
{
    let Some(place) = table.get(leaf.node as usize) else {
        return false;
    };
    let place = *place;
    if place < 1 {
        return false;
    }
    let Some(found) = leaves.get(place - 1) else {
        return false;
    };
    is_same(found, leaf)
}

// Whether each leaf of the list is.
fn are_told(list: &[Leaf], leaves: &[Leaf], table: &[usize]) -> bool
    ensures { IsTrue result → (a : Leaf) → Contains list.now a → Contains leaves.now a }
{
    for leaf in list {
        if !is_told(leaf, leaves, table) {
            return false;
        }
    }
    true
}

// Whether each leaf of all lists is.
fn all_told(lists: &[Vec<Leaf>], leaves: &[Leaf], table: &[usize]) -> bool
    ensures { IsTrue result → (v : _) → Contains lists.now v → (a : Leaf) → Contains v.items a → Contains leaves.now a }
{
    for list in lists {
        if !are_told(list, leaves, table) {
            return false;
        }
    }
    true
}

// Whether there is more than one leaf, where there are more than `t` items.
fn are_many(leaves: &[Leaf], n: u32, t: u32) -> bool
    ensures { IsTrue result → t < n → 1 < length leaves.now }
{
    n <= t || leaves.len() > 1
}

/// Whether the leaves tile the `n` items, so many of them that where there are more than `t` items there is more than one
/// leaf, and are the leaves of the lists, each once. The one error is want of memory. Linear in the leaves and lists.
pub(crate) fn is_tiling(
    alloc: Global,
    leaves: &[Leaf],
    lists: &[Vec<Leaf>],
    n: u32,
    t: u32,
    workers: u32,
) -> Result<bool, Memory>
    ensures { IfOk result (λ b. IsTrue b → IsTiling (λ v. v.items) lists.now n t workers leaves.now) }
{
    let Some(table) = places(alloc, leaves)? else {
        return Ok(false);
    };
    if lists.len() > workers as usize {
        return Ok(false);
    }
    if !are_many(leaves, n, t) {
        return Ok(false);
    }
    if !cover(leaves, n) {
        return Ok(false);
    }
    if !all_stand(leaves, lists) {
        return Ok(false);
    }
    Ok(all_told(lists, leaves, &table))
}

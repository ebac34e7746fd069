//! The vector.
ghost use Rattle.std.specs.Prelude.{◌≡◌, ◌<◌, ◌≤◌, ◌^◌, [], ◌∷◌, ◌++◌, length, slice_get, is_ok, if◌then◌else◌, IfOk, IfErr};
ghost use Rattle.std.specs.Option.{option_copied};
ghost use Rattle.std.specs.List.{flat_map};
ghost use Rattle.par_vector.specs.Runs.{IsRun};

use crate::branch::Branch;
use crate::leaf::Leaf;
use crate::node::Node;
use crate::splitter::VectorSplitter;
use par_laws::{Back, MAX_ITEMS, Memory};
use par_splitter::Splitter;
use std::alloc::Global;
use std::collections::LinkedList;
use std::marker::Model;

// Five levels have room for 32^5 = 33,554,432 items.
type Root<T> = Branch<Branch<Branch<Branch<Leaf<T>>>>>;

/// A vector of up to `MAX_ITEMS` items, in a tree of nodes 32 wide. Contracts see its list.
#[derive(Drop)]
pub struct RadixVector<T: Drop> {
    root: Root<T>,
    len: u32,
    alloc: Global,
}

impl<T: Drop> Model for RadixVector<T> {
    ghost use Rattle.std.specs.Prelude.{List, length, ◌≡◌, ◌≤◌};

    ghost Value = { List T };

    ghost view = { λ v. v.root };

    ghost invariant = { λ v. (v.len ≡ length v.root) × (v.len ≤ 4194304) };
}

impl<T: Drop> RadixVector<T> {
    /// The empty vector. Takes no memory.
    pub fn new(alloc: Global) -> RadixVector<T>
        ensures { result ≡ [] }
    {
        RadixVector {
            root: Root::<T>::empty(alloc),
            len: 0,
            alloc,
        }
    }

    /// How many items there are: 0 to `MAX_ITEMS`. Constant time.
    pub fn len(&self) -> u32
        ensures len { result ≡ length self.now }
        ensures bound { length self.now ≤ MAX_ITEMS }
    {
        self.len
    }

    /// The item at place `i`; None exactly where `i` is at or past the length. It costs the depth, which is five. Takes no
    /// memory.
    pub fn get(&self, i: u32) -> Option<&T>
        ensures { option_copied result ≡ slice_get self.now i }
    {
        if i < self.len {
            self.run(i).first()
        } else {
            None
        }
    }

    /// Adds an item at the end. It costs the depth. For want of memory alone the item comes back, and the vector is as it was.
    pub fn push(&mut self, item: T) -> Result<(), Back<T>>
        requires { length self.old < MAX_ITEMS }
        ensures items { self.new ≡ (if is_ok result then self.old ++ item ∷ [] else self.old) }
        ensures back { IfErr result (λ refused. refused.item ≡ item) }
    {
        self.root.push(self.alloc, self.len, item)?;
        self.len += 1;
        Ok(())
    }

    /// The chunks joined. Linear; its one error is want of memory.
    pub fn from_chunks(
        alloc: Global,
        mut chunks: LinkedList<Vec<T>>,
    ) -> Result<RadixVector<T>, Memory>
        requires { length (flat_map (λ c. c.items) chunks) ≤ MAX_ITEMS }
        ensures { IfOk result (λ v. v ≡ flat_map (λ c. c.items) chunks) }
    {
        let mut all = RadixVector::new(alloc);
        while let Some(chunk) = chunks.pop_front() {
            all.extend(chunk)?;
        }
        Ok(all)
    }

    // Adds all items of a chunk at the end.
    fn extend(&mut self, chunk: Vec<T>) -> Result<(), Memory>
        requires { length (self.old ++ chunk.items) ≤ MAX_ITEMS }
        ensures { IfOk result (λ _. self.new ≡ self.old ++ chunk.items) }
    {
        for item in chunk {
            self.push(item)?;
        }
        Ok(())
    }

    // The items from place `i` to the end of their leaf.
    pub(crate) fn run(&self, i: u32) -> &[T]
        requires { i < length self.now }
        ensures { IsRun self.now i result.now }
    {
        self.root.run(i)
    }

    /// All items in order. Constant time, and takes no memory.
    pub fn splitter<'a>(&'a self) -> VectorSplitter<'a, T>
        ensures list { ⟦<VectorSplitter<'a, T> as Splitter>⟧.items result ≡ self.now }
        ensures place { ⟦<VectorSplitter<'a, T> as Splitter>⟧.lo result ≡ 0 }
    {
        VectorSplitter::over(self)
    }
}

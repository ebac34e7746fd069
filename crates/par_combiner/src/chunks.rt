//! A list that is kept in pieces.
ghost use Rattle.std.specs.Prelude.{◌≡◌, ◌+◌, ◌<◌, ◌≤◌, [], ◌∷◌, ◌++◌, length, is_ok, if◌then◌else◌, IfOk, IfErr, true};
ghost use Rattle.par_combiner.specs.Chunks.{before_last, items_of};

use par_laws::{Back, Memory};
use std::alloc::Global;
use std::collections::LinkedList;
use std::marker::Model;

/// A list in chunks, to whose end items are pushed and other lists are joined. Contracts see the list.
///
/// A list that was never joined has one chunk, which grows as a vector does. So a list that is short is small, and one that
/// was made in one part is a vector already.
#[derive(Drop)]
pub struct Chunks<T> {
    list: LinkedList<Vec<T>>,
    // How many items stand before the last chunk, which knows its own length. So a push changes nothing here, and a loop that
    // hands the list on from push to push waits for no store.
    before: u32,
    alloc: Global,
}

impl<T> Model for Chunks<T> {
    ghost use Rattle.std.specs.Prelude.{List, length, ◌≡◌, ◌≤◌};
    ghost use Rattle.par_combiner.specs.Chunks.{before_last, items_of};

    ghost Value = { List T };

    ghost view = { λ c. items_of c.list };

    ghost invariant = { λ c. (c.before ≡ before_last c.list) × (length c.list ≤ length (items_of c.list)) × (length (items_of c.list) ≤ 4194304) };
}

impl<T: Drop> Chunks<T> {
    /// The empty list. Takes no memory.
    pub fn new(alloc: Global) -> Chunks<T>
        ensures { result ≡ [] }
    {
        Chunks {
            list: LinkedList::new(alloc),
            before: 0,
            alloc,
        }
    }

    /// How many items there are. Constant time.
    pub fn len(&self) -> u32
        ensures { result ≡ length self.now }
    {
        match self.list.back() {
            Some(last) => self.before + last.len() as u32,
            None => 0,
        }
    }

    /// Adds an item at the end. For want of memory alone it hands the item back, and the list is as it was. Constant
    /// time, over many pushes.
    #[inline(always)]
    pub fn push(&mut self, item: T) -> Result<(), Back<T>>
        requires { length self.old < 4194304 }
        ensures items { self.new ≡ (if is_ok result then self.old ++ item ∷ [] else self.old) }
        ensures back { IfErr result (λ refused. refused.item ≡ item) }
    {
        if self.list.is_empty() {
            push_first(&mut self.list, self.alloc, item)?;
        } else {
            push_last(&mut self.list, item)?;
        }
        Ok(())
    }

    /// Joins the other list to the end. Constant time, and takes no memory.
    pub fn append(&mut self, mut other: Chunks<T>)
        requires { length self.old + length other ≤ 4194304 }
        ensures { self.new ≡ self.old ++ other }
    {
        if other.list.is_empty() {
            return;
        }
        let before = self.len() + other.before;
        match self.list.append(&mut other.list) {
            Ok(()) => self.before = before,
            Err(_) => unreachable!(),
        }
    }

    /// The list as one vector. A list of one chunk is that chunk, and else all is moved once. Linear.
    pub fn into_vec(self) -> Result<Vec<T>, Memory>
        ensures { IfOk result (λ v. v.items ≡ self) }
    {
        let count = self.len();
        let Chunks {
            mut list,
            before: _,
            alloc,
        } = self;
        if list.len() == 1 {
            return Ok(list.pop_front().unwrap_or(Vec::new(alloc)));
        }
        let mut all = Vec::with_capacity(alloc, count as usize)?;
        while let Some(mut chunk) = list.pop_front() {
            all.append(&mut chunk)?;
        }
        Ok(all)
    }

    /// The chunks, in order. Some may be empty. Takes no memory.
    pub fn into_list(self) -> LinkedList<Vec<T>>
        ensures items { items_of result ≡ self }
        ensures bound { length self ≤ 4194304 }
    {
        self.list
    }
}

// Adds the first item, in the first chunk.
#[inline(never)]
fn push_first<T: Drop>(list: &mut LinkedList<Vec<T>>, alloc: Global, item: T) -> Result<(), Back<T>>
    requires { list.old ≡ [] }
    ensures items { items_of list.new ≡ (if is_ok result then item ∷ [] else []) }
    ensures chunks { length list.new ≤ 1 }
    ensures before { before_last list.new ≡ 0 }
    ensures kept { IfErr result (λ _. list.new ≡ []) }
    ensures back { IfErr result (λ refused. refused.item ≡ item) }
{
    let mut chunk = Vec::new(alloc);
    chunk.push(item)?;
    let Err(refused) = list.push_back(chunk) else {
        return Ok(());
    };
    let mut chunk = refused.value;
    match chunk.pop() {
        Some(item) => Err(Back { item }),
        None => unreachable!(),
    }
}

// Adds an item to the last chunk.
fn push_last<T: Drop>(list: &mut LinkedList<Vec<T>>, item: T) -> Result<(), Back<T>>
    requires { 0 < length list.old }
    ensures items { items_of list.new ≡ (if is_ok result then items_of list.old ++ item ∷ [] else items_of list.old) }
    ensures chunks { length list.new ≡ length list.old }
    ensures before { before_last list.new ≡ before_last list.old }
    ensures back { IfErr result (λ refused. refused.item ≡ item) }
{
    match list.back_mut() {
        Some(last) => match last.push(item) {
            Ok(()) => Ok(()),
            Err(refused) => Err(Back::from(refused)),
        },
        None => Err(Back { item }),
    }
}

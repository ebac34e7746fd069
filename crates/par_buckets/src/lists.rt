ghost use Rattle.std.specs.Prelude.{◌≡◌, ℕ, ◌+◌, ◌<◌, ◌≤◌, IfOk, IfErr, OnOk, OnErr, length, map, [], replicate, get_or};
ghost use Rattle.par_index.specs.Entries.{joined};
ghost use Rattle.par_combiner.specs.Chunks.{items_of};
ghost use Rattle.par_buckets.specs.Held.{added, joined_each, together};

use par_combiner::Chunks;
use par_laws::{Back, MAX_ITEMS, Memory};
use std::alloc::Global;
use std::collections::LinkedList;
use std::marker::Model;

/// How many buckets there are.
const BUCKETS: usize = 32;

/// Items by bucket, in a list of chunks for each. It is seen as how many items there are and the 32 lists of them.
#[derive(Drop)]
pub struct BucketLists<T> {
    count: u32,
    lists: Vec<Chunks<T>>,
}

impl<T> Model for BucketLists<T> {
    ghost use Rattle.std.specs.Prelude.{ℕ, List};

    ghost Value = { ℕ × List (List T) };

    ghost use Rattle.par_buckets.specs.Held.{IsHeld};

    ghost view = { λ b. (b.count, b.lists.items) };

    ghost invariant = { λ b. IsHeld b.count b.lists.items };
}

impl<T: Drop> BucketLists<T> {
    /// Without items.
    pub fn new(alloc: Global) -> Result<BucketLists<T>, Memory>
        ensures { IfOk result (λ lists. lists ≡ (0, replicate 32 [])) }
    {
        let mut lists = Vec::with_capacity(alloc, BUCKETS)?;
        for _ in 0..BUCKETS {
            lists.push(Chunks::new(alloc))?;
        }
        Ok(BucketLists { count: 0, lists })
    }

    /// How many items there are. Constant time.
    pub fn len(&self) -> u32
        ensures { result ≡ self.now.0 }
    {
        self.count
    }

    /// Adds an item at the end of its bucket's list. For want of memory it comes back, and the lists are as they were.
    pub fn add(&mut self, bucket: u32, item: T) -> Result<(), Back<T>>
        requires bucket { bucket < 32 }
        requires room { self.old.0 < MAX_ITEMS }
        ensures added { OnOk result (self.new ≡ added bucket item self.old) }
        ensures err { OnErr result (self.new ≡ self.old) }
        ensures back { IfErr result (λ back. back.item ≡ item) }
    {
        self.lists[bucket as usize].push(item)?;
        self.count += 1;
        Ok(())
    }

    /// Joins the other's lists to the ends of these. Constant time, and takes no memory.
    pub fn append(&mut self, other: BucketLists<T>)
        requires { self.old.0 + other.0 ≤ MAX_ITEMS }
        ensures { self.new ≡ together self.old other }
    {
        let BucketLists { count, lists } = other;
        append_each(&mut self.lists, lists);
        self.count += count;
    }

    /// All items, bucket by bucket. Linear, with at most one copy beside the vector while it is built.
    pub fn into_vec(self, alloc: Global) -> Result<Vec<T>, Memory>
        ensures items { IfOk result (λ all. all.items ≡ joined self.1) }
        ensures bound { IfOk result (λ all. length all.items ≤ MAX_ITEMS) }
    {
        let BucketLists { count: _, lists } = self;
        let mut all = Chunks::new(alloc);
        for chunks in lists {
            all.append(chunks);
        }
        all.into_vec()
    }

    /// The 32 lists, each as its chunks.
    pub fn into_lists(self, alloc: Global) -> Result<Vec<LinkedList<Vec<T>>>, Memory>
        ensures lists { IfOk result (λ lists. map items_of lists.items ≡ self.1) }
        ensures count { IfOk result (λ lists. length lists.items ≡ 32) }
    {
        let BucketLists { count: _, lists } = self;
        let mut all = Vec::with_capacity(alloc, BUCKETS)?;
        for chunks in lists {
            all.push(chunks.into_list())?;
        }
        Ok(all)
    }
}

fn append_each<T: Drop>(lists: &mut Vec<Chunks<T>>, others: Vec<Chunks<T>>)
    requires same { length lists.old.items ≡ length others.items }
    requires room { (i : ℕ) → length (get_or lists.old.items i []) + length (get_or others.items i []) ≤ MAX_ITEMS }
    ensures { lists.new.items ≡ joined_each lists.old.items others.items }
{
    let mut i = 0;
    for other in others {
        lists[i].append(other);
        i += 1;
    }
}

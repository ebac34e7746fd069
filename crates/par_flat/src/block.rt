ghost use Rattle.std.specs.Prelude.{◌≡◌, ◌<◌, ◌≤◌, IfOk, length, []};
ghost use Rattle.std.specs.List.{IsDistinct, flat_map};
ghost use Rattle.std.specs.Map.{keys_of};
ghost use Rattle.par_flat.specs.Rooms.{bucket_of_hash};
ghost use Rattle.par_flat.specs.Keys.{insert_keys};
ghost use Rattle.par_flat.specs.Blocks.{AreOfBucket};

use crate::block_slots::BlockSlots;
use crate::keys::insert_all;
use par_index::Entries;
use par_laws::{HashKey, MAX_ITEMS, Memory};
use std::alloc::Global;
use std::collections::LinkedList;
use std::marker::Model;

/// The distinct keys of one bucket, some in the slots of a block and the others as leftovers. It is seen as the list of
/// its keys in the order in which they came.
#[derive(Drop)]
pub struct Block<K: HashKey> {
    room: u32,
    pub(crate) keys: Entries<K, (), BlockSlots>,
}

impl<K: HashKey> Model for Block<K> {
    ghost use Rattle.std.specs.Prelude.{List, ◌≤◌};
    ghost use Rattle.std.specs.Map.{keys_of};
    ghost use Rattle.std.specs.Coded.{coded_list};

    ghost Value = { List K };

    ghost coded = { coded_list K.code };

    ghost view = { λ block. keys_of block.keys };

    ghost invariant = { λ block. block.room ≤ 18 };
}

impl<K: HashKey> Block<K> {
    /// How many keys there are: 0 to `MAX_ITEMS`. Constant time.
    pub fn len(&self) -> u32
        ensures len { result ≡ length self.now }
        ensures bound { length self.now ≤ MAX_ITEMS }
        ensures distinct { IsDistinct K.eq self.now }
    {
        self.keys.len()
    }

    /// The room of the table that the block is for, 0 to 18.
    pub(crate) fn room(&self) -> u32
        ensures { result ≤ 18 }
    {
        self.room
    }

    /// The keys, as the map to units that they are kept in.
    pub(crate) fn into_keys(self) -> Entries<K, (), BlockSlots>
        ensures { keys_of result ≡ self }
    {
        self.keys
    }
}

/// The block of a bucket in a table of this room, with each of the keys once. A key takes the first free slot from its
/// home to the end of the block, and one that finds none there is a leftover.
pub fn fill_block<K: HashKey>(
    alloc: Global,
    _bucket: u32,
    room: u32,
    keys: LinkedList<Vec<K>>,
) -> Result<Block<K>, Memory>
    requires bucket { _bucket < 32 }
    requires room { room ≤ 18 }
    requires count { length (flat_map (λ chunk. chunk.items) keys) ≤ MAX_ITEMS }
    requires keys { AreOfBucket (λ k. bucket_of_hash (K.hash (K.shown k))) _bucket (flat_map (λ chunk. chunk.items) keys) }
    ensures keys { IfOk result (λ block. block ≡ insert_keys K.eq [] (flat_map (λ chunk. chunk.items) keys)) }
    ensures distinct { IfOk result (λ block. IsDistinct K.eq block) }
    ensures bucket { IfOk result (λ block. AreOfBucket (λ k. bucket_of_hash (K.hash (K.shown k))) _bucket block) }
{
    let mut set = Entries::new(alloc, BlockSlots::with_room(alloc, room)?);
    for chunk in keys {
        insert_all(&mut set, chunk)?;
    }
    Ok(Block { room, keys: set })
}

//! What no clause says: the room that tables and blocks have, and what lies past a block's end.

ghost use Rattle.std.specs.Prelude.{◌≤◌};

use crate::block::fill_block;
use crate::block_slots::BlockSlots;
use crate::flat::FlatTable;
use par_index::Index;
use par_laws::{MAX_ITEMS, Memory};
use std::alloc::Global;
use std::collections::LinkedList;
use std::test::Fail;

/// The table of 32 empty blocks, for tables of this room.
fn of_blocks(alloc: Global, room: u32) -> Result<FlatTable<i64>, Memory>
    requires { room ≤ 18 }
{
    let mut blocks = Vec::new(alloc);
    for bucket in 0..32u32 {
        let empty = fill_block(alloc, bucket, room, LinkedList::new(alloc))?;
        blocks.push(empty)?;
    }
    FlatTable::from_blocks(alloc, blocks)
}

#[test]
fn a_table_has_room_for_its_keys(rt: HostRuntime) -> Result<(), Fail> {
    for (n, room) in [(0, 0), (16, 0), (17, 1), (33, 2)] {
        if n <= MAX_ITEMS {
            let table: FlatTable<i64> = FlatTable::with_room(rt.alloc(), n)?;
            assert_eq!(rt; table.keys.index().room, room, "{n}");
        }
    }
    Ok(())
}

#[test]
fn a_table_doubles_past_half(rt: HostRuntime) -> Result<(), Fail> {
    let mut table = FlatTable::with_room(rt.alloc(), 0)?;
    for (count, room) in [(16u32, 0), (17, 1), (32, 1), (33, 2)] {
        for key in 0..count {
            if table.len() < MAX_ITEMS {
                table.insert(key as i64)?;
            }
        }
        assert_eq!(rt; table.len(), count);
        assert_eq!(rt; table.keys.index().room, room, "{count}");
    }
    Ok(())
}

#[test]
fn a_block_has_the_slots_of_its_room(rt: HostRuntime) -> Result<(), Fail> {
    let none: LinkedList<Vec<i64>> = LinkedList::new(rt.alloc());
    let block = fill_block(rt.alloc(), 31, 3, none)?;
    assert_eq!(rt; block.room(), 3);
    assert_eq!(rt; block.keys.index().size, 8);
    Ok(())
}

#[test]
fn a_union_has_the_room_of_its_blocks(rt: HostRuntime) -> Result<(), Fail> {
    let table = of_blocks(rt.alloc(), 3)?;
    assert_eq!(rt; table.keys.index().room, 3);
    Ok(())
}

#[test]
fn leftovers_lie_past_the_end(rt: HostRuntime) -> Result<(), Fail> {
    let mut slots = BlockSlots::with_room(rt.alloc(), 0)?;
    slots.push(0)?;
    slots.push(0)?;
    slots.push(0)?;
    assert_eq!(rt; slots.size, 1);
    assert_eq!(rt; slots.slots.len(), 3);
    Ok(())
}

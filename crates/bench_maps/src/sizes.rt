//! Collections whose memory is measured from outside.
use crate::keyed::{COUNT, key};
use par_flat::FlatTable;
use par_laws::{MAX_ITEMS, Memory};
use par_rows::Value;
use par_trie::HashTrie;
use std::alloc::Global;

/// How many `Value` keys a trie holds, each with a number.
pub(crate) fn held_in_a_trie(alloc: Global) -> Result<u32, Memory> {
    let mut trie = HashTrie::new(alloc);
    for number in 0..COUNT {
        if trie.len() < MAX_ITEMS {
            trie.insert(Value::Int(key(number)), number as u64)?;
        }
    }
    Ok(trie.len())
}

/// How many `Value` keys a table holds.
pub(crate) fn held_in_a_table(alloc: Global) -> Result<u32, Memory> {
    let mut table = FlatTable::with_room(alloc, 0)?;
    for number in 0..COUNT {
        if table.len() < MAX_ITEMS {
            table.insert(Value::Int(key(number)))?;
        }
    }
    Ok(table.len())
}

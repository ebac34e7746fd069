//! A hash trie and a flat hash table of 1,000,000 keys, beside std's hash map and ordered map.
//!
//! Each takes the same keys, and then is asked for each of them. How many keys were new and how many were found goes to
//! standard output, and the best times to standard error. With the word `trie` or `table`, only that one is made, of `Value`
//! keys, so that the most memory which the process held is told by the system: `/usr/bin/time -f %M out/bench_maps trie`.
#![tactic(auto)]

mod keyed;
mod sizes;

use crate::keyed::measure;
use par_flat::FlatTable;
use par_trie::HashTrie;
use std::collections::{BTreeMap, HashMap};
use std::{env, io};

/// The first word after the program's name, if there is one.
fn word(rt: &HostRuntime) -> io::Result<Option<String>> {
    Ok(env::args(rt)?.nth(1))
}

fn times(rt: &HostRuntime) -> io::Result<()> {
    measure::<HashTrie<i64, u64>>(rt, "trie")?;
    measure::<FlatTable<i64>>(rt, "table")?;
    measure::<HashMap<i64, u64>>(rt, "hash map")?;
    measure::<BTreeMap<i64, u64>>(rt, "ordered map")
}

fn main(rt: HostRuntime) -> io::Result<()> {
    match word(&rt)? {
        None => times(&rt),
        Some(word) => {
            let held = match word.as_str() {
                "trie" => sizes::held_in_a_trie(rt.alloc()),
                "table" => sizes::held_in_a_table(rt.alloc()),
                _ => Ok(0),
            };
            println!(rt; "{word}: {} keys", held.unwrap_or(0))
        }
    }
}

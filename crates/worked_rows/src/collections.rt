//! Calls over a radix vector, a trie and a table.
use crate::rules::{AnyPair, Only, Same};
use par_access::{count_alone, exists_alone, same_elements_alone};
use par_edge::OpenGate;
use par_flat::FlatTable;
use par_laws::Tried;
use par_rows::Value;
use par_splitter::{ArraySplitter, Splitter};
use par_trie::HashTrie;
use par_vector::RadixVector;
use std::test::Fail;

#[test]
fn an_array_and_a_vector(rt: HostRuntime) -> Result<(), Fail> {
    let mut vector = RadixVector::new(rt.alloc());
    for item in 0..5i64 {
        if vector.len() < 5 {
            vector.push(item)?;
        }
    }
    let items = [0i64, 1, 2, 3, 4];
    for (count, same) in [(5usize, true), (4, false)] {
        let source = ArraySplitter::new(&items[..count]);
        let (found, _) = same_elements_alone(
            rt.alloc(),
            source,
            vector.splitter(),
            &Same,
            4,
            &OpenGate,
        )?;
        assert_eq!(rt; found, Tried::Got(same));
    }
    Ok(())
}

#[test]
fn a_trie_and_a_table(rt: HostRuntime) -> Result<(), Fail> {
    let alloc = rt.alloc();
    let mut trie = HashTrie::new(alloc);
    trie.insert(Value::Int(0), 1u64)?;
    if trie.len() < 5 {
        trie.insert(Value::Int(4_294_967_296), 2)?;
    }
    if trie.len() < 5 {
        let (count, _) = count_alone(alloc, trie.splitter(), &AnyPair, 4, &OpenGate)?;
        assert_eq!(rt; count, Tried::Got(2));
    }
    let mut table = FlatTable::with_room(alloc, 2)?;
    table.insert(Value::Int(0))?;
    if table.len() < 5 {
        table.insert(Value::Int(-1))?;
    }
    for (wanted, found) in [(-1, true), (7, false)] {
        let rule = Only { wanted };
        if table.len() < 5 {
            let (any, _) = exists_alone(alloc, table.splitter(), &rule, 4, &OpenGate)?;
            assert_eq!(rt; any, Tried::Got(found));
        }
    }
    Ok(())
}

//! What no clause says: that there is a vector where there is memory.
use par_laws::Memory;
use par_splitter::{Cut, Precise, Splitter};
use par_vector::RadixVector;
use std::alloc::Global;
use std::collections::LinkedList;
use std::test::Fail;

// The numbers from 0 on, so many.
fn counted(alloc: Global, n: u32) -> Result<RadixVector<u32>, Memory> {
    let mut vector = RadixVector::new(alloc);
    for next in 0..n {
        if vector.len() < 40_000 {
            vector.push(next)?;
        }
    }
    Ok(vector)
}

#[test]
fn gets_what_was_pushed(rt: HostRuntime) -> Result<(), Fail> {
    for n in [0, 1, 31, 32, 33, 1023, 1024, 1025, 32_768, 33_000] {
        let vector = counted(rt.alloc(), n)?;
        assert_eq!(rt; vector.len(), n);
        for i in [0, 31, 32, 1023, 1024, 32_767, 32_768, 32_999] {
            let wanted = if i < n { Some(i) } else { None };
            assert_eq!(rt; vector.get(i).copied(), wanted, "{i} of {n}");
        }
        assert!(rt; vector.get(n).is_none());
    }
    Ok(())
}

#[test]
fn chunks_are_joined(rt: HostRuntime) -> Result<(), Fail> {
    let alloc = rt.alloc();
    let mut chunks = LinkedList::new(alloc);
    chunks.push_back(Vec::from_array(alloc, [0u32, 1, 2])?)?;
    chunks.push_back(Vec::new(alloc))?;
    chunks.push_back(Vec::from_array(alloc, [2u32])?)?;
    let vector = RadixVector::from_chunks(alloc, chunks)?;
    let all = [0u32, 1, 2, 2];
    assert_eq!(rt; vector.len(), 4);
    for i in 0..4u32 {
        assert_eq!(rt; vector.get(i), all.get(i as usize));
    }
    Ok(())
}

#[test]
fn splits_and_cuts(rt: HostRuntime) -> Result<(), Fail> {
    let vector = counted(rt.alloc(), 1_100)?;
    let mut input = vector.splitter();
    assert_eq!(rt; input.next().copied(), Some(0));
    assert_eq!(rt; (input.remaining(), input.span()), (1_099, (1, 1_100)));
    assert_eq!(rt; input.dup().next().copied(), Some(1));
    let (left, mut right) = input.cut_at(600);
    assert_eq!(rt; (left.span(), right.span()), ((1, 601), (601, 1_100)));
    assert_eq!(rt; right.next().copied(), Some(601));
    match left.split() {
        Cut::One(_) => assert!(rt; false),
        Cut::Two(mut a, mut b) => {
            assert_eq!(rt; (a.span(), b.span()), ((1, 301), (301, 601)));
            assert_eq!(rt;
                (a.next().copied(), b.next().copied()),
                (Some(1), Some(301))
            );
        }
    }
    Ok(())
}

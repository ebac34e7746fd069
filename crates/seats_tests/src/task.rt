use par_laws::Never;
use par_splitter::{ArraySplitter, Splitter};
use par_task::{Audit, Chain, Leaf, Marked, chain, threshold};
use std::test::Fail;

#[test]
fn thresholds_and_an_audit(rt: HostRuntime) -> Result<(), Fail> {
    assert_eq!(rt; threshold(100, 8), 2);
    assert_eq!(rt; threshold(100, 1), 100);
    assert_eq!(rt; threshold(4_194_304, 64), 8_193);
    assert_eq!(rt; threshold(0, 8), 1);
    assert_eq!(rt; threshold(4_294_967_295, 2), 268_435_456);
    let leaf = Leaf {
        node: 1,
        lo: 0,
        hi: 3,
        seat: 0,
        turn: 0,
        flag: 3,
        tested: 2,
    };
    let audit = Audit::of(vec![in rt.alloc(); leaf]?);
    assert_eq!(rt; audit.leaves(), [leaf].as_slice());
    Ok(())
}

#[test]
fn a_chain_of_five(rt: HostRuntime) -> Result<(), Fail> {
    let items = [3i64, 1, 4, 1, 5];
    let source = ArraySplitter::new(&items);
    assert_eq!(rt; Marked::over(&source, &Never, true).count(), 5);
    let Chain {
        node,
        head,
        mut tails,
    } = chain(rt.alloc(), source, 1, 1);
    assert_eq!(rt; (node, head.span()), (4, (0, 1)));
    match tails.pop_front() {
        Some((node, tail)) => assert_eq!(rt; (node, tail.span()), (5, (1, 2))),
        None => assert!(rt; false),
    }
    match tails.pop_front() {
        Some((node, tail)) => assert_eq!(rt; (node, tail.span()), (3, (2, 5))),
        None => assert!(rt; false),
    }
    assert!(rt; tails.pop_front().is_none());
    let source = ArraySplitter::new(&items);
    let Chain { node, head, .. } = chain(rt.alloc(), source, 2047, 1);
    assert_eq!(rt; (node, head.span()), (2047, (0, 5)));
    Ok(())
}

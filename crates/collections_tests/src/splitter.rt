ghost use Rattle.std.specs.Prelude.{◌≡◌};

use par_laws::Back;
use par_splitter::{
    ArraySplitter, Cut, Precise, RangeSplitter, Rebased, Splitter, ZipSplitter, range_count,
};
use std::alloc::{AllocError, Global};
use std::process::Abort;
use std::test::Fail;

const LEAST: i64 = i64::MIN;

const MOST: i64 = i64::MAX;

/// `a until b by c`, where it has few enough numbers.
fn range(a: i64, b: i64, c: i64) -> Option<RangeSplitter> {
    if c != 0 && range_count(a, b, c) <= 4_194_304 {
        Some(RangeSplitter::new(a, b, c))
    } else {
        None
    }
}

/// The items still to come.
fn listed<S: Splitter>(alloc: Global, splitter: &S) -> Result<Vec<S::Item>, AllocError> {
    let mut rest = splitter.dup();
    let mut items = Vec::new(alloc);
    while let Some(item) = rest.next() {
        items.push(item)?;
    }
    Ok(items)
}

/// Splits and cuts, and looks at the sizes and places of the parts.
fn look_at_parts<S: Precise>(rt: &impl Abort, whole: S) {
    let n = whole.remaining();
    let (lo, hi) = whole.span();
    match whole.dup().split() {
        Cut::One(same) => {
            assert!(rt; n < 2);
            assert_eq!(rt; same.span(), (lo, hi));
        }
        Cut::Two(left, right) => {
            assert!(rt; n >= 2);
            assert_eq!(rt; left.remaining(), n / 2);
            assert_eq!(rt; (left.span().0, right.span().1), (lo, hi));
            assert_eq!(rt; left.span().1, right.span().0);
        }
    }
    let (none, all) = whole.cut_at(0);
    assert_eq!(rt; none.span(), (lo, lo));
    let (all, none) = all.cut_at(u32::MAX);
    assert_eq!(rt; (all.span(), none.span()), ((lo, hi), (hi, hi)));
}

fn look_at_pairs<A: Precise, B: Precise>(rt: &impl Abort, a: A, b: B) {
    look_at_parts(rt, ZipSplitter::new(a, b));
}

fn look_at_moved<S: Precise>(rt: &impl Abort, inner: S) {
    look_at_parts(rt, Rebased::new(inner));
}

/// The pairs of two splitters.
fn listed_pairs<A: Precise, B: Precise>(
    alloc: Global,
    a: A,
    b: B,
) -> Result<Vec<(A::Item, B::Item)>, AllocError> {
    listed(alloc, &ZipSplitter::new(a, b))
}

#[test]
fn every_splitter_by_its_bound(rt: HostRuntime) -> Result<(), Fail> {
    let words = ["a", "b", "c", "d", "e"];
    let array = ArraySplitter::new(&words);
    let numbers = range(10, 0, -3).ok_or("few")?;
    look_at_parts(&rt, array.dup());
    look_at_parts(&rt, numbers.dup());
    look_at_pairs(&rt, array.dup(), numbers);
    look_at_moved(&rt, array.cut_at(2).1);
    look_at_parts(&rt, range(7, 8, 5).ok_or("few")?);
    look_at_parts(&rt, range(7, 7, 5).ok_or("few")?);
    Ok(())
}

#[test]
fn a_range_is_halved(rt: HostRuntime) -> Result<(), Fail> {
    let alloc = rt.alloc();
    match range(0, 5, 1).ok_or("few")?.split() {
        Cut::One(_) => assert!(rt; false),
        Cut::Two(left, right) => {
            assert_eq!(rt; listed(alloc, &left)?.as_slice(), [0, 1].as_slice());
            assert_eq!(rt; left.span(), (0, 2));
            assert_eq!(rt; listed(alloc, &right)?.as_slice(), [2, 3, 4].as_slice());
            assert_eq!(rt; right.span(), (2, 5));
        }
    }
    for n in [0, 1] {
        let short = range(0, n, 1).ok_or("few")?.split();
        assert!(rt; matches!(short, Cut::One(_)));
    }
    Ok(())
}

/// The sizes of the parts of five items.
fn sizes_of_five(alloc: Global, sizes: &[u32]) -> Result<Vec<u32>, Fail> {
    let parts = match range(0, 5, 1).ok_or("few")?.psplit(alloc, sizes) {
        Ok(parts) => parts,
        Err(Back { item: _ }) => return Err("out of memory".into()),
    };
    let mut found = Vec::new(alloc);
    for part in &parts {
        found.push(part.remaining())?;
    }
    Ok(found)
}

#[test]
fn parts_by_size(rt: HostRuntime) -> Result<(), Fail> {
    let alloc = rt.alloc();
    assert_eq!(rt;
        sizes_of_five(alloc, &[2, 0, 2])?.as_slice(),
        [2, 0, 2, 1].as_slice()
    );
    assert_eq!(rt;
        sizes_of_five(alloc, &[3, 4, 1])?.as_slice(),
        [3, 2, 0].as_slice()
    );
    assert_eq!(rt; sizes_of_five(alloc, &[])?.as_slice(), [5].as_slice());
    assert_eq!(rt; sizes_of_five(alloc, &[5])?.as_slice(), [5].as_slice());
    Ok(())
}

/// Counts the range of each row.
fn look_at_counts(rt: &impl Abort, rows: &[(i64, i64, i64, u64)]) {
    for (a, b, c, n) in rows {
        assert!(rt; *c != 0);
        assert_eq!(rt; range_count(*a, *b, *c), *n);
    }
}

/// Lists a range whole, and in two parts that are cut at 2.
fn look_at_list(
    rt: &impl Abort,
    alloc: Global,
    whole: RangeSplitter,
    list: &[i64],
) -> Result<(), AllocError> {
    assert_eq!(rt; listed(alloc, &whole)?.as_slice(), list);
    let k = list.len().min(2);
    let (left, right) = whole.cut_at(2);
    assert_eq!(rt; listed(alloc, &left)?.as_slice(), &list[..k]);
    assert_eq!(rt; listed(alloc, &right)?.as_slice(), &list[k..]);
    Ok(())
}

#[test]
fn ranges_at_the_edges_are_counted(rt: HostRuntime) {
    look_at_counts(
        &rt,
        &[
            (0, 5, 1, 5),
            (0, 0, 1, 0),
            (0, 1, 1, 1),
            (0, 10, -1, 0),
            (10, 0, 4, 0),
            (10, 0, -4, 3),
            (LEAST, MOST, 1, 18_446_744_073_709_551_615),
            (MOST, LEAST, -1, 18_446_744_073_709_551_615),
            (LEAST, MOST, MOST, 3),
            (MOST, LEAST, LEAST, 2),
            (MOST - 1, MOST, MOST, 1),
            (LEAST + 1, LEAST, LEAST, 1),
            (0, MOST, 2, 4_611_686_018_427_387_904),
            (LEAST, 0, 3, 3_074_457_345_618_258_603),
            (0, LEAST, -1, 9_223_372_036_854_775_808),
        ],
    );
}

#[test]
fn ranges_at_the_edges_are_listed(rt: HostRuntime) -> Result<(), Fail> {
    let alloc = rt.alloc();
    look_at_list(&rt, alloc, range(10, 0, -4).ok_or("few")?, &[10, 6, 2])?;
    look_at_list(
        &rt,
        alloc,
        range(MOST - 2, MOST, 1).ok_or("few")?,
        &[MOST - 2, MOST - 1],
    )?;
    look_at_list(
        &rt,
        alloc,
        range(LEAST + 2, LEAST, -1).ok_or("few")?,
        &[LEAST + 2, LEAST + 1],
    )?;
    look_at_list(
        &rt,
        alloc,
        range(LEAST, MOST, MOST).ok_or("few")?,
        &[LEAST, -1, MOST - 1],
    )?;
    look_at_list(
        &rt,
        alloc,
        range(MOST, LEAST, LEAST).ok_or("few")?,
        &[MOST, -1],
    )?;
    look_at_list(&rt, alloc, range(LEAST, MOST, -1).ok_or("few")?, &[])?;
    Ok(())
}

#[test]
fn pairs_and_moved_places(rt: HostRuntime) -> Result<(), Fail> {
    let alloc = rt.alloc();
    let letters = [97, 98, 99, 100, 101];
    let array = ArraySplitter::new(&letters);
    let pairs = listed_pairs(alloc, array.dup(), range(10, 13, 1).ok_or("few")?)?;
    let mut seen = Vec::new(alloc);
    for (letter, number) in pairs {
        seen.push((*letter, number))?;
    }
    assert_eq!(rt; seen.as_slice(), [(97, 10), (98, 11), (99, 12)].as_slice());
    let (_, tail) = array.cut_at(2);
    assert_eq!(rt; tail.span(), (2, 5));
    let mut moved = Rebased::new(tail);
    assert_eq!(rt; moved.span(), (0, 3));
    assert_eq!(rt; moved.next().copied(), Some(99));
    assert_eq!(rt; moved.span(), (1, 3));
    let (left, right) = moved.cut_at(1);
    assert_eq!(rt; (left.span(), right.span()), ((1, 2), (2, 3)));
    Ok(())
}

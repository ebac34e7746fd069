ghost use Rattle.std.specs.Prelude.{◌≤◌, pos, int_lt, if◌then◌else◌, length};
ghost use Rattle.std.specs.Ordering.{int_eq};
ghost use Rattle.par_laws.specs.declared.test.Verdict.TheVariants as verdicts;
ghost use Rattle.par_laws.specs.declared.guard.Made.TheVariants as made;

use par_laws::{
    Both, Concat, Count, Gather, Greatest, Guard, Guarded, HashKey, Joined, Keep, KeyOf, Least,
    Made, Mapper, Memory, Never, Not, Probe, Product, Shown, Sum, Test, Verdict, Words, mix,
};
use std::alloc::Global;
use std::cmp::Ordering;
use std::test::Fail;

// passes numbers from 5 on, and faults with kind 7 at 3
#[derive(Drop)]
struct FromFive;

impl Test<i64> for FromFive {
    ghost verdict = { λ _ x. if int_eq x (pos 3) then verdicts.Fault 7 else (if int_lt x (pos 5) then verdicts.Fail else verdicts.Pass) };

    fn test(&self, item: &i64) -> Verdict {
        if *item == 3 {
            Verdict::Fault(7)
        } else if *item < 5 {
            Verdict::Fail
        } else {
            Verdict::Pass
        }
    }
}

// the number itself, with a fault of kind 7 at 3
#[derive(Drop)]
struct ButThree;

impl Mapper<i64, Made<i64>> for ButThree {
    ghost mapped = { λ _ x. if int_eq x (pos 3) then made.Fault 7 else made.Value x };

    fn map(&self, _alloc: Global, item: &i64) -> Result<Made<i64>, Memory> {
        if *item == 3 {
            Ok(Made::Fault(7))
        } else {
            Ok(Made::Value(*item))
        }
    }
}

// the text as its own key
#[derive(Drop)]
struct Itself;

impl KeyOf<Words> for Itself {
    type K = Words;

    ghost keyed = { λ _ x. x };

    fn key(&self, alloc: Global, item: &Words) -> Result<Words, Memory> {
        item.copy(alloc)
    }
}

fn folded<I: Shown, M: Gather<I>>(alloc: Global, how: &M, items: &[I]) -> Result<M::T, Memory> {
    let mut total = how.zero(alloc)?;
    for item in items {
        total = how.add(alloc, total, item)?;
    }
    Ok(total)
}

// the same in two parts, cut at a place
fn folded_in_parts<I: Shown, M: Gather<I>>(
    alloc: Global,
    how: &M,
    items: &[I],
    at: usize,
) -> Result<M::T, Memory>
    requires { at ≤ length items.now }
{
    let (front, back) = items.split_at(at);
    let first = folded(alloc, how, front)?;
    how.known(&first);
    let second = folded(alloc, how, back)?;
    how.op(first, second)
}

fn copied<K: Keep>(alloc: Global, item: &K) -> Result<K, Memory> {
    item.copy(alloc)
}

fn hash_of<H: KeyOf<I>, I: Shown>(alloc: Global, key: &H, item: &I) -> Result<u32, Memory> {
    Ok(key.key(alloc, item)?.hash32())
}

#[test]
fn tests_and_probes(rt: HostRuntime) {
    let test = FromFive;
    let not = Not { inner: &test };
    for (item, verdict, contrary) in [
        (2, Verdict::Fail, Verdict::Pass),
        (3, Verdict::Fault(7), Verdict::Fault(7)),
        (5, Verdict::Pass, Verdict::Fail),
    ] {
        assert_eq!(rt; test.test(&item), verdict);
        assert_eq!(rt; not.test(&item), contrary);
        assert_eq!(rt; Never.test(&item), Verdict::Fail);
    }
    let mut probe = Probe::new(&test);
    assert_eq!(rt; probe.test(&5), Verdict::Pass);
    assert_eq!(rt; probe.test(&3), Verdict::Fault(7));
    assert_eq!(rt; probe.made(), 2);
    let taken = probe.take();
    assert_eq!(rt; (taken.made(), probe.made()), (2, 0));
    assert_eq!(rt; probe.test(&3), Verdict::Fault(7));
}

#[test]
fn texts(rt: HostRuntime) -> Result<(), Fail> {
    let mut text = Words::from_text(rt.alloc(), "né")?;
    text.push("e!")?;
    assert_eq!(rt; text.as_str(), "née!");
    assert_eq!(rt; copied(rt.alloc(), &text)?, text);
    assert_eq!(rt; Words::new(rt.alloc()).as_str(), "");
    for (less, more) in [
        ("", "a"),
        ("Z", "a"),
        ("a", "aa"),
        ("z", "é"),
        ("\u{ffff}", "\u{10000}"),
    ] {
        let less = Words::from_text(rt.alloc(), less)?;
        let more = Words::from_text(rt.alloc(), more)?;
        assert_eq!(rt; less.cmp(&more), Ordering::Less);
        assert!(rt; less != more);
    }
    Ok(())
}

#[test]
fn hashes(rt: HostRuntime) -> Result<(), Fail> {
    for (number, hash) in [
        (0, 0),
        (4_294_967_297, 0),
        (8_589_934_594, 0),
        (-1, 0),
        (1, 1),
        (4_294_967_296, 1),
    ] {
        let number: i64 = number;
        assert_eq!(rt; number.hash32(), hash, "of {number}");
    }
    for (text, hash) in [("", 0), ("Aa", 2112), ("BB", 2112)] {
        let text = Words::from_text(rt.alloc(), text)?;
        assert_eq!(rt; hash_of(rt.alloc(), &Itself, &text)?, hash);
    }
    assert_eq!(rt; mix(0), 0);
    assert_eq!(rt; mix(1), 0x9E36_45DF);
    assert_eq!(rt; (mix(1) % 32, mix(1) >> 27), (31, 19));
    Ok(())
}

#[test]
fn folds_of_numbers(rt: HostRuntime) -> Result<(), Fail> {
    let alloc = rt.alloc();
    let numbers: [i64; 4] = [3, -1, 2, 3];
    let both = Both {
        a: Least,
        b: Both {
            a: Greatest,
            b: Count,
        },
    };
    for at in 0..5 {
        assert_eq!(rt; folded_in_parts(alloc, &Sum, &numbers, at)?, 7);
        assert_eq!(rt; folded_in_parts(alloc, &Product, &numbers, at)?, -18);
        assert_eq!(rt;
            folded_in_parts(alloc, &both, &numbers, at)?,
            (Some(-1), (Some(3), 4))
        );
    }
    let none: [i64; 0] = [];
    assert_eq!(rt; folded(alloc, &both, &none)?, (None, (None, 0)));
    assert_eq!(rt; folded(alloc, &Product, &none)?, 1);
    assert_eq!(rt; folded(alloc, &Sum, &[i64::MAX, 1])?, i64::MIN);
    assert_eq!(rt; folded(alloc, &Product, &[i64::MIN, -1])?, i64::MIN);
    Ok(())
}

#[test]
fn folds_of_lists(rt: HostRuntime) -> Result<(), Fail> {
    let alloc = rt.alloc();
    let texts = [
        Words::from_text(alloc, "a")?,
        Words::from_text(alloc, "")?,
        Words::from_text(alloc, "b")?,
    ];
    let joined = Joined {
        sep: Words::from_text(alloc, ", ")?,
    };
    for at in 0..4 {
        let line = folded_in_parts(alloc, &joined, &texts, at)?.ok_or("none")?;
        assert_eq!(rt; line.as_str(), "a, , b");
        let list = folded_in_parts(alloc, &Concat::default(), &texts, at)?;
        assert_eq!(rt; list.as_slice(), texts.as_slice());
    }
    let none: [Words; 0] = [];
    assert!(rt; folded(alloc, &joined, &none)?.is_none());
    Ok(())
}

#[test]
fn guards(rt: HostRuntime) -> Result<(), Fail> {
    let alloc = rt.alloc();
    let guard = Guard {
        how: &Sum,
        of: &ButThree,
    };
    let fine = Guarded::Fine { count: 3, value: 7 };
    let fault = Guarded::Fault {
        count: 5,
        at: 2,
        kind: 7,
    };
    for at in 0..4 {
        assert_eq!(rt; folded_in_parts(alloc, &guard, &[1, 2, 4], at)?, fine);
        assert_eq!(rt;
            folded_in_parts(alloc, &guard, &[1, 2, 3, 4, 3], at)?,
            fault
        );
    }
    Ok(())
}

//! Calls over ranges.
ghost use Rattle.std.specs.Prelude.{◌≡◌, ◌≤◌, length, IfSome};

use crate::rules::{Divided, Negative, Odd};
use par_access::find_alone;
use par_combiner::ArrayCombiner;
use par_edge::OpenGate;
use par_laws::{Memory, Tried};
use par_splitter::{RangeSplitter, Splitter, range_count};
use par_transform::map_alone;
use std::alloc::Global;
use std::test::Fail;

// The numbers from a on and before b, if they are few.
fn from_to(a: i64, b: i64) -> Option<RangeSplitter>
    ensures place { IfSome result (λ s. ⟦<RangeSplitter as Splitter>⟧.lo s ≡ 0) }
    ensures few { IfSome result (λ s. length (⟦<RangeSplitter as Splitter>⟧.items s) ≤ 3000) }
{
    if range_count(a, b, 1) > 3000 {
        return None;
    }
    let source = RangeSplitter::new(a, b, 1);
    if source.remaining() > 3000 {
        return None;
    }
    Some(source)
}

#[test]
fn any_odd_number(rt: HostRuntime) -> Result<(), Fail> {
    let source = from_to(0, 1_000).ok_or("many")?;
    let (place, _) = find_alone(rt.alloc(), source, &Odd, 4, &OpenGate)?;
    let Tried::Got(Some(place)) = place else {
        return Err("nothing found".into());
    };
    assert!(rt; place < 1_000 && place % 2 == 1);
    let source = from_to(0, 1_000).ok_or("many")?;
    let (place, _) = find_alone(rt.alloc(), source, &Negative, 4, &OpenGate)?;
    assert_eq!(rt; place, Tried::Got(None));
    Ok(())
}

// The quotient and the remainder of one number, by a call over it.
fn divided(alloc: Global, from: i64, by: i64) -> Result<Option<(i64, i64)>, Memory> {
    let Some(source) = from_to(from, from.wrapping_add(1)) else {
        return Ok(None);
    };
    if by == 0 {
        return Ok(None);
    }
    let of = Divided { by };
    let (pairs, _) = map_alone::<_, ArrayCombiner<(i64, i64)>, _, _>(
        alloc, source, &of, 4, &OpenGate,
    )?;
    Ok(pairs.first().copied())
}

#[test]
fn quotients(rt: HostRuntime) -> Result<(), Fail> {
    for (from, by, pair) in [
        (-7, 3, (-2, -1)),
        (7, -3, (-2, 1)),
        (i64::MIN, -1, (i64::MIN, 0)),
    ] {
        assert_eq!(rt; divided(rt.alloc(), from, by)?, Some(pair));
    }
    Ok(())
}

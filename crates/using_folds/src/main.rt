//! What a stranger does with the library: sums, filters, searches, and folds with a monoid of its own.
//!
//! The items are orders in an array, which each call lends to a splitter. The report is made on one thread; the large orders
//! are kept on several.
#![tactic(auto)]

ghost use Rattle.std.specs.Prelude.{◌≡◌, ◌≤◌, length, map, pos, IfOk};
ghost use Rattle.std.specs.List.{fold};
ghost use Rattle.par_laws.specs.Wrapping.{wrapped_product, wrapped_sum};

use par_access::{
    aggregate_alone, count_alone, exists_alone, index_where_alone, last_index_where_alone,
    max_alone, sum_alone,
};
use par_combiner::ArrayCombiner;
use par_edge::OpenGate;
use par_laws::{FaultAt, Gather, Mapper, Memory, Monoid, Test, Tried, Verdict};
use par_pool::Plan;
use par_splitter::{ArraySplitter, Splitter};
use par_transform::filter;
use std::alloc::Global;
use std::io;

/// How fine a source is cut: a leaf has mostly at most `1 + n / (8 * LEVEL)` of its n items.
const LEVEL: u32 = 4;

/// An order of so many units at a price.
#[derive(Clone, Copy, Debug)]
struct Order {
    units: i64,
    price: i64,
}

impl Order {
    fn of(units: i64, price: i64) -> Order {
        Order { units, price }
    }
}

/// What an order is worth. It wraps at the ends of `i64`.
struct Worth;

impl<'a> Mapper<&'a Order, i64> for Worth {
    ghost use Rattle.par_laws.specs.Wrapping.{wrapped_product};

    ghost mapped = { λ _ order. wrapped_product order.units order.price };

    fn map(&self, _alloc: Global, order: &&'a Order) -> Result<i64, Memory> {
        Ok(order.units.wrapping_mul(order.price))
    }
}

/// Whether an order has `least` units or more. One of fewer than none has no truth value: it faults with kind 1.
#[derive(Clone, Copy, Debug)]
struct IsLarge {
    least: i64,
}

impl<'a> Test<&'a Order> for IsLarge {
    ghost use Rattle.std.specs.Prelude.{cond, int_lt, pos};
    ghost use Rattle.par_laws.specs.declared.test.Verdict.TheVariants.{Pass, Fail, Fault};

    ghost verdict = { λ t order. cond (int_lt order.units (pos 0)) (Fault 1) (cond (int_lt order.units t.least) Fail Pass) };

    fn test(&self, order: &&'a Order) -> Verdict {
        if order.units < 0 {
            Verdict::Fault(1)
        } else if order.units < self.least {
            Verdict::Fail
        } else {
            Verdict::Pass
        }
    }
}

/// The value that came last, or None of none: a monoid that is not in the library. Its order matters.
struct Latest;

impl Monoid for Latest {
    ghost use Rattle.std.specs.Prelude.{FitsSigned, IfSome, Some, None, refl};
    ghost use Rattle.std.specs.Int.{w64};
    ghost use Rattle.par_laws.specs.Optional.{joined_options};
    ghost use Rattle.par_laws.specs.MonoidLaws.{joined_options-associative, joined_options-none_second};

    type T = Option<i64>;

    ghost is_value = { λ _ a. IfSome a (FitsSigned w64) };

    ghost unit = { λ _. None };

    ghost joined = { λ _. joined_options (λ _ b. b) };

    ghost associative = { λ _. joined_options-associative (λ _ b. b) (λ _ _ _. refl) };

    ghost unit_first = { λ _ _ _. refl };

    ghost unit_second = { λ _ a _. joined_options-none_second (λ _ b. b) a };

    fn zero(&self, _alloc: Global) -> Result<Option<i64>, Memory> {
        Ok(None)
    }

    fn op(&self, a: Option<i64>, b: Option<i64>) -> Result<Option<i64>, Memory> {
        Ok(match (a, b) {
            (Some(_), Some(b)) => Some(b),
            (None, b) => b,
            (a, None) => a,
        })
    }

    fn known(&self, a: &Option<i64>) {
        if let Some(value) = a {
            let _value = *value;
        }
    }
}

impl<'a> Gather<&'a Order> for Latest {
    ghost use Rattle.std.specs.Prelude.{Some, refl};
    ghost use Rattle.par_laws.specs.Optional.{joined_options};
    ghost use Rattle.par_laws.specs.MonoidLaws.{joined_options-associative};

    ghost gathered = { λ _ a order. joined_options (λ _ b. b) a (Some order.price) };

    ghost adds = { λ _ a b order. joined_options-associative (λ _ b. b) (λ _ _ _. refl) a b (Some order.price) };

    fn add(
        &self,
        _alloc: Global,
        acc: Option<i64>,
        order: &&'a Order,
    ) -> Result<Option<i64>, Memory> {
        self.op(acc, Some(order.price))
    }
}

/// What is told of a list of orders.
#[derive(Debug, Drop)]
struct Report {
    worth: i64,
    dearest: Option<i64>,
    latest_price: Option<i64>,
    large: Tried<u32>,
    any_large: Tried<bool>,
    first_large: Tried<i64>,
    last_large: Tried<i64>,
}

fn look_at(alloc: Global, orders: &[Order], large: &IsLarge) -> Result<Report, Memory>
    requires { length orders.now ≤ 4194304 }
    ensures worth { IfOk result (λ r. r.worth ≡ fold wrapped_sum (pos 0) (map (λ order. wrapped_product order.units order.price) orders.now)) }
{
    let source = ArraySplitter::new(orders);
    let (worth, _) = sum_alone(alloc, source.dup(), &Worth, LEVEL, &OpenGate)?;
    let (dearest, _) = max_alone(alloc, source.dup(), &Worth, LEVEL, &OpenGate)?;
    let (latest_price, _) = aggregate_alone(alloc, source.dup(), &Latest, LEVEL, &OpenGate)?;
    let (count, _) = count_alone(alloc, source.dup(), large, LEVEL, &OpenGate)?;
    let (any_large, _) = exists_alone(alloc, source.dup(), large, LEVEL, &OpenGate)?;
    let (first_large, _) = index_where_alone(alloc, source.dup(), large, LEVEL, &OpenGate)?;
    let (last_large, _) = last_index_where_alone(alloc, source, large, LEVEL, &OpenGate)?;
    Ok(Report {
        worth,
        dearest,
        latest_price,
        large: count,
        any_large,
        first_large,
        last_large,
    })
}

fn main(rt: HostRuntime) -> io::Result<()> {
    let large = IsLarge { least: 10 };
    let sound = [
        Order::of(2, 50),
        Order::of(12, 7),
        Order::of(0, 99),
        Order::of(30, 2),
        Order::of(1, 1000),
    ];
    let faulty = [Order::of(2, 50), Order::of(-1, 7), Order::of(12, 7)];
    for orders in [sound.as_slice(), faulty.as_slice()] {
        if orders.len() > 1000 {
            continue;
        }
        let Ok(report) = look_at(rt.alloc(), orders, &large) else {
            return Err(io::ErrorKind::OutOfMemory.into());
        };
        println!(rt; "{:?}", report)?;
        let source = ArraySplitter::new(orders);
        let plan = Plan {
            workers: 4,
            level: LEVEL,
            gate: &OpenGate,
        };
        let Ok((worths, _)) = filter::<_, ArrayCombiner<i64>, _, _, _, _>(
            &rt,
            rt.alloc(),
            source,
            &large,
            &Worth,
            &plan,
        ) else {
            return Err(io::ErrorKind::OutOfMemory.into());
        };
        match worths {
            Tried::Got(worths) => println!(rt; "large: {:?}", worths.as_slice())?,
            Tried::Fault(FaultAt { at, kind }) => println!(rt; "order {} has fault {}", at, kind)?,
        }
    }
    Ok(())
}

//! The conditions `x < 500000` and `x % 3 = 0` over 1,000,000 rows of one number, beside the same tests of the row's
//! value written out.
//!
//! All counts go to standard output. The best time of each goes to standard error.
#![tactic(auto)]

ghost use Rattle.std.specs.Prelude.{◌≡◌};
ghost use Rattle.pipe_expr.specs.Grammar.{view};
ghost use Rattle.pipe_checks.specs.Kinds.{appends};

use par_laws::{Memory, Test, Verdict, Words};
use par_rows::{Column, ColumnKind, Row, Schema, Value, Values};
use pipe_checks::{ValueKind, kind_of};
use pipe_eval::Condition;
use pipe_expr::{Expr, Op};
use std::alloc::Global;
use std::io;
use std::time::{Duration, Instant};

const ROWS: i64 = 1_000_000;

const ROUNDS: usize = 9;

// The rows of the numbers from 0 on.
fn rows(alloc: Global) -> Result<Vec<Row>, Memory> {
    let mut rows = Vec::new(alloc);
    for number in 0..ROWS {
        let mut values = Values::with_room(alloc, 1)?;
        values.push(Value::Int(number))?;
        rows.push(Row { values })?;
    }
    Ok(rows)
}

fn schema(alloc: Global) -> Result<Schema, Memory> {
    let mut columns = Vec::new(alloc);
    let name = Words::from_text(alloc, "x")?;
    let kind = ColumnKind::Int;
    columns.push(Column { name, kind })?;
    Ok(Schema { columns })
}

fn pair(alloc: Global, op: Op, a: Expr, b: Expr) -> Result<Expr, Memory> {
    let a = Box::new(alloc, a)?;
    let b = Box::new(alloc, b)?;
    Ok(Expr::Pair(op, a, b))
}

// `x % 3 = 0`
fn every_third(alloc: Global) -> Result<Expr, Memory> {
    let x = Expr::Column(Words::from_text(alloc, "x")?);
    let rest = pair(alloc, Op::Remainder, x, Expr::Int(3))?;
    pair(alloc, Op::Equal, rest, Expr::Int(0))
}

fn appends(e: &Expr) -> bool
    ensures { result ≡ appends (view e.now) }
{
    match e {
        Expr::Int(_) | Expr::Text(_) | Expr::Column(_) => false,
        Expr::Len(e) => appends(e),
        Expr::ToInt(e) => appends(e),
        Expr::Group(e) => appends(e),
        Expr::Not(e) => appends(e),
        Expr::Pair(Op::Join, _, _) => true,
        Expr::Pair(_, a, b) => appends(a) || appends(b),
    }
}

// `x < 500000`
fn first_half(alloc: Global) -> Result<Expr, Memory> {
    let x = Expr::Column(Words::from_text(alloc, "x")?);
    pair(alloc, Op::Less, x, Expr::Int(500_000))
}

// The condition, where the expression is one.
fn condition(alloc: Global, e: Expr) -> Result<Option<Condition>, Memory> {
    let schema = schema(alloc)?;
    if appends(&e) {
        return Ok(None);
    }
    let Some(ValueKind::Truth) = kind_of(&schema.columns, &e) else {
        return Ok(None);
    };
    Ok(Some(Condition::bind(alloc, &e, &schema)?))
}

fn count_bound(rows: &[Row], condition: &Condition) -> u64 {
    let mut count: u64 = 0;
    for row in rows {
        if let Verdict::Pass = condition.test(&row) {
            count = count.wrapping_add(1);
        }
    }
    count
}

fn number(row: &Row) -> i64 {
    match row.values.get(0) {
        Some(Value::Int(number)) => *number,
        _ => 0,
    }
}

fn count_halves(rows: &[Row]) -> u64 {
    let mut count: u64 = 0;
    for row in rows {
        if number(row) < 500_000 {
            count = count.wrapping_add(1);
        }
    }
    count
}

fn count_thirds(rows: &[Row]) -> u64 {
    let mut count: u64 = 0;
    for row in rows {
        if number(row).wrapping_rem(3) == 0 {
            count = count.wrapping_add(1);
        }
    }
    count
}

fn wanting(_memory: Memory) -> io::Error {
    io::Error::from(io::ErrorKind::OutOfMemory)
}

fn main(rt: HostRuntime) -> io::Result<()> {
    let rows = rows(rt.alloc()).map_err(wanting)?;
    let half = condition(rt.alloc(), first_half(rt.alloc()).map_err(wanting)?).map_err(wanting)?;
    let third = condition(rt.alloc(), every_third(rt.alloc()).map_err(wanting)?).map_err(wanting)?;
    let (Some(half), Some(third)) = (half, third) else {
        return Ok(());
    };
    let mut best = [Duration::MAX; 4];
    let mut counts = [0; 4];
    for _ in 0..ROUNDS {
        let start = Instant::now(&rt)?;
        counts[0] = count_bound(&rows, &half);
        best[0] = best[0].min(start.elapsed(&rt)?);
        let start = Instant::now(&rt)?;
        counts[1] = count_halves(&rows);
        best[1] = best[1].min(start.elapsed(&rt)?);
        let start = Instant::now(&rt)?;
        counts[2] = count_bound(&rows, &third);
        best[2] = best[2].min(start.elapsed(&rt)?);
        let start = Instant::now(&rt)?;
        counts[3] = count_thirds(&rows);
        best[3] = best[3].min(start.elapsed(&rt)?);
    }
    println!(rt; "halves {} {}", counts[0], counts[1])?;
    println!(rt; "thirds {} {}", counts[2], counts[3])?;
    eprintln!(rt;
        "x < 500000: {} us, plain {} us; x % 3 = 0: {} us, plain {} us",
        best[0].as_micros(),
        best[1].as_micros(),
        best[2].as_micros(),
        best[3].as_micros()
    )
}

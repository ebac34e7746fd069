//! What no clause says: that answers come where there is memory, and what their texts are as bytes.
ghost use Rattle.std.specs.Prelude.{◌≡◌, ◌≤◌, length};
ghost use Rattle.pipe_checks.specs.Kinds.{appends, fits};
ghost use Rattle.pipe_expr.specs.Grammar.{view};
ghost use Rattle.pipe_steps.specs.Said.{last_view};
ghost use Rattle.pipe_answers.specs.Lasts.{is_sound_last};

use par_edge::OpenGate;
use par_laws::{FaultAt, Memory, Words};
use par_pool::Plan;
use par_rows::{Column, ColumnKind, Row, Schema, Value, Values};
use par_task::{Audit, Leaf};
use pipe_answers::{StageAudit, is_built_last, run_last, run_last_alone, write_audits};
use pipe_checks::{ValueKind, Want, kind_of};
use pipe_expr::{Expr, Op};
use pipe_stages::StepStop;
use pipe_steps::Last;
use std::alloc::Global;
use std::process::Abort;
use std::sync::Wait;
use std::test::Fail;
use std::thread::Threads;

// Whether `++` stands in an expression.
fn appends(e: &Expr) -> bool
    ensures { result ≡ appends (view e.now) }
{
    match e {
        Expr::Int(_) | Expr::Text(_) | Expr::Column(_) => false,
        Expr::Len(e) => appends(e),
        Expr::ToInt(e) => appends(e),
        Expr::Group(e) => appends(e),
        Expr::Not(e) => appends(e),
        Expr::Pair(Op::Join, _, _) => true,
        Expr::Pair(_, a, b) => appends(a) || appends(b),
    }
}

// Whether an expression has the kind that is wanted.
fn fits(columns: &[Column], want: Want, e: &Expr) -> bool
    ensures { result ≡ fits columns.now want (view e.now) }
{
    match (want, kind_of(columns, e)) {
        (Want::Number, Some(ValueKind::Number)) => true,
        (Want::Shown, Some(ValueKind::Number)) => true,
        (Want::Shown, Some(ValueKind::Text)) => true,
        (Want::Truth, Some(ValueKind::Truth)) => !appends(e),
        _ => false,
    }
}

// Whether the expressions of a last step have their kinds.
fn is_sound(columns: &[Column], last: &Last) -> bool
    ensures { result ≡ is_sound_last columns.now (last_view last.now) }
{
    match last {
        Last::Print | Last::Size | Last::SplitAt(_) => true,
        Last::Sum(e) | Last::Product(e) | Last::Min(e) | Last::Max(e) => {
            fits(columns, Want::Number, e)
        }
        Last::MkString(e, _) | Last::ToSet(e) => fits(columns, Want::Shown, e),
        Last::ToMap(k, e) => fits(columns, Want::Shown, k) && fits(columns, Want::Shown, e),
        Last::Count(e) | Last::Find(e) | Last::Exists(e) | Last::Forall(e) => {
            fits(columns, Want::Truth, e)
        }
        Last::IndexWhere(e) | Last::LastIndexWhere(e) => fits(columns, Want::Truth, e),
        Last::SegmentLength(e, _) => fits(columns, Want::Truth, e),
        Last::Span(e) | Last::Partition(e) => fits(columns, Want::Truth, e),
    }
}

fn column(alloc: Global, name: &str, kind: ColumnKind) -> Result<Column, Memory> {
    let name = Words::from_text(alloc, name)?;
    Ok(Column { name, kind })
}

// A column of numbers, `x`, and one of texts, `say "t"`.
fn schema(alloc: Global) -> Result<Schema, Memory> {
    let mut columns = Vec::new(alloc);
    columns.push(column(alloc, "x", ColumnKind::Int)?)?;
    columns.push(column(alloc, "say \"t\"", ColumnKind::Text)?)?;
    Ok(Schema { columns })
}

fn row(alloc: Global, x: i64, t: &str) -> Result<Row, Memory> {
    let mut values = Values::with_room(alloc, 2)?;
    values.push(Value::Int(x))?;
    values.push(Value::Text(Words::from_text(alloc, t)?))?;
    Ok(Row { values })
}

fn x(alloc: Global) -> Result<Expr, Memory> {
    Ok(Expr::Column(Words::from_text(alloc, "x")?))
}

fn t(alloc: Global) -> Result<Expr, Memory> {
    Ok(Expr::Column(Words::from_text(alloc, "say \"t\"")?))
}

fn pair(alloc: Global, op: Op, a: Expr, b: Expr) -> Result<Expr, Memory> {
    Ok(Expr::Pair(op, Box::new(alloc, a)?, Box::new(alloc, b)?))
}

// `x < n`
fn below(alloc: Global, n: i64) -> Result<Expr, Memory> {
    pair(alloc, Op::Less, x(alloc)?, Expr::Int(n))
}

// `12 / x`
fn shares(alloc: Global) -> Result<Expr, Memory> {
    pair(alloc, Op::Divide, Expr::Int(12), x(alloc)?)
}

// `12 / x < n`
fn small_share(alloc: Global, n: i64) -> Result<Expr, Memory> {
    pair(alloc, Op::Less, shares(alloc)?, Expr::Int(n))
}

fn words(alloc: Global, text: &str) -> Result<Words, Memory> {
    Words::from_text(alloc, text)
}

// The text of a last step over some rows by so many workers, or why there is none; None where the step can't be run.
fn told<R: Threads + Wait + Sync>(
    rt: &R,
    alloc: Global,
    last: &Last,
    rows: &[(i64, &str)],
    workers: u32,
) -> Result<Option<Result<Vec<u8>, StepStop>>, Memory> {
    let schema = schema(alloc)?;
    if !is_built_last(last) || !is_sound(&schema.columns, last) {
        return Ok(None);
    }
    let mut table = Vec::new(alloc);
    for (x, t) in rows {
        table.push(row(alloc, *x, t)?)?;
    }
    let mut lent = Vec::new(alloc);
    for one in table.as_slice() {
        lent.push(one)?;
    }
    if lent.len() > 1000 {
        return Ok(None);
    }
    let plan = Plan {
        workers: workers.clamp(1, 64),
        level: 4,
        gate: &OpenGate,
    };
    let ran = if workers == 1 {
        run_last_alone(alloc, last, &schema, &lent, 4, &OpenGate)
    } else {
        run_last(rt, alloc, last, &schema, &lent, &plan)
    };
    match ran {
        Ok((text, _)) => Ok(Some(Ok(text))),
        Err(stop) => Ok(Some(Err(stop))),
    }
}

// Whether a last step tells this text by one worker and by more.
fn tells<R: Threads + Wait + Sync>(
    rt: &R,
    alloc: Global,
    last: &Last,
    rows: &[(i64, &str)],
    wanted: &str,
) -> Result<bool, Memory> {
    for workers in WORKERS {
        match told(rt, alloc, last, rows, workers)? {
            Some(Ok(text)) if text.as_slice() == wanted.as_bytes() => {}
            _ => return Ok(false),
        }
    }
    Ok(true)
}

// Whether a last step stops by a zero divisor at this row, by one worker and by more.
fn stops_at<R: Threads + Wait + Sync>(
    rt: &R,
    alloc: Global,
    last: &Last,
    rows: &[(i64, &str)],
    at: u32,
) -> Result<bool, Memory> {
    let wanted = StepStop::Fault(FaultAt { at, kind: 1 });
    for workers in WORKERS {
        match told(rt, alloc, last, rows, workers)? {
            Some(Err(stop)) if stop == wanted => {}
            _ => return Ok(false),
        }
    }
    Ok(true)
}

// Asserts what was found out.
fn hold(rt: &impl Abort, found: Result<bool, Memory>) -> Result<(), Fail> {
    let holds = found?;
    assert!(rt; holds);
    Ok(())
}

fn expect<R: Abort + Threads + Wait + Sync>(
    rt: &R,
    alloc: Global,
    last: Last,
    rows: &[(i64, &str)],
    wanted: &str,
) -> Result<(), Fail> {
    hold(rt, tells(rt, alloc, &last, rows, wanted))
}

fn expect_fault<R: Abort + Threads + Wait + Sync>(
    rt: &R,
    alloc: Global,
    last: Last,
    rows: &[(i64, &str)],
    at: u32,
) -> Result<(), Fail> {
    hold(rt, stops_at(rt, alloc, &last, rows, at))
}

// By how many workers each step is run.
const WORKERS: [u32; 3] = [1, 2, 4];

const NONE: [(i64, &str); 0] = [];

const FOUR: [(i64, &str); 4] = [(0, "a"), (5, ""), (1, "b"), (6, "c")];

const QUOTED: [(i64, &str); 3] = [(-1, "a\nb"), (2, "say \"hi\", you"), (3, "")];

#[test]
fn rows_as_records(rt: HostRuntime) -> Result<(), Fail> {
    let alloc = rt.alloc();
    expect(&rt, alloc, Last::Print, &NONE, "x,\"say \"\"t\"\"\"\n")?;
    let text = "x,\"say \"\"t\"\"\"\n-1,\"a\nb\"\n2,\"say \"\"hi\"\", you\"\n3,\n";
    expect(&rt, alloc, Last::Print, &QUOTED, text)?;
    expect(&rt, alloc, Last::Size, &QUOTED, "3\n")?;
    expect(&rt, alloc, Last::Size, &NONE, "0\n")
}

#[test]
fn folds(rt: HostRuntime) -> Result<(), Fail> {
    let alloc = rt.alloc();
    expect(&rt, alloc, Last::Count(below(alloc, 5)?), &FOUR, "2\n")?;
    expect(&rt, alloc, Last::Sum(x(alloc)?), &FOUR, "12\n")?;
    expect(&rt, alloc, Last::Product(x(alloc)?), &QUOTED, "-6\n")?;
    expect(&rt, alloc, Last::Min(x(alloc)?), &QUOTED, "-1\n")?;
    expect(&rt, alloc, Last::Max(x(alloc)?), &QUOTED, "3\n")?;
    let wraps = [(i64::MAX, ""), (1, "")];
    expect(
        &rt,
        alloc,
        Last::Sum(x(alloc)?),
        &wraps,
        "-9223372036854775808\n",
    )?;
    expect(&rt, alloc, Last::Sum(x(alloc)?), &NONE, "0\n")?;
    expect(&rt, alloc, Last::Product(x(alloc)?), &NONE, "1\n")?;
    expect(&rt, alloc, Last::Min(x(alloc)?), &NONE, "none\n")?;
    expect(&rt, alloc, Last::Max(x(alloc)?), &NONE, "none\n")?;
    let comma = words(alloc, ", ")?;
    expect(
        &rt,
        alloc,
        Last::MkString(t(alloc)?, comma),
        &FOUR,
        "a, , b, c\n",
    )?;
    let dash = words(alloc, "-")?;
    expect(
        &rt,
        alloc,
        Last::MkString(x(alloc)?, dash),
        &QUOTED,
        "-1-2-3\n",
    )?;
    let dash = words(alloc, "-")?;
    expect(&rt, alloc, Last::MkString(x(alloc)?, dash), &NONE, "\n")
}

#[test]
fn searches(rt: HostRuntime) -> Result<(), Fail> {
    let alloc = rt.alloc();
    let six = "x,\"say \"\"t\"\"\"\n0,a\n";
    expect(&rt, alloc, Last::Find(below(alloc, 1)?), &FOUR, six)?;
    expect(&rt, alloc, Last::Find(below(alloc, 0)?), &FOUR, "none\n")?;
    expect(&rt, alloc, Last::Exists(below(alloc, 1)?), &FOUR, "true\n")?;
    expect(&rt, alloc, Last::Exists(below(alloc, 1)?), &NONE, "false\n")?;
    expect(&rt, alloc, Last::Forall(below(alloc, 6)?), &FOUR, "false\n")?;
    expect(&rt, alloc, Last::Forall(below(alloc, 6)?), &NONE, "true\n")?;
    expect(&rt, alloc, Last::IndexWhere(below(alloc, 5)?), &FOUR, "0\n")?;
    expect(
        &rt,
        alloc,
        Last::LastIndexWhere(below(alloc, 5)?),
        &FOUR,
        "2\n",
    )?;
    expect(
        &rt,
        alloc,
        Last::LastIndexWhere(below(alloc, 0)?),
        &FOUR,
        "-1\n",
    )?;
    expect(
        &rt,
        alloc,
        Last::SegmentLength(below(alloc, 6)?, -3),
        &FOUR,
        "3\n",
    )?;
    expect(
        &rt,
        alloc,
        Last::SegmentLength(below(alloc, 6)?, 2),
        &FOUR,
        "1\n",
    )?;
    expect(
        &rt,
        alloc,
        Last::SegmentLength(below(alloc, 6)?, 9),
        &FOUR,
        "0\n",
    )
}

#[test]
fn pairs(rt: HostRuntime) -> Result<(), Fail> {
    let alloc = rt.alloc();
    let spanned = "first 1\n0,a\nsecond 3\n5,\n1,b\n6,c\n";
    expect(&rt, alloc, Last::Span(below(alloc, 5)?), &FOUR, spanned)?;
    let parted = "first 2\n0,a\n1,b\nsecond 2\n5,\n6,c\n";
    expect(&rt, alloc, Last::Partition(below(alloc, 5)?), &FOUR, parted)?;
    let cut = "first 3\n0,a\n5,\n1,b\nsecond 1\n6,c\n";
    expect(&rt, alloc, Last::SplitAt(3), &FOUR, cut)?;
    let all = "first 0\nsecond 4\n0,a\n5,\n1,b\n6,c\n";
    expect(&rt, alloc, Last::SplitAt(-1), &FOUR, all)?;
    expect(
        &rt,
        alloc,
        Last::SplitAt(i64::MAX),
        &NONE,
        "first 0\nsecond 0\n",
    )
}

#[test]
fn faults(rt: HostRuntime) -> Result<(), Fail> {
    let alloc = rt.alloc();
    let rows = [(4, "a"), (0, "b"), (6, "c"), (0, "d")];
    expect_fault(&rt, alloc, Last::Sum(shares(alloc)?), &rows, 1)?;
    expect_fault(&rt, alloc, Last::Min(shares(alloc)?), &rows, 1)?;
    let dash = words(alloc, "-")?;
    expect_fault(&rt, alloc, Last::MkString(shares(alloc)?, dash), &rows, 1)?;
    expect_fault(&rt, alloc, Last::Count(small_share(alloc, 9)?), &rows, 1)?;
    expect_fault(
        &rt,
        alloc,
        Last::Partition(small_share(alloc, 9)?),
        &rows,
        1,
    )?;
    expect_fault(&rt, alloc, Last::Find(small_share(alloc, 0)?), &rows, 1)?;
    expect_fault(
        &rt,
        alloc,
        Last::IndexWhere(small_share(alloc, 3)?),
        &rows,
        1,
    )?;
    expect_fault(
        &rt,
        alloc,
        Last::LastIndexWhere(small_share(alloc, 3)?),
        &rows,
        3,
    )?;
    expect_fault(
        &rt,
        alloc,
        Last::SegmentLength(small_share(alloc, 9)?, 2),
        &rows,
        3,
    )?;
    expect_fault(&rt, alloc, Last::Span(small_share(alloc, 9)?), &rows, 1)?;
    expect_fault(&rt, alloc, Last::Forall(small_share(alloc, 9)?), &rows, 1)?;
    expect(
        &rt,
        alloc,
        Last::Forall(small_share(alloc, 3)?),
        &rows,
        "false\n",
    )?;
    expect(
        &rt,
        alloc,
        Last::IndexWhere(small_share(alloc, 4)?),
        &rows,
        "0\n",
    )?;
    let span = "first 0\nsecond 4\n4,a\n0,b\n6,c\n0,d\n";
    expect(&rt, alloc, Last::Span(small_share(alloc, 3)?), &rows, span)
}

#[test]
fn audits(rt: HostRuntime) -> Result<(), Fail> {
    let alloc = rt.alloc();
    let mut leaves = Vec::new(alloc);
    leaves.push(Leaf {
        node: 2,
        lo: 0,
        hi: 12,
        seat: 0,
        turn: 0,
        flag: 100,
        tested: 1,
    })?;
    leaves.push(Leaf {
        node: 3,
        lo: 12,
        hi: 100,
        seat: 1,
        turn: 7,
        flag: 0,
        tested: u64::MAX,
    })?;
    let mut audits = Vec::new(alloc);
    audits.push(StageAudit {
        stage: 2,
        name: "takeWhile",
        items: 100,
        audit: Audit::of(leaves),
    })?;
    audits.push(StageAudit {
        stage: 3,
        name: "sum",
        items: 0,
        audit: Audit::of(Vec::new(alloc)),
    })?;
    let mut text = Vec::from_slice(alloc, b"x\n")?;
    write_audits(&mut text, &audits)?;
    let wanted =
        "x\nstage 2 takeWhile items 100 leaves 2\nleaf 2 0 12 seat 0 turn 0 flag 100 tested 1\nleaf 3 12 100 seat 1 turn 7 flag 0 tested 18446744073709551615\nstage 3 sum items 0 leaves 0\n";
    assert!(rt; text.as_slice() == wanted.as_bytes());
    Ok(())
}

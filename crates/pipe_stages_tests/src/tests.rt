//! What no clause says: that steps answer where there is memory, and how many leaves their runs had.
ghost use Rattle.std.specs.Prelude.{◌≡◌, true, map, IsTrue};
ghost use Rattle.pipe_expr.specs.Grammar.{view};
ghost use Rattle.pipe_checks.specs.Kinds.{appends, fits};
ghost use Rattle.pipe_checks.specs.Uses.{fields_pass};
ghost use Rattle.pipe_checks.specs.declared.uses.Want.TheVariants.{Shown as ShownWanted, Truth as TruthWanted};
ghost use Rattle.pipe_steps.specs.Said.{middle_view, named_view};
ghost use Rattle.pipe_stages.specs.Stages.{is_sound};

use par_edge::OpenGate;
use par_laws::{Memory, Words};
use par_pool::Plan;
use par_rows::{Column, ColumnKind, Row, Schema, Value, Values};
use pipe_checks::{ValueKind, kind_of};
use pipe_expr::{Expr, Op};
use pipe_stages::{StepStop, Stepped, is_built, run_step, run_step_alone};
use pipe_steps::{Named, Step};
use std::alloc::Global;
use std::sync::Wait;
use std::test::Fail;
use std::thread::Threads;

fn words(alloc: Global, text: &str) -> Result<Words, Memory> {
    Words::from_text(alloc, text)
}

// A column of numbers, `a`, and one of texts, `t`.
fn schema(alloc: Global) -> Result<Schema, Memory> {
    let mut columns = Vec::new(alloc);
    columns.push(Column {
        name: words(alloc, "a")?,
        kind: ColumnKind::Int,
    })?;
    columns.push(Column {
        name: words(alloc, "t")?,
        kind: ColumnKind::Text,
    })?;
    Ok(Schema { columns })
}

fn table(alloc: Global) -> Result<Vec<Row>, Memory> {
    let cells: [(i64, &str); 4] = [(1, "x,y"), (2, ""), (0, "z"), (3, ",")];
    let mut rows = Vec::new(alloc);
    for (a, t) in cells {
        let mut values = Values::with_room(alloc, 2)?;
        values.push(Value::Int(a))?;
        values.push(Value::Text(words(alloc, t)?))?;
        rows.push(Row { values })?;
    }
    Ok(rows)
}

fn named(alloc: Global, column: &str) -> Result<Expr, Memory> {
    Ok(Expr::Column(words(alloc, column)?))
}

fn pair(alloc: Global, op: Op, a: Expr, b: Expr) -> Result<Expr, Memory> {
    Ok(Expr::Pair(op, Box::new(alloc, a)?, Box::new(alloc, b)?))
}

// The column `a` beside a number.
fn beside(alloc: Global, op: Op, n: i64) -> Result<Expr, Memory> {
    pair(alloc, op, named(alloc, "a")?, Expr::Int(n))
}

// `6 / a`
fn sixth(alloc: Global) -> Result<Expr, Memory> {
    pair(alloc, Op::Divide, Expr::Int(6), named(alloc, "a")?)
}

// Values under the names 1, 2 and so on.
fn fields(alloc: Global, first: Expr, second: Option<Expr>) -> Result<Vec<Named>, Memory> {
    let mut all = Vec::new(alloc);
    all.push(Named {
        name: words(alloc, "1")?,
        of: first,
    })?;
    if let Some(of) = second {
        all.push(Named {
            name: words(alloc, "2")?,
            of,
        })?;
    }
    Ok(all)
}

fn range(alloc: Global, a: i64, b: i64, c: i64) -> Result<Step, Memory> {
    let name = words(alloc, "n")?;
    Ok(Step::ZipRange { a, b, c, name })
}

fn split(alloc: Global, separator: &str) -> Result<Step, Memory> {
    Ok(Step::FlatMap {
        column: words(alloc, "t")?,
        sep: words(alloc, separator)?,
    })
}

// The steps that are tried, by number.
fn step(alloc: Global, number: usize) -> Result<Step, Memory> {
    match number {
        0 => Ok(Step::Filter(beside(alloc, Op::Less, 2)?)),
        1 => Ok(Step::FilterNot(beside(alloc, Op::Less, 2)?)),
        2 => Ok(Step::TakeWhile(beside(alloc, Op::More, 0)?)),
        3 => Ok(Step::DropWhile(beside(alloc, Op::More, 0)?)),
        4 => Ok(Step::Take(2)),
        5 => Ok(Step::Take(-1)),
        6 => Ok(Step::Drop(3)),
        7 => Ok(Step::Slice(1, 3)),
        8 => Ok(Step::Reverse),
        9 => Ok(Step::ZipWithIndex(words(alloc, "n")?)),
        10 => range(alloc, 5, 2, -1),
        11 => range(alloc, i64::MIN, i64::MAX, 1),
        12 => range(alloc, i64::MAX - 1, i64::MIN, i64::MIN),
        13 => split(alloc, ","),
        14 => split(alloc, "x,"),
        _ => valued(alloc, number),
    }
}

// The steps with values.
fn valued(alloc: Global, number: usize) -> Result<Step, Memory> {
    let double = pair(alloc, Op::Plus, named(alloc, "a")?, named(alloc, "a")?)?;
    let sixth = sixth(alloc)?;
    match number {
        15 => Ok(Step::Map(fields(alloc, double, Some(named(alloc, "t")?))?)),
        16 => Ok(Step::Map(fields(alloc, double, Some(sixth))?)),
        17 => {
            let read = Expr::ToInt(Box::new(alloc, named(alloc, "t")?)?);
            Ok(Step::Map(fields(alloc, read, Some(sixth))?))
        }
        18 => {
            let test = beside(alloc, Op::More, 1)?;
            Ok(Step::Collect(fields(alloc, sixth, None)?, test))
        }
        19 => {
            let test = beside(alloc, Op::Differ, 1)?;
            Ok(Step::Collect(fields(alloc, sixth, None)?, test))
        }
        20 => {
            let test = pair(alloc, Op::More, sixth, Expr::Int(1))?;
            Ok(Step::Filter(test))
        }
        21 => {
            let test = pair(alloc, Op::More, sixth, Expr::Int(2))?;
            Ok(Step::TakeWhile(test))
        }
        _ => {
            let test = pair(alloc, Op::More, sixth, Expr::Int(3))?;
            Ok(Step::TakeWhile(test))
        }
    }
}

fn appends(e: &Expr) -> bool
    ensures { result ≡ appends (view e.now) }
{
    match e {
        Expr::Int(_) | Expr::Text(_) | Expr::Column(_) => false,
        Expr::Len(e) => appends(e),
        Expr::ToInt(e) => appends(e),
        Expr::Group(e) => appends(e),
        Expr::Not(e) => appends(e),
        Expr::Pair(Op::Join, _, _) => true,
        Expr::Pair(_, a, b) => appends(a) || appends(b),
    }
}

fn is_condition(columns: &[Column], e: &Expr) -> bool
    ensures { result ≡ fits columns.now TruthWanted (view e.now) }
{
    match kind_of(columns, e) {
        Some(ValueKind::Truth) => !appends(e),
        _ => false,
    }
}

fn is_shown(columns: &[Column], e: &Expr) -> bool
    ensures { result ≡ fits columns.now ShownWanted (view e.now) }
{
    match kind_of(columns, e) {
        Some(ValueKind::Number) | Some(ValueKind::Text) => true,
        _ => false,
    }
}

fn are_shown(columns: &[Column], fields: &[Named]) -> bool
    ensures { result ≡ fields_pass (fits columns.now) (map named_view fields.now) }
{
    match fields {
        [] => true,
        [first, rest @ ..] => is_shown(columns, &first.of) && are_shown(columns, rest),
    }
}

// Whether a step may run over the columns.
fn is_sound(columns: &[Column], step: &Step) -> bool
    ensures { IsTrue result → is_sound columns.now (middle_view step.now) ≡ true }
{
    match step {
        Step::Filter(e) => is_condition(columns, e),
        Step::FilterNot(e) => is_condition(columns, e),
        Step::TakeWhile(e) => is_condition(columns, e),
        Step::DropWhile(e) => is_condition(columns, e),
        Step::Map(fields) => are_shown(columns, fields),
        Step::Collect(fields, e) => are_shown(columns, fields) && is_condition(columns, e),
        Step::FlatMap { column: _, sep } => !sep.as_str().is_empty(),
        Step::ZipRange {
            a: _,
            b: _,
            c,
            name: _,
        } => *c != 0,
        Step::Scan {
            how: _,
            of: _,
            name: _,
        } => false,
        Step::GroupBy { keys: _, aggs: _ } => false,
        _ => true,
    }
}

// Adds a row: each value and a bar, and then a semicolon.
fn add_row(alloc: Global, text: &mut String, row: &Row) -> Result<(), Memory> {
    for value in row.values.as_slice() {
        match value {
            Value::Int(number) => text.push_str(format!(in alloc; "{number}")?.as_str())?,
            Value::Text(words) => text.push_str(words.as_str())?,
        }
        text.push_str("|")?;
    }
    text.push_str(";")?;
    Ok(())
}

fn text_of(alloc: Global, stepped: &Stepped<'_>) -> Result<String, Memory> {
    let mut text = String::new(alloc);
    match stepped {
        Stepped::Picked(rows) => {
            for row in rows {
                add_row(alloc, &mut text, row)?;
            }
        }
        Stepped::Made(rows) => {
            for row in rows {
                add_row(alloc, &mut text, row)?;
            }
        }
    }
    Ok(text)
}

// What a step gives by so many workers: the rows, and whether there is an audit; or why it stops. None where it may not
// run.
fn outcome<R: Threads + Wait + Sync>(
    rt: &R,
    alloc: Global,
    number: usize,
    workers: u32,
) -> Result<Option<(String, bool)>, Memory> {
    let schema = schema(alloc)?;
    let table = table(alloc)?;
    let step = step(alloc, number)?;
    let mut rows = Vec::new(alloc);
    for row in table.as_slice() {
        rows.push(row)?;
    }
    if !is_built(&step) || !is_sound(&schema.columns, &step) || rows.len() > 1000 {
        return Ok(None);
    }
    let plan = Plan {
        workers: workers.clamp(1, 64),
        level: 4,
        gate: &OpenGate,
    };
    let ran = if workers == 1 {
        run_step_alone(alloc, &step, &schema, rows.as_slice(), 4, &OpenGate)
    } else {
        run_step(rt, alloc, &step, &schema, rows.as_slice(), &plan)
    };
    match ran {
        Ok((stepped, audit)) => Ok(Some((text_of(alloc, &stepped)?, audit.is_some()))),
        Err(StepStop::Fault(fault)) => {
            let text = format!(in alloc; "fault {} {}", fault.at, fault.kind)?;
            Ok(Some((text, false)))
        }
        Err(StepStop::TooMany) => Ok(None),
        Err(StepStop::Memory) => Err(Memory),
    }
}

#[test]
fn steps(rt: HostRuntime) -> Result<(), Fail> {
    let cases: [(&str, bool); 23] = [
        ("1|x,y|;0|z|;", true),
        ("2||;3|,|;", true),
        ("1|x,y|;2||;", true),
        ("0|z|;3|,|;", true),
        ("1|x,y|;2||;", false),
        ("", false),
        ("3|,|;", false),
        ("2||;0|z|;", false),
        ("3|,|;0|z|;2||;1|x,y|;", true),
        ("1|x,y|0|;2||1|;0|z|2|;3|,|3|;", true),
        ("1|x,y|5|;2||4|;0|z|3|;", true),
        (
            "1|x,y|-9223372036854775808|;2||-9223372036854775807|;0|z|-9223372036854775806|;3|,|-9223372036854775805|;",
            true,
        ),
        ("1|x,y|9223372036854775806|;2||-2|;", true),
        ("1|x|;1|y|;2||;0|z|;3||;3||;", true),
        ("1||;1|y|;2||;0|z|;3|,|;", true),
        ("2|x,y|;4||;0|z|;6|,|;", true),
        ("fault 2 1", false),
        ("fault 0 2", false),
        ("3|;2|;", true),
        ("fault 1 1", false),
        ("fault 2 1", false),
        ("fault 2 1", false),
        ("1|x,y|;", true),
    ];
    for workers in [1, 2, 4] {
        for (number, (rows, audited)) in cases.iter().enumerate() {
            match outcome(&rt, rt.alloc(), number, workers)? {
                Some((text, has_audit)) => {
                    assert_eq!(rt; text.as_str(), *rows);
                    assert_eq!(rt; has_audit, *audited);
                }
                None => return Err("a step did not run".into()),
            }
        }
    }
    Ok(())
}

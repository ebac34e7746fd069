ghost use Rattle.std.specs.Prelude.{◌≡◌};
ghost use Rattle.pipe_expr.specs.Grammar.{view};
ghost use Rattle.pipe_checks.specs.Kinds.{appends, is_wanted};
ghost use Rattle.pipe_checks.specs.declared.uses.Want.TheVariants.{Shown as ShownWanted};

use par_laws::{Made, Mapper, Memory, Test, Verdict, Words};
use par_rows::{Column, ColumnKind, Row, Schema, Value, Values};
use pipe_checks::{ValueKind, kind_of};
use pipe_eval::{Condition, Key, Maker, Number, Shown};
use pipe_expr::{Expr, Op, ParseError, Reserved, Token, Verb, whole_expression};
use pipe_steps::Named;
use pipe_text::Symbol;
use std::alloc::Global;

const LEAST: i64 = -9_223_372_036_854_775_808;

const GREATEST: i64 = 9_223_372_036_854_775_807;

// A token by one letter: digits, symbols as they are but for `!=` as `!`, `<=` as `[`, `>=` as `]`, `++` as `&`; words
// by their first letter in upper case; a text of two characters; other letters are names.
fn token(alloc: Global, c: u8) -> Result<Token, Memory> {
    match c {
        b'0'..=b'9' => Ok(Token::Digits((c - b'0') as u64)),
        b'(' => Ok(Token::Sign(Symbol::Open)),
        b')' => Ok(Token::Sign(Symbol::Close)),
        b'=' => Ok(Token::Sign(Symbol::Equal)),
        b'!' => Ok(Token::Sign(Symbol::Differ)),
        b'<' => Ok(Token::Sign(Symbol::Less)),
        b'[' => Ok(Token::Sign(Symbol::AtMost)),
        b'>' => Ok(Token::Sign(Symbol::More)),
        b']' => Ok(Token::Sign(Symbol::AtLeast)),
        b'+' => Ok(Token::Sign(Symbol::Plus)),
        b'-' => Ok(Token::Sign(Symbol::Minus)),
        b'&' => Ok(Token::Sign(Symbol::Join)),
        b'*' => Ok(Token::Sign(Symbol::Times)),
        b'/' => Ok(Token::Sign(Symbol::Divide)),
        b'%' => Ok(Token::Sign(Symbol::Remainder)),
        b'A' => Ok(Token::Kept(Reserved::And)),
        b'O' => Ok(Token::Kept(Reserved::Or)),
        b'N' => Ok(Token::Kept(Reserved::Not)),
        b'L' => Ok(Token::Kept(Reserved::Len)),
        b'I' => Ok(Token::Kept(Reserved::ToInt)),
        b'"' => Ok(Token::Quote(Words::from_text(alloc, "é!")?)),
        b'a' => name(alloc, "a"),
        b'b' => name(alloc, "b"),
        b't' => name(alloc, "t"),
        _ => name(alloc, "u"),
    }
}

fn name(alloc: Global, name: &str) -> Result<Token, Memory> {
    Ok(Token::Word(Verb::Plain, Words::from_text(alloc, name)?))
}

fn parsed(alloc: Global, text: &[u8]) -> Result<Expr, ParseError> {
    let mut tokens = Vec::new(alloc);
    for c in text {
        match token(alloc, *c) {
            Ok(one) => tokens.push(one)?,
            Err(_) => return Err(ParseError::Memory),
        }
    }
    whole_expression(alloc, &tokens)
}

fn column(alloc: Global, name: &str, kind: ColumnKind) -> Result<Column, Memory> {
    let name = Words::from_text(alloc, name)?;
    Ok(Column { name, kind })
}

// Two columns of numbers and two of texts.
fn schema(alloc: Global) -> Result<Schema, Memory> {
    let mut columns = Vec::new(alloc);
    columns.push(column(alloc, "a", ColumnKind::Int)?)?;
    columns.push(column(alloc, "b", ColumnKind::Int)?)?;
    columns.push(column(alloc, "t", ColumnKind::Text)?)?;
    columns.push(column(alloc, "u", ColumnKind::Text)?)?;
    Ok(Schema { columns })
}

fn row(alloc: Global, a: i64, b: i64, t: &str, u: &str) -> Result<Row, Memory> {
    let mut values = Values::with_room(alloc, 4)?;
    values.push(Value::Int(a))?;
    values.push(Value::Int(b))?;
    values.push(Value::Text(Words::from_text(alloc, t)?))?;
    values.push(Value::Text(Words::from_text(alloc, u)?))?;
    Ok(Row { values })
}

fn appends(e: &Expr) -> bool
    ensures { result ≡ appends (view e.now) }
{
    match e {
        Expr::Int(_) | Expr::Text(_) | Expr::Column(_) => false,
        Expr::Len(e) => appends(e),
        Expr::ToInt(e) => appends(e),
        Expr::Group(e) => appends(e),
        Expr::Not(e) => appends(e),
        Expr::Pair(Op::Join, _, _) => true,
        Expr::Pair(_, a, b) => appends(a) || appends(b),
    }
}

// The verdict of an expression; None where it is no condition, or memory is wanting.
fn verdict(alloc: Global, text: &[u8], row: &Row) -> Option<Verdict> {
    let schema = schema(alloc).ok()?;
    let e = parsed(alloc, text).ok()?;
    if appends(&e) {
        return None;
    }
    let Some(ValueKind::Truth) = kind_of(&schema.columns, &e) else {
        return None;
    };
    let condition = Condition::bind(alloc, &e, &schema).ok()?;
    Some(condition.test(&row))
}

// The number of an expression.
fn number(alloc: Global, text: &[u8], row: &Row) -> Option<Made<i64>> {
    let schema = schema(alloc).ok()?;
    let e = parsed(alloc, text).ok()?;
    let Some(ValueKind::Number) = kind_of(&schema.columns, &e) else {
        return None;
    };
    let number = Number::bind(alloc, &e, &schema).ok()?;
    number.map(alloc, &row).ok()
}

fn is_shown(kind: Option<ValueKind>) -> bool
    ensures { result ≡ is_wanted ShownWanted kind }
{
    match kind {
        Some(ValueKind::Number) | Some(ValueKind::Text) => true,
        _ => false,
    }
}

#[test]
fn numbers(rt: HostRuntime) -> Result<(), Memory> {
    let rows: [(&[u8], i64, i64, Made<i64>); 20] = [
        (b"a", 5, 0, Made::Value(5)),
        (b"-7", 5, 0, Made::Value(-7)),
        (b"a+b", 5, -7, Made::Value(-2)),
        (b"a-b", 5, -7, Made::Value(12)),
        (b"a-b-1", 5, 2, Made::Value(2)),
        (b"a*b", 5, -7, Made::Value(-35)),
        (b"a/b", -7, 3, Made::Value(-2)),
        (b"a%b", -7, 3, Made::Value(-1)),
        (b"a%b", 7, -3, Made::Value(1)),
        (b"a+1", GREATEST, 0, Made::Value(LEAST)),
        (b"a-1", LEAST, 0, Made::Value(GREATEST)),
        (b"a*b", LEAST, -1, Made::Value(LEAST)),
        (b"a/b", LEAST, -1, Made::Value(LEAST)),
        (b"a%b", LEAST, -1, Made::Value(0)),
        (b"a/b", 1, 0, Made::Fault(1)),
        (b"a%b", 1, 0, Made::Fault(1)),
        (b"1+(a/b-2)*3", 1, 0, Made::Fault(1)),
        (b"a/b+I(t)", 1, 0, Made::Fault(1)),
        (b"I(t)+a/b", 1, 0, Made::Fault(2)),
        (b"a/(2*b)+b/3", 9, 2, Made::Value(2)),
    ];
    for (text, a, b, wanted) in rows {
        let row = row(rt.alloc(), a, b, "x", "")?;
        assert!(rt; number(rt.alloc(), text, &row) == Some(wanted));
    }
    Ok(())
}

#[test]
fn numbers_of_texts(rt: HostRuntime) -> Result<(), Memory> {
    let rows: [(&[u8], &str, &str, Made<i64>); 20] = [
        (b"L(t)", "né", "", Made::Value(2)),
        (b"L(t)", "", "", Made::Value(0)),
        (b"L(t&u)", "né", "x", Made::Value(3)),
        (b"L(t&\"&(u&t))", "né", "x", Made::Value(7)),
        (b"I(t)", "12", "", Made::Value(12)),
        (b"I(t)", "-3", "", Made::Value(-3)),
        (b"I(t)", "-0", "", Made::Value(0)),
        (b"I(t)", "000000000000000000007", "", Made::Value(7)),
        (b"I(t)", "9223372036854775807", "", Made::Value(GREATEST)),
        (b"I(t)", "9223372036854775808", "", Made::Fault(2)),
        (b"I(t)", "-9223372036854775808", "", Made::Value(LEAST)),
        (b"I(t)", "-9223372036854775809", "", Made::Fault(2)),
        (b"I(t)", "99999999999999999999999", "", Made::Fault(2)),
        (b"I(t)", "", "", Made::Fault(2)),
        (b"I(t)", "-", "", Made::Fault(2)),
        (b"I(t)", "+1", "", Made::Fault(2)),
        (b"I(t)", "1x", "", Made::Fault(2)),
        (b"I(t&u)", "-", "5", Made::Value(-5)),
        (b"I(t&u)", "1", "-", Made::Fault(2)),
        (b"I(t)+I(u)", "1", "2", Made::Value(3)),
    ];
    for (text, t, u, wanted) in rows {
        let row = row(rt.alloc(), 0, 0, t, u)?;
        assert!(rt; number(rt.alloc(), text, &row) == Some(wanted));
    }
    Ok(())
}

#[test]
fn verdicts(rt: HostRuntime) -> Result<(), Memory> {
    let rows: [(&[u8], i64, i64, Verdict); 20] = [
        (b"a=b", 1, 1, Verdict::Pass),
        (b"a!b", 1, 1, Verdict::Fail),
        (b"a<b", -1, 1, Verdict::Pass),
        (b"a[b", 1, 1, Verdict::Pass),
        (b"a>b", 1, 1, Verdict::Fail),
        (b"a]b", 1, 1, Verdict::Pass),
        (b"Na=b", 1, 1, Verdict::Fail),
        (b"(a=1Ob=1)Aa=b", 1, 2, Verdict::Fail),
        (b"a%3=0", 9, 0, Verdict::Pass),
        (b"a=0O6/a>2", 0, 0, Verdict::Pass),
        (b"6/a>2Oa=0", 0, 0, Verdict::Fault(1)),
        (b"a!0A6/a>2", 0, 0, Verdict::Fail),
        (b"6/a>2Aa!0", 0, 0, Verdict::Fault(1)),
        (b"a=1O6/a>2", 0, 0, Verdict::Fault(1)),
        (b"N6/a>2", 0, 0, Verdict::Fault(1)),
        (b"6/a<I(t)", 0, 0, Verdict::Fault(1)),
        (b"I(t)<6/a", 0, 0, Verdict::Fault(2)),
        (b"6/(a-4)<0", 3, 0, Verdict::Pass),
        (b"I(t)=a", 0, 0, Verdict::Fault(2)),
        (b"L(t)=1", 0, 0, Verdict::Pass),
    ];
    for (text, a, b, wanted) in rows {
        let row = row(rt.alloc(), a, b, "x", "")?;
        assert!(rt; verdict(rt.alloc(), text, &row) == Some(wanted));
    }
    Ok(())
}

#[test]
fn verdicts_on_texts(rt: HostRuntime) -> Result<(), Memory> {
    let rows: [(&[u8], &str, &str, Verdict); 9] = [
        (b"t=u", "a", "a", Verdict::Pass),
        (b"t!u", "a", "ab", Verdict::Pass),
        (b"t<u", "a", "ab", Verdict::Pass),
        (b"t<u", "z", "é", Verdict::Pass),
        (b"t<u", "\u{ffff}", "\u{10000}", Verdict::Pass),
        (b"t[u", "b", "a", Verdict::Fail),
        (b"t>u", "b", "a", Verdict::Pass),
        (b"(t)]u", "a", "a", Verdict::Pass),
        (b"t=\"", "é!", "", Verdict::Pass),
    ];
    for (text, t, u, wanted) in rows {
        let row = row(rt.alloc(), 0, 0, t, u)?;
        assert!(rt; verdict(rt.alloc(), text, &row) == Some(wanted));
    }
    Ok(())
}

// A value that the row hasn't counts as 0 or as the empty text.
#[test]
fn rows_of_other_values(rt: HostRuntime) -> Result<(), Memory> {
    let mut values = Values::with_room(rt.alloc(), 1)?;
    values.push(Value::Text(Words::from_text(rt.alloc(), "x")?))?;
    let row = Row { values };
    assert!(rt; number(rt.alloc(), b"a+b", &row) == Some(Made::Value(0)));
    assert!(rt; number(rt.alloc(), b"L(t&u)", &row) == Some(Made::Value(0)));
    assert!(rt; verdict(rt.alloc(), b"t=u", &row) == Some(Verdict::Pass));
    Ok(())
}

// The text of an expression's value.
fn shown(alloc: Global, text: &[u8], row: &Row) -> Option<Made<Words>> {
    let schema = schema(alloc).ok()?;
    let e = parsed(alloc, text).ok()?;
    if !is_shown(kind_of(&schema.columns, &e)) {
        return None;
    }
    let shown = Shown::bind(alloc, &e, &schema).ok()?;
    shown.map(alloc, &row).ok()
}

#[test]
fn texts(rt: HostRuntime) -> Result<(), Memory> {
    let row = row(rt.alloc(), LEAST, 0, "né", "")?;
    let rows: [(&[u8], &str); 4] = [
        (b"a", "-9223372036854775808"),
        (b"b", "0"),
        (b"t", "né"),
        (b"t&\"&u&(t&t)", "néé!néné"),
    ];
    for (text, wanted) in rows {
        let wanted = Words::from_text(rt.alloc(), wanted)?;
        assert!(rt; shown(rt.alloc(), text, &row) == Some(Made::Value(wanted)));
    }
    assert!(rt; shown(rt.alloc(), b"a/b", &row) == Some(Made::Fault(1)));
    Ok(())
}

// The row of one expression's value.
fn key(alloc: Global, text: &[u8], row: &Row) -> Option<Made<Row>> {
    let schema = schema(alloc).ok()?;
    let e = parsed(alloc, text).ok()?;
    if !is_shown(kind_of(&schema.columns, &e)) {
        return None;
    }
    let key = Key::bind(alloc, &e, &schema).ok()?;
    key.map(alloc, &row).ok()
}

fn named(alloc: Global, text: &[u8]) -> Option<Named> {
    let of = parsed(alloc, text).ok()?;
    let name = Words::from_text(alloc, "n").ok()?;
    Some(Named { name, of })
}

// The row of two expressions' values.
fn pair(alloc: Global, first: &[u8], second: &[u8], row: &Row) -> Option<Made<Row>> {
    let schema = schema(alloc).ok()?;
    let first = named(alloc, first)?;
    let second = named(alloc, second)?;
    if !is_shown(kind_of(&schema.columns, &first.of)) {
        return None;
    }
    if !is_shown(kind_of(&schema.columns, &second.of)) {
        return None;
    }
    let list = [first, second];
    let maker = Maker::bind(alloc, &list, &schema).ok()?;
    maker.map(alloc, &row).ok()
}

#[test]
fn rows(rt: HostRuntime) -> Result<(), Memory> {
    let of = row(rt.alloc(), 7, 0, "né", "x")?;
    let mut one = Values::with_room(rt.alloc(), 1)?;
    one.push(Value::Int(8))?;
    assert!(rt; key(rt.alloc(), b"a+1", &of) == Some(Made::Value(Row { values: one })));
    assert!(rt; key(rt.alloc(), b"a%b", &of) == Some(Made::Fault(1)));
    let mut two = Values::with_room(rt.alloc(), 2)?;
    two.push(Value::Text(Words::from_text(rt.alloc(), "néx")?))?;
    two.push(Value::Int(2))?;
    let wanted = Made::Value(Row { values: two });
    assert!(rt; pair(rt.alloc(), b"t&u", b"L(t)", &of) == Some(wanted));
    assert!(rt; pair(rt.alloc(), b"I(t)", b"a/b", &of) == Some(Made::Fault(2)));
    assert!(rt; pair(rt.alloc(), b"a/b", b"I(t)", &of) == Some(Made::Fault(1)));
    Ok(())
}

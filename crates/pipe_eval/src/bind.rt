//! Expressions, with their columns bound to places.

ghost use Rattle.std.specs.Prelude.{◌≡◌, ◌≤◌, length, Result, IfOk, Some, true, false};
ghost use Rattle.par_rows.specs.declared.row.Row.{Row};
ghost use Rattle.pipe_checks.specs.Kinds.{appends, class_of, fits, gives_kind, kind_of};
ghost use Rattle.pipe_checks.specs.declared.kinds.ValueKind.TheVariants.{Number as NumberKind, Text as TextKind, Truth as TruthKind};
ghost use Rattle.pipe_checks.specs.declared.uses.Want.TheVariants.{Shown as ShownWanted, Truth as TruthWanted};
ghost use Rattle.pipe_expr.specs.Grammar.{Joined, view};
ghost use Rattle.pipe_eval.specs.Answers.{compared, joined, kept_value, reckoned};
ghost use Rattle.pipe_eval.specs.Bound.{AmountAnswers, CellAnswers, ClaimAnswers, JoinableAnswers, PlainAnswers, amount_at, applied, applied_to, cell_at, holds, place_named};

use crate::amount::{Amount, Arithmetic};
use crate::cell::Cell;
use crate::claim::{Claim, Comparison};
use crate::text::{Joinable, Plain};
use par_laws::{Keep, Memory, Words};
use par_rows::Column;
use pipe_checks::{ValueKind, kind_of};
use pipe_expr::{Expr, Op};
use std::alloc::Global;

// The place of the first column of a name, or how many columns there are.
fn place_named(columns: &[Column], name: &Words) -> usize
    ensures place { result ≡ place_named columns.now name.now }
    ensures within { result ≤ length columns.now }
{
    match columns {
        [] => 0,
        [first, rest @ ..] => {
            if first.name == *name {
                0
            } else {
                place_named(rest, name) + 1
            }
        }
    }
}

// A text that isn't joined.
fn bind_plain(alloc: Global, columns: &[Column], e: &Expr) -> Result<Plain, Memory>
    requires kind { kind_of columns.now (view e.now) ≡ Some TextKind }
    requires apart { appends (view e.now) ≡ false }
    ensures { IfOk result (PlainAnswers columns.now (view e.now)) }
{
    match e {
        Expr::Text(text) => Ok(Plain::Fixed(text.copy(alloc)?)),
        Expr::Column(name) => Ok(Plain::Column(place_named(columns, name))),
        Expr::Group(e) => bind_plain(alloc, columns, e),
        _ => unreachable!(),
    }
}

// A text.
fn bind_text(alloc: Global, columns: &[Column], e: &Expr) -> Result<Joinable, Memory>
    requires { kind_of columns.now (view e.now) ≡ Some TextKind }
    ensures { IfOk result (JoinableAnswers columns.now (view e.now)) }
{
    match e {
        Expr::Text(text) => Ok(Joinable::One(Plain::Fixed(text.copy(alloc)?))),
        Expr::Column(name) => Ok(Joinable::One(Plain::Column(place_named(columns, name)))),
        Expr::Group(e) => bind_text(alloc, columns, e),
        Expr::Pair(_, a, b) => {
            let left = bind_text(alloc, columns, a)?;
            let right = bind_text(alloc, columns, b)?;
            Ok(Joinable::Join(Box::new(alloc, left)?, Box::new(alloc, right)?))
        }
        _ => unreachable!(),
    }
}

fn arithmetic(op: Op) -> Arithmetic
    requires { gives_kind (class_of op) NumberKind NumberKind ≡ Some NumberKind }
    ensures { joined op ≡ reckoned (applied result) }
{
    match op {
        Op::Plus => Arithmetic::Plus,
        Op::Minus => Arithmetic::Minus,
        Op::Times => Arithmetic::Times,
        Op::Divide => Arithmetic::Divide,
        Op::Remainder => Arithmetic::Remainder,
        _ => unreachable!(),
    }
}

fn reckoned(alloc: Global, how: Arithmetic, a: Amount, b: Amount) -> Result<Amount, Memory>
    ensures { IfOk result (λ m. (row : Row) → amount_at m row ≡ applied_to how (amount_at a row) (amount_at b row)) }
{
    let a = Box::new(alloc, a)?;
    let b = Box::new(alloc, b)?;
    Ok(Amount::Reckoned(how, a, b))
}

/// A number.
pub(crate) fn bind_amount(alloc: Global, columns: &[Column], e: &Expr) -> Result<Amount, Memory>
    requires { kind_of columns.now (view e.now) ≡ Some NumberKind }
    ensures { IfOk result (AmountAnswers columns.now (view e.now)) }
{
    match e {
        Expr::Int(number) => Ok(Amount::Fixed(*number)),
        Expr::Column(name) => Ok(Amount::Column(place_named(columns, name))),
        Expr::Len(e) => Ok(Amount::Length(bind_text(alloc, columns, e)?)),
        Expr::ToInt(e) => Ok(Amount::Spelled(bind_text(alloc, columns, e)?)),
        Expr::Group(e) => bind_amount(alloc, columns, e),
        Expr::Pair(op, a, b) => {
            let left = bind_amount(alloc, columns, a)?;
            let right = bind_amount(alloc, columns, b)?;
            reckoned(alloc, arithmetic(*op), left, right)
        }
        _ => unreachable!(),
    }
}

fn comparison(op: Op) -> Comparison
    requires { gives_kind (class_of op) NumberKind NumberKind ≡ Some TruthKind }
    ensures { joined op ≡ compared (holds result) }
{
    match op {
        Op::Equal => Comparison::Equal,
        Op::Differ => Comparison::Differ,
        Op::Less => Comparison::Less,
        Op::AtMost => Comparison::AtMost,
        Op::More => Comparison::More,
        Op::AtLeast => Comparison::AtLeast,
        _ => unreachable!(),
    }
}

fn bind_comparison(
    alloc: Global,
    columns: &[Column],
    op: Op,
    a: &Expr,
    b: &Expr,
) -> Result<Claim, Memory>
    requires kind { kind_of columns.now (Joined op (view a.now) (view b.now)) ≡ Some TruthKind }
    requires apart { appends (Joined op (view a.now) (view b.now)) ≡ false }
    requires compares { gives_kind (class_of op) NumberKind NumberKind ≡ Some TruthKind }
    ensures { IfOk result (ClaimAnswers columns.now (Joined op (view a.now) (view b.now))) }
{
    let how = comparison(op);
    match kind_of(columns, a) {
        Some(ValueKind::Number) => {
            let left = bind_amount(alloc, columns, a)?;
            let right = bind_amount(alloc, columns, b)?;
            Ok(Claim::Numbers(how, left, right))
        }
        _ => {
            let left = bind_plain(alloc, columns, a)?;
            let right = bind_plain(alloc, columns, b)?;
            Ok(Claim::Texts(how, left, right))
        }
    }
}

fn bind_truth(alloc: Global, columns: &[Column], e: &Expr) -> Result<Claim, Memory>
    requires kind { kind_of columns.now (view e.now) ≡ Some TruthKind }
    requires apart { appends (view e.now) ≡ false }
    ensures { IfOk result (ClaimAnswers columns.now (view e.now)) }
{
    match e {
        Expr::Group(e) => bind_truth(alloc, columns, e),
        Expr::Not(e) => {
            let claim = bind_truth(alloc, columns, e)?;
            Ok(Claim::Not(Box::new(alloc, claim)?))
        }
        Expr::Pair(Op::And, a, b) => {
            let left = bind_truth(alloc, columns, a)?;
            let right = bind_truth(alloc, columns, b)?;
            Ok(Claim::And(Box::new(alloc, left)?, Box::new(alloc, right)?))
        }
        Expr::Pair(Op::Or, a, b) => {
            let left = bind_truth(alloc, columns, a)?;
            let right = bind_truth(alloc, columns, b)?;
            Ok(Claim::Or(Box::new(alloc, left)?, Box::new(alloc, right)?))
        }
        Expr::Pair(op, a, b) => bind_comparison(alloc, columns, *op, a, b),
        _ => unreachable!(),
    }
}

/// A truth.
pub(crate) fn bind_claim(alloc: Global, columns: &[Column], e: &Expr) -> Result<Claim, Memory>
    requires { fits columns.now TruthWanted (view e.now) ≡ true }
    ensures { IfOk result (ClaimAnswers columns.now (view e.now)) }
{
    bind_truth(alloc, columns, e)
}

/// A number or a text.
pub(crate) fn bind_cell(alloc: Global, columns: &[Column], e: &Expr) -> Result<Cell, Memory>
    requires { fits columns.now ShownWanted (view e.now) ≡ true }
    ensures answers { IfOk result (CellAnswers columns.now (view e.now)) }
    ensures kept { IfOk result (λ c. cell_at c ≡ kept_value columns.now (view e.now)) }
{
    match kind_of(columns, e) {
        Some(ValueKind::Number) => Ok(Cell::Number(bind_amount(alloc, columns, e)?)),
        _ => Ok(Cell::Text(bind_text(alloc, columns, e)?)),
    }
}

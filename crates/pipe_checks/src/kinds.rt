//! The kinds of expressions, and what is asked of them.

ghost use Rattle.std.specs.Prelude.{◌≡◌};
ghost use Rattle.pipe_expr.specs.Grammar.{view};
ghost use Rattle.pipe_expr.specs.Divisor.{divides_by_ints as by_ints};
ghost use Rattle.pipe_checks.specs.Kinds.{appends, both_sides, class_of, divides, divides_well, fits, gives_kind, has, is_append, is_kind, is_wanted, is_shallow, is_text, is_zero_int, kind_named, kind_of, known, may_append, of_column, taking};

use crate::uses::{Ask, Want};
use par_laws::Words;
use par_rows::{Column, ColumnKind};
use pipe_expr::{Expr, Op, divides_by_ints, is_deeper};

/// The kind of an expression's value.
#[derive(Clone, Copy, Debug, PartialEq, Eq)]
pub enum ValueKind {
    Number,
    Text,
    Truth,
}

/// What an operator takes.
#[derive(Clone, Copy, Debug)]
pub(crate) enum Class {
    /// Two truths.
    Logic,
    /// Two numbers or two texts.
    Compare,
    /// Two numbers.
    Reckon,
    /// Two texts.
    Append,
}

// The kind of the first column of a name.
fn kind_named(columns: &[Column], name: &Words) -> Option<ColumnKind>
    ensures { result ≡ kind_named columns.now name.now }
{
    match columns {
        [] => None,
        [first, rest @ ..] => {
            if first.name == *name {
                Some(first.kind)
            } else {
                kind_named(rest, name)
            }
        }
    }
}

// Whether a column of this name is there.
pub(crate) fn has(columns: &[Column], name: &Words) -> bool
    ensures { result ≡ has columns.now name.now }
{
    match columns {
        [] => false,
        [first, rest @ ..] => first.name == *name || has(rest, name),
    }
}

// Whether a column of this name is there and holds texts.
pub(crate) fn holds_texts(columns: &[Column], name: &Words) -> bool
    ensures { result ≡ is_text (kind_named columns.now name.now) }
{
    match kind_named(columns, name) {
        Some(ColumnKind::Text) => true,
        _ => false,
    }
}

fn of_column(kind: Option<ColumnKind>) -> Option<ValueKind>
    ensures { result ≡ of_column kind }
{
    match kind {
        None => None,
        Some(ColumnKind::Int) => Some(ValueKind::Number),
        Some(ColumnKind::Text) => Some(ValueKind::Text),
    }
}

fn same(a: ValueKind, b: ValueKind) -> bool
    ensures { result ≡ is_kind a b }
{
    match (a, b) {
        (ValueKind::Number, ValueKind::Number) => true,
        (ValueKind::Text, ValueKind::Text) => true,
        (ValueKind::Truth, ValueKind::Truth) => true,
        _ => false,
    }
}

// What a form gives that takes one kind.
fn taking(wanted: ValueKind, found: Option<ValueKind>, gives: ValueKind) -> Option<ValueKind>
    ensures { result ≡ taking wanted found gives }
{
    match found {
        None => None,
        Some(found) => {
            if same(wanted, found) {
                Some(gives)
            } else {
                None
            }
        }
    }
}

fn class_of(op: Op) -> Class
    ensures { result ≡ class_of op }
{
    match op {
        Op::Or | Op::And => Class::Logic,
        Op::Equal | Op::Differ | Op::Less | Op::AtMost | Op::More | Op::AtLeast => Class::Compare,
        Op::Plus | Op::Minus | Op::Times | Op::Divide | Op::Remainder => Class::Reckon,
        Op::Join => Class::Append,
    }
}

// What an operator gives for its sides.
fn gives_kind(class: Class, a: ValueKind, b: ValueKind) -> Option<ValueKind>
    ensures { result ≡ gives_kind class a b }
{
    match (class, a, b) {
        (Class::Logic, ValueKind::Truth, ValueKind::Truth) => Some(ValueKind::Truth),
        (Class::Compare, ValueKind::Number, ValueKind::Number) => Some(ValueKind::Truth),
        (Class::Compare, ValueKind::Text, ValueKind::Text) => Some(ValueKind::Truth),
        (Class::Reckon, ValueKind::Number, ValueKind::Number) => Some(ValueKind::Number),
        (Class::Append, ValueKind::Text, ValueKind::Text) => Some(ValueKind::Text),
        _ => None,
    }
}

fn both_sides(class: Class, a: Option<ValueKind>, b: Option<ValueKind>) -> Option<ValueKind>
    ensures { result ≡ both_sides class a b }
{
    match (a, b) {
        (Some(a), Some(b)) => gives_kind(class, a, b),
        _ => None,
    }
}

/// The kind of an expression over columns; none where an operand has the wrong kind or a column isn't there. Linear in
/// the expression for each column, and takes no memory.
pub fn kind_of(columns: &[Column], e: &Expr) -> Option<ValueKind>
    ensures { result ≡ kind_of columns.now (view e.now) }
{
    match e {
        Expr::Int(_) => Some(ValueKind::Number),
        Expr::Text(_) => Some(ValueKind::Text),
        Expr::Column(name) => of_column(kind_named(columns, name)),
        Expr::Len(e) => taking(ValueKind::Text, kind_of(columns, e), ValueKind::Number),
        Expr::ToInt(e) => taking(ValueKind::Text, kind_of(columns, e), ValueKind::Number),
        Expr::Group(e) => kind_of(columns, e),
        Expr::Not(e) => taking(ValueKind::Truth, kind_of(columns, e), ValueKind::Truth),
        Expr::Pair(op, a, b) => both_sides(class_of(*op), kind_of(columns, a), kind_of(columns, b)),
    }
}

fn is_append(class: Class) -> bool
    ensures { result ≡ is_append class }
{
    match class {
        Class::Append => true,
        _ => false,
    }
}

// Whether `++` stands in it, at any depth.
fn appends(e: &Expr) -> bool
    ensures { result ≡ appends (view e.now) }
{
    match e {
        Expr::Int(_) | Expr::Text(_) | Expr::Column(_) => false,
        Expr::Len(e) => appends(e),
        Expr::ToInt(e) => appends(e),
        Expr::Group(e) => appends(e),
        Expr::Not(e) => appends(e),
        Expr::Pair(op, a, b) => is_append(class_of(*op)) || appends(a) || appends(b),
    }
}

fn is_wanted(want: Want, kind: Option<ValueKind>) -> bool
    ensures { result ≡ is_wanted want kind }
{
    match (want, kind) {
        (Want::Number, Some(ValueKind::Number)) => true,
        (Want::Truth, Some(ValueKind::Truth)) => true,
        (Want::Shown, Some(ValueKind::Number)) => true,
        (Want::Shown, Some(ValueKind::Text)) => true,
        _ => false,
    }
}

fn may_append(want: Want) -> bool
    ensures { result ≡ may_append want }
{
    match want {
        Want::Truth => false,
        _ => true,
    }
}

// Each column that it names is there.
fn known(columns: &[Column], want: Want, e: &Expr) -> bool
    ensures { result ≡ known columns.now want (view e.now) }
{
    match e {
        Expr::Int(_) | Expr::Text(_) => true,
        Expr::Column(name) => has(columns, name),
        Expr::Len(e) => known(columns, want, e),
        Expr::ToInt(e) => known(columns, want, e),
        Expr::Group(e) => known(columns, want, e),
        Expr::Not(e) => known(columns, want, e),
        Expr::Pair(_, a, b) => known(columns, want, a) && known(columns, want, b),
    }
}

fn is_zero_int(e: &Expr) -> bool
    ensures { result ≡ is_zero_int (view e.now) }
{
    match e {
        Expr::Int(n) => *n == 0,
        _ => false,
    }
}

fn divides(op: Op) -> bool
    ensures { result ≡ divides op }
{
    match op {
        Op::Divide | Op::Remainder => true,
        _ => false,
    }
}

// No divisor is the int 0.
fn divides_well(want: Want, e: &Expr) -> bool
    ensures { result ≡ divides_well want (view e.now) }
{
    match e {
        Expr::Int(_) | Expr::Text(_) | Expr::Column(_) => true,
        Expr::Len(e) => divides_well(want, e),
        Expr::ToInt(e) => divides_well(want, e),
        Expr::Group(e) => divides_well(want, e),
        Expr::Not(e) => divides_well(want, e),
        Expr::Pair(op, a, b) => {
            !(divides(*op) && is_zero_int(b)) && divides_well(want, a) && divides_well(want, b)
        }
    }
}

/// That it is 64 deep at most.
pub(crate) struct Shallow;

impl Ask for Shallow {
    ghost asked = { λ _ want e. is_shallow want e };

    fn passes(&self, _want: Want, e: &Expr) -> bool {
        !is_deeper(64, e)
    }
}

/// That each column that it names is there.
#[derive(Drop)]
pub(crate) struct NamesKnown<'a> {
    pub(crate) columns: &'a [Column],
}

impl<'a> Ask for NamesKnown<'a> {
    ghost asked = { λ s want e. known s.columns.now want e };

    fn passes(&self, want: Want, e: &Expr) -> bool {
        known(self.columns, want, e)
    }
}

/// That it has the kind that is wanted, and no `++` where that is a truth.
#[derive(Drop)]
pub(crate) struct KindsFit<'a> {
    pub(crate) columns: &'a [Column],
}

impl<'a> Ask for KindsFit<'a> {
    ghost asked = { λ s want e. fits s.columns.now want e };

    fn passes(&self, want: Want, e: &Expr) -> bool {
        is_wanted(want, kind_of(self.columns, e)) && (may_append(want) || !appends(e))
    }
}

/// That no divisor is the int 0.
pub(crate) struct DividesWell;

impl Ask for DividesWell {
    ghost asked = { λ _ want e. divides_well want e };

    fn passes(&self, want: Want, e: &Expr) -> bool {
        divides_well(want, e)
    }
}

/// That each divisor is an int.
pub(crate) struct ByInts;

impl Ask for ByInts {
    ghost asked = { λ _ want e. by_ints e };

    fn passes(&self, _want: Want, e: &Expr) -> bool {
        divides_by_ints(e)
    }
}

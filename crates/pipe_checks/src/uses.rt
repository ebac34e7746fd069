//! The expressions of a line, each with the kind that it must have.

ghost use Rattle.std.specs.Prelude.{◌≡◌, Bool, map};
ghost use Rattle.pipe_expr.specs.Grammar.{Tree, view as tree};
ghost use Rattle.pipe_steps.specs.Said.{agg_view, how_view, last_view, middle_view, named_view, view};
ghost use Rattle.pipe_checks.specs.Uses.{end_passes, every, fields_pass, how_passes, middle_passes, totals_pass};

use pipe_expr::Expr;
use pipe_steps::{Agg, Aggregate, Last, Line, Named, Step};

/// The kind that an expression must have.
#[derive(Clone, Copy, Debug, PartialEq, Eq)]
pub enum Want {
    Number,
    Truth,
    /// A number or a text.
    Shown,
}

/// What is asked of each expression of a line.
pub(crate) trait Ask {
    ghost use Rattle.pipe_checks.specs.declared.uses.Want.{Want};

    ghost asked: { Self → Want → Tree → Bool };

    // Whether an expression passes, where it must have this kind. Takes no memory.
    fn passes(&self, want: Want, e: &Expr) -> bool
        ensures { result ≡ asked self.now want (tree e.now) };
}

fn fields_pass<A: Ask>(ask: &A, fields: &[Named]) -> bool
    ensures { result ≡ fields_pass (A.asked ask.now) (map named_view fields.now) }
{
    match fields {
        [] => true,
        [first, rest @ ..] => ask.passes(Want::Shown, &first.of) && fields_pass(ask, rest),
    }
}

fn how_passes<A: Ask>(ask: &A, how: &Aggregate) -> bool
    ensures { result ≡ how_passes (A.asked ask.now) (how_view how.now) }
{
    match how {
        Aggregate::Count => true,
        Aggregate::Sum(e) => ask.passes(Want::Number, e),
        Aggregate::Product(e) => ask.passes(Want::Number, e),
        Aggregate::Min(e) => ask.passes(Want::Number, e),
        Aggregate::Max(e) => ask.passes(Want::Number, e),
        Aggregate::MkString(e, _) => ask.passes(Want::Shown, e),
    }
}

fn totals_pass<A: Ask>(ask: &A, aggs: &[Agg]) -> bool
    ensures { result ≡ totals_pass (A.asked ask.now) (map agg_view aggs.now) }
{
    match aggs {
        [] => true,
        [first, rest @ ..] => how_passes(ask, &first.how) && totals_pass(ask, rest),
    }
}

fn step_passes<A: Ask>(ask: &A, step: &Step) -> bool
    ensures { result ≡ middle_passes (A.asked ask.now) (middle_view step.now) }
{
    match step {
        Step::Filter(e) => ask.passes(Want::Truth, e),
        Step::FilterNot(e) => ask.passes(Want::Truth, e),
        Step::Map(fields) => fields_pass(ask, fields),
        Step::Collect(fields, e) => fields_pass(ask, fields) && ask.passes(Want::Truth, e),
        Step::TakeWhile(e) => ask.passes(Want::Truth, e),
        Step::DropWhile(e) => ask.passes(Want::Truth, e),
        Step::Scan {
            how: _,
            of,
            name: _,
        } => ask.passes(Want::Number, of),
        Step::GroupBy { keys, aggs } => fields_pass(ask, keys) && totals_pass(ask, aggs),
        _ => true,
    }
}

fn last_passes<A: Ask>(ask: &A, last: &Last) -> bool
    ensures { result ≡ end_passes (A.asked ask.now) (last_view last.now) }
{
    match last {
        Last::Print | Last::Size | Last::SplitAt(_) => true,
        Last::Sum(e) => ask.passes(Want::Number, e),
        Last::Product(e) => ask.passes(Want::Number, e),
        Last::Min(e) => ask.passes(Want::Number, e),
        Last::Max(e) => ask.passes(Want::Number, e),
        Last::MkString(e, _) => ask.passes(Want::Shown, e),
        Last::ToSet(e) => ask.passes(Want::Shown, e),
        Last::ToMap(key, e) => ask.passes(Want::Shown, key) && ask.passes(Want::Shown, e),
        Last::Count(e) => ask.passes(Want::Truth, e),
        Last::Find(e) => ask.passes(Want::Truth, e),
        Last::Exists(e) => ask.passes(Want::Truth, e),
        Last::Forall(e) => ask.passes(Want::Truth, e),
        Last::IndexWhere(e) => ask.passes(Want::Truth, e),
        Last::LastIndexWhere(e) => ask.passes(Want::Truth, e),
        Last::SegmentLength(e, _) => ask.passes(Want::Truth, e),
        Last::Span(e) => ask.passes(Want::Truth, e),
        Last::Partition(e) => ask.passes(Want::Truth, e),
    }
}

// Whether each expression of a line passes.
pub(crate) fn every<A: Ask>(ask: &A, line: &Line) -> bool
    ensures { result ≡ every (A.asked ask.now) (view line.now) }
{
    match line {
        Line::Step(step) => step_passes(ask, step),
        Line::Last(last) => last_passes(ask, last),
        _ => true,
    }
}

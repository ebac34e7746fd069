//! The parts of a line that is printed.

use par_laws::Words;
use par_rows::Column;
use pipe_expr::Expr;
use pipe_steps::{Agg, Named};
use pipe_text::Symbol;

/// A part of a line behind its first word.
#[derive(Clone, Copy, Debug)]
pub(crate) enum Piece<'a> {
    /// A word of the language.
    Fixed(&'a str),
    Mark(Symbol),
    Name(&'a Words),
    Int(i64),
    Quote(&'a Words),
    Value(&'a Expr),
    Columns(&'a [Column]),
    Fields(&'a [Named]),
    Keys(&'a [Named]),
    Totals(&'a [Agg]),
}

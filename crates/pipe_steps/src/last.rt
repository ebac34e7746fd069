//! The last step, which makes the answer.

use par_laws::Words;
use pipe_expr::Expr;

/// The last step.
#[derive(Debug, Drop)]
pub enum Last {
    /// The rows.
    Print,
    /// The number of rows.
    Size,
    /// The number of rows that pass.
    Count(Expr),
    /// Wraps in 64 bits; 0 for no rows.
    Sum(Expr),
    /// Wraps in 64 bits; 1 for no rows.
    Product(Expr),
    /// The least number, or none for no rows.
    Min(Expr),
    /// The greatest number, or none for no rows.
    Max(Expr),
    /// The values' texts with the separator between.
    MkString(Expr, Words),
    /// A row that passes, or none exactly where none does.
    Find(Expr),
    /// Whether a row passes.
    Exists(Expr),
    /// Whether each row passes.
    Forall(Expr),
    /// The first index that passes, or -1.
    IndexWhere(Expr),
    /// The last index that passes, or -1.
    LastIndexWhere(Expr),
    /// How many rows pass from that index on without a gap; a negative index counts as 0.
    SegmentLength(Expr, i64),
    /// The longest prefix of rows that pass, and the rest.
    Span(Expr),
    /// The rows that pass, and those that don't.
    Partition(Expr),
    /// The first rows, so many, and the rest.
    SplitAt(i64),
    /// The distinct values, in order.
    ToSet(Expr),
    /// Per key the value of its last row, in key order.
    ToMap(Expr, Expr),
}

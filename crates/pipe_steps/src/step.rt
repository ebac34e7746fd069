//! The steps between the source and the last step. Each is Scala's method of that name over the list of rows.

use par_laws::Words;
use pipe_expr::Expr;

/// A name for a value.
#[derive(Debug, Drop)]
pub struct Named {
    pub name: Words,
    pub of: Expr,
}

/// What is made of the rows of a group.
#[derive(Debug, Drop)]
pub enum Aggregate {
    /// The number of rows.
    Count,
    /// Wraps in 64 bits.
    Sum(Expr),
    /// Wraps in 64 bits.
    Product(Expr),
    Min(Expr),
    Max(Expr),
    /// The values' texts with the separator between.
    MkString(Expr, Words),
}

/// An aggregate with its name.
#[derive(Debug, Drop)]
pub struct Agg {
    pub how: Aggregate,
    pub name: Words,
}

/// What a scan makes of the values so far.
#[derive(Clone, Copy, Debug, PartialEq, Eq)]
pub enum Running {
    Sum,
    Product,
}

/// A step between the source and the last step.
#[derive(Debug, Drop)]
pub enum Step {
    /// The rows that pass.
    Filter(Expr),
    /// The rows that don't pass.
    FilterNot(Expr),
    /// One row per row: its values in this order.
    Map(Vec<Named>),
    /// The rows that pass, and then their values in this order.
    Collect(Vec<Named>, Expr),
    /// One row per piece of that text column, the piece in its place.
    FlatMap { column: Words, sep: Words },
    /// The first rows, so many; a negative number counts as 0.
    Take(i64),
    /// All but the first rows, so many; a negative number counts as 0.
    Drop(i64),
    /// The rows from one index on and before another.
    Slice(i64, i64),
    /// The longest prefix of rows that pass.
    TakeWhile(Expr),
    /// What the longest prefix of rows that pass leaves.
    DropWhile(Expr),
    /// The index, from 0, as last column.
    ZipWithIndex(Words),
    /// The items of a range as last column, as far as both go.
    ZipRange { a: i64, b: i64, c: i64, name: Words },
    /// The last row first.
    Reverse,
    /// The unit, and then each running value.
    Scan { how: Running, of: Expr, name: Words },
    /// One row per list of key values, in their order: the keys, and then the aggregates over the rows with these keys.
    GroupBy { keys: Vec<Named>, aggs: Vec<Agg> },
    /// The first of equal rows.
    Distinct,
}

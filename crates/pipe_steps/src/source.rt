//! Where the rows come from, and which collection holds them.

use par_rows::Schema;

/// Where the rows come from.
#[derive(Debug, Drop)]
pub enum Source {
    /// The records of the data, with these columns.
    Csv(Schema),
    /// `a + i * c` for i = 0, 1, .. while it lies before `b` in the direction of `c`. Each is a row of the one column
    /// `x`.
    Range { a: i64, b: i64, c: i64 },
}

/// Which collection holds the rows.
#[derive(Clone, Copy, Debug, PartialEq, Eq)]
pub enum Kind {
    Array,
    Vector,
}

//! Expressions.

use par_laws::Words;

/// An operator between two expressions.
#[derive(Clone, Copy, Debug, PartialEq, Eq)]
pub enum Op {
    /// `or`
    Or,
    /// `and`
    And,
    /// `=`
    Equal,
    /// `!=`
    Differ,
    /// `<`
    Less,
    /// `<=`
    AtMost,
    /// `>`
    More,
    /// `>=`
    AtLeast,
    /// `+`
    Plus,
    /// `-`
    Minus,
    /// `++`
    Join,
    /// `*`
    Times,
    /// `/`
    Divide,
    /// `%`
    Remainder,
}

/// An expression, as its tokens group.
#[derive(Debug, Drop)]
pub enum Expr {
    /// A number.
    Int(i64),
    /// A text.
    Text(Words),
    /// The value of a column.
    Column(Words),
    /// `len(..)`, the number of characters of a text.
    Len(Box<Expr>),
    /// `toInt(..)`, the number that a text spells.
    ToInt(Box<Expr>),
    /// A pair of parentheses.
    Group(Box<Expr>),
    /// `not ..`
    Not(Box<Expr>),
    /// An operator between its sides; repeated ones group to the left.
    Pair(Op, Box<Expr>, Box<Expr>),
}

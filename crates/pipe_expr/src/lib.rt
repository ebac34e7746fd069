//! Expressions, read from the tokens of a line.
//!
//! `Reads`, in specs/Grammar.antt, says by cases which tokens read as which expression: how loosely each operator
//! binds, that repeated ones group to the left, that a comparison stands once. No tokens read as two expressions.
//! `whole_expression` finds the one that all tokens read as, and `expression` the longest at the front.
//!
//! One grammar serves both versions of the language. In version 1 `toInt` is a word like others, so its tokens have no
//! `Reserved::ToInt`, and `divides_by_ints` must hold. `is_deeper` tells of a nest past a bound.
#![tactic(auto)]

mod depth;
mod divisor;
mod expr;
mod parser;
mod token;

pub use depth::is_deeper;
pub use divisor::divides_by_ints;
pub use expr::{Expr, Op};
pub use parser::{ParseError, expression, int, name, whole_expression};
pub use token::{Reserved, Token, Verb};

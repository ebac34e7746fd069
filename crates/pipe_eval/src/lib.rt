//! Expressions as tests, mappers and keys of rows.
//!
//! `value`, in specs/Answers.antt, says by cases what an expression is at a row: a number, a text or a truth, or the
//! fault that stands in its place. It looks columns up by their names. A `bind` call looks them up once, and makes of
//! an expression what answers the same by the places of the row's values, with no kind left to test:
//!
//! - `Condition` is a test, `Number` makes a number and `Shown` the text of a value;
//! - `Key` makes a row of one value and `Maker` a row of several.
//!
//! Each asks that the expression fits what it is bound to, which the line that it stands on has been judged for.
#![tactic(auto)]

mod amount;
mod bind;
mod cell;
mod claim;
mod condition;
mod fault;
mod key;
mod maker;
mod number;
mod shown;
mod spelling;
mod text;

pub use condition::Condition;
pub use fault::Fault;
pub use key::Key;
pub use maker::Maker;
pub use number::Number;
pub use shown::Shown;

//! Answers: the last step of a pipeline over its rows, and the text of what it answers.
//!
//! `run_last` gives the bytes of the answer, or the one fault that the step has. Each last step is the library's call of its
//! name over references to the rows, and no row is copied. `IsAnswerText`, in specs/Lasts.antt, is the text for each step,
//! and `last_fault` the fault that stands in its place; `IsLastAudit` says of which run a step's audit tells.
//!
//! | Steps | Text, each line with its line feed |
//! |---|---|
//! | `print` | the record of the column names, and then of each row |
//! | `size`, `count`, `sum`, `product`, `indexWhere`, `lastIndexWhere`, `segmentLength` | a number in decimal |
//! | `min`, `max` | a number, or `none` |
//! | `exists`, `forall` | `true` or `false` |
//! | `mkString` | the text |
//! | `find` | the records of the column names and of the row, or `none` |
//! | `span`, `partition`, `splitAt` | `first N`, N records, `second M`, M records |
//!
//! Records are written by the default writer of `csv`. `toSet` and `toMap` are not built: `is_built_last` tells.
//!
//! `write_audits` adds what the steps of a pipeline tell of their jobs.
#![tactic(auto)]

mod audits;
mod last;
mod made;
mod numbers;
mod pairs;
mod rows;
mod searches;
mod strings;
mod texts;

pub use audits::{StageAudit, write_audits};
pub use last::{is_built_last, run_last, run_last_alone};

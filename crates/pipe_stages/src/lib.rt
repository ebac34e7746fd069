//! The steps of a pipeline over its rows, each by the library's call of its name.
//!
//! A step gets rows as references into the table that owns them. `run_step` gives the rows after it as `Stepped`: those
//! that it picked, or rows that it made. Contracts see both as the list of the rows. `after`, in specs/Stages.antt, is that
//! list for each step, or the one fault that the step has; specs/Audits.antt says of which run a step's audit tells.
//!
//! | Steps | Rows |
//! |---|---|
//! | `filter`, `filterNot`, `takeWhile`, `dropWhile`, `reverse`, `take`, `drop`, `slice` | picked, and none is copied |
//! | `map`, `collect`, `zipWithIndex`, `zip`, `flatMap` | made |
//!
//! `scan`, `groupBy` and `distinct` are not built: `is_built` tells.
#![tactic(auto)]

mod making;
mod picking;
mod picks;
mod splitting;
mod step;
mod stepped;
mod stop;

pub use picks::CopySplitter;
pub use step::{is_built, run_step, run_step_alone};
pub use stepped::Stepped;
pub use stop::StepStop;

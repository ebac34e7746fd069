//! What a line of a pipeline text says.

use crate::{Kind, Last, Source, Step};

/// A line that is neither blank nor a comment.
#[derive(Debug, Drop)]
pub enum Line {
    /// `pipeline 2`
    Version,
    Source(Source),
    /// `par array` or `par vector`
    Par(Kind),
    Step(Step),
    Last(Last),
}

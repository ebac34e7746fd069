//! A pipeline.

use pipe_steps::{Kind, Last, Source, Step};

/// A pipeline: where its rows come from, which collection holds them, the steps in order, and the last step.
#[derive(Debug, Drop)]
pub struct Pipeline {
    /// The version of the language, 1 or 2.
    pub version: u8,
    pub source: Source,
    pub kind: Kind,
    pub steps: Vec<Step>,
    pub last: Last,
}

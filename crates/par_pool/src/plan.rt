//! How a job is run.

/// By how many workers a job is run, 1 to 64, how finely it is cut, 1 to 64, and who is told of its leaves.
#[derive(Drop)]
pub struct Plan<'g, G> {
    pub workers: u32,
    pub level: u32,
    pub gate: &'g G,
}

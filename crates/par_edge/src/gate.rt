/// What is told of each leaf of a job before it begins. A gate changes no answer: a test may note
/// the leaves by it, or hold them back. Threads share it.
pub trait Gate {
    /// The seat `seat` begins the leaf of node `node`, over the items `lo..hi`.
    fn begin(&self, seat: u32, node: u32, lo: u32, hi: u32);
}

/// The gate that is always open: `begin` returns at once.
#[derive(Clone, Copy, Debug, Default)]
pub struct OpenGate;

impl Gate for OpenGate {
    fn begin(&self, _seat: u32, _node: u32, _lo: u32, _hi: u32) {}
}

//! What is posted.
ghost use Rattle.std.specs.Prelude.{◌<◌, ◌≤◌};

/// An offered part of a job: its node, 1 to 2,047, and its span `lo..hi`.
#[derive(Clone, Copy, Debug, Drop, PartialEq, Eq)]
pub struct Ticket {
    pub node: u32,
    pub lo: u32,
    pub hi: u32,
    pub ghost is_node: { (0 < node) × (node < 2048) },
    pub ghost is_span: { lo ≤ hi },
}

/// A ticket that a queue did not take.
#[derive(Clone, Copy, Debug, Drop, PartialEq, Eq)]
pub struct Unposted {
    pub ticket: Ticket,
}

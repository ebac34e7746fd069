/// Where a test faulted: the index of the item in the source, and the caller's kind.
#[derive(Clone, Copy, Debug, PartialEq, Eq)]
pub struct FaultAt {
    pub at: u32,
    pub kind: u8,
}

/// The answer of a call whose test can fault: the answer, or the fault that stands in its place.
#[derive(Clone, Copy, Debug, Drop, PartialEq, Eq)]
pub enum Tried<T> {
    Got(T),
    Fault(FaultAt),
}

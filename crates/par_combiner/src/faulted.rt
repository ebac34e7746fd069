//! A combiner of items that may fault.
use crate::combiner::Combiner;
use par_laws::{Back, FaultAt, Made, Memory, Shown};
use std::alloc::Global;

/// What a combiner of items that may fault makes: of all values, or the first fault with its index.
#[derive(Clone, Copy, Debug, Drop, PartialEq, Eq)]
pub enum Yield<O> {
    All(O),
    Fault { at: u32, kind: u8 },
}

/// A combiner of values that keeps the first fault: the values of so many items, or how many items there were and which
/// of them faulted first. After a fault it keeps no further values.
#[derive(Drop)]
pub enum Faulted<C> {
    Fine(C),
    Fell { len: u32, first: FaultAt },
}

impl<C: Shown> Shown for Faulted<C> {
    ghost use Rattle.par_combiner.specs.Faults.{faulted_map};

    type Value = Faulted<C::Value>;

    ghost shown = { faulted_map C.shown };
}

impl<C: Combiner> Combiner for Faulted<C> {
    ghost use Rattle.par_combiner.specs.Faults.{HasFaulted, faulted_count, faulted_joined, YieldStands, faulted_counts, faulted_joins};

    type Item = Made<C::Item>;

    type Out = Yield<C::Out>;

    ghost has = { HasFaulted C.has };

    ghost count = { faulted_count C.count };

    ghost joined = { faulted_joined C.count C.joined };

    ghost stands = { YieldStands C.stands };

    ghost counts = { λ v xs h. faulted_counts C.has C.count C.counts v xs h };

    ghost joins = { λ v w xs ys p q. faulted_joins C.has C.count C.counts C.joined C.joins v w xs ys p q };

    fn empty(alloc: Global) -> Result<Faulted<C>, Memory> {
        Ok(Faulted::Fine(C::empty(alloc)?))
    }

    fn add(&mut self, item: Made<C::Item>) -> Result<(), Back<Made<C::Item>>> {
        match self {
            Faulted::Fine(values) => match item {
                Made::Value(value) => match values.add(value) {
                    Ok(()) => Ok(()),
                    Err(back) => Err(Back {
                        item: Made::Value(back.item),
                    }),
                },
                Made::Fault(kind) => {
                    let at = values.len();
                    *self = Faulted::Fell {
                        len: at + 1,
                        first: FaultAt { at, kind },
                    };
                    Ok(())
                }
            },
            Faulted::Fell { len, first: _ } => {
                *len += 1;
                Ok(())
            }
        }
    }

    fn combine(self, other: Faulted<C>) -> Faulted<C> {
        match (self, other) {
            (Faulted::Fine(a), Faulted::Fine(b)) => Faulted::Fine(a.combine(b)),
            (Faulted::Fine(a), Faulted::Fell { len, first }) => Faulted::Fell {
                len: a.len() + len,
                first: FaultAt {
                    at: a.len() + first.at.min(len),
                    kind: first.kind,
                },
            },
            (Faulted::Fell { len, first }, other) => Faulted::Fell {
                len: len + other.len(),
                first,
            },
        }
    }

    fn len(&self) -> u32 {
        match self {
            Faulted::Fine(values) => values.len(),
            Faulted::Fell { len, first: _ } => *len,
        }
    }

    /// All of what the values make, or the first fault.
    fn result(self) -> Result<Yield<C::Out>, Memory> {
        match self {
            Faulted::Fine(values) => Ok(Yield::All(values.result()?)),
            Faulted::Fell { len: _, first } => Ok(Yield::Fault {
                at: first.at,
                kind: first.kind,
            }),
        }
    }
}

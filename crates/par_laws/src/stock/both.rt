// Two monoids side by side.
ghost use Rattle.std.proofs.Common.{ap₂};

use crate::memory::Memory;
use crate::monoid::{Gather, Monoid};
use crate::shown::Shown;
use std::alloc::Global;

/// Two monoids at once: the values are pairs, and each side goes by its own monoid.
#[derive(Clone, Copy, Debug, Default, Drop)]
pub struct Both<A, B> {
    pub a: A,
    pub b: B,
}

impl<A: Monoid, B: Monoid> Monoid for Both<A, B> {
    type T = (A::T, B::T);

    ghost is_value = { λ m p. A.is_value m.a p.0 × B.is_value m.b p.1 };

    ghost unit = { λ m. (A.unit m.a, B.unit m.b) };

    ghost joined = { λ m p q. (A.joined m.a p.0 q.0, B.joined m.b p.1 q.1) };

    ghost associative = { λ m p q r i. (A.associative m.a p.0 q.0 r.0 i, B.associative m.b p.1 q.1 r.1 i) };

    ghost unit_first = { λ m p known i. (A.unit_first m.a p.0 known.0 i, B.unit_first m.b p.1 known.1 i) };

    ghost unit_second = { λ m p known i. (A.unit_second m.a p.0 known.0 i, B.unit_second m.b p.1 known.1 i) };

    fn zero(&self, alloc: Global) -> Result<(A::T, B::T), Memory> {
        Ok((self.a.zero(alloc)?, self.b.zero(alloc)?))
    }

    fn op(&self, a: (A::T, B::T), b: (A::T, B::T)) -> Result<(A::T, B::T), Memory> {
        Ok((self.a.op(a.0, b.0)?, self.b.op(a.1, b.1)?))
    }

    fn known(&self, a: &(A::T, B::T)) {
        self.a.known(&a.0);
        self.b.known(&a.1);
    }
}

impl<I: Shown, A: Gather<I>, B: Gather<I>> Gather<I> for Both<A, B> {
    ghost gathered = { λ m p x. (A.gathered m.a p.0 x, B.gathered m.b p.1 x) };

    ghost adds = { λ m p q x i. (A.adds m.a p.0 q.0 x i, B.adds m.b p.1 q.1 x i) };

    fn add(&self, alloc: Global, acc: (A::T, B::T), item: &I) -> Result<(A::T, B::T), Memory> {
        Ok((
            self.a.add(alloc, acc.0, item)?,
            self.b.add(alloc, acc.1, item)?,
        ))
    }
}

ghost use Rattle.std.specs.Prelude.{◌≡◌, IfOk};

use crate::memory::Memory;
use crate::shown::Shown;
use crate::words::Words;
use std::alloc::Global;

/// A value that can be copied, as far as memory lasts.
pub trait Keep: Shown + Sized {
    /// A second value, seen as the first. Takes memory where the value holds memory.
    fn copy(&self, alloc: Global) -> Result<Self, Memory>
        ensures { IfOk result (λ second. Self.shown second ≡ Self.shown self.now) };
}

/// Takes no memory.
impl Keep for i64 {
    fn copy(&self, _alloc: Global) -> Result<i64, Memory> {
        Ok(*self)
    }
}

/// Takes no memory.
impl Keep for u64 {
    fn copy(&self, _alloc: Global) -> Result<u64, Memory> {
        Ok(*self)
    }
}

impl Keep for Words {
    fn copy(&self, alloc: Global) -> Result<Words, Memory> {
        Words::from_text(alloc, self.as_str())
    }
}

impl<T: Keep> Keep for Option<T> {
    fn copy(&self, alloc: Global) -> Result<Option<T>, Memory> {
        match self {
            None => Ok(None),
            Some(item) => Ok(Some(item.copy(alloc)?)),
        }
    }
}

impl<A: Keep + Drop, B: Keep + Drop> Keep for (A, B) {
    fn copy(&self, alloc: Global) -> Result<(A, B), Memory> {
        Ok((self.0.copy(alloc)?, self.1.copy(alloc)?))
    }
}

/// In memory of exactly the length. Linear.
impl<T: Keep + Drop> Keep for Vec<T> {
    fn copy(&self, alloc: Global) -> Result<Vec<T>, Memory> {
        let mut copies = Vec::with_capacity(alloc, self.len())?;
        for item in self {
            copies.push(item.copy(alloc)?)?;
        }
        Ok(copies)
    }
}

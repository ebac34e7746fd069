ghost use Rattle.std.specs.Prelude.{◌≡◌, IfOk};

use crate::memory::Memory;
use crate::shown::Shown;
use std::alloc::Global;

/// A function of an item, as `map` takes it. It answers its definition.
pub trait Mapper<I: Shown, U: Shown> {
    ghost mapped: { Self → I.Value → U.Value };

    /// What the item becomes. Takes memory only where the value holds memory.
    fn map(&self, alloc: Global, item: &I) -> Result<U, Memory>
        ensures { IfOk result (λ made. U.shown made ≡ mapped self.now (I.shown item.now)) };
}

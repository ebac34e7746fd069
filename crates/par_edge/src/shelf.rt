ghost use Rattle.std.specs.Prelude.{IfOk, OnErr};

use crate::Failed;

/// Files that are read by name.
///
/// A shelf is seen as three things: the files that it holds, where it tells them; a count of its
/// faults; and a count of the bytes that it gave. What it holds never changes, and neither count
/// falls. Each count stays at the last value of a `u64`.
pub trait Shelf {
    ghost use Rattle.par_edge.specs.Shelves.{ShelfState, IsLaterShelf, Gives, FailsToRead};

    /// The held files, the count of faults and the count of bytes given.
    ghost state: { Self → ShelfState };

    /// Reads bytes of the named file, from byte `from` on, to the front of `buf`, and answers how
    /// many came: none exactly at the end of the file, and for an empty `buf`.
    ///
    /// Fails only where the count of faults rose.
    fn read(&mut self, name: &str, from: u64, buf: &mut [u8]) -> Result<usize, Failed>
        ensures later { IsLaterShelf (state self.old) (state self.new) }
        ensures gives { IfOk result (λ count. Gives (state self.old) (state self.new) name.now from count buf.new) }
        ensures fails { OnErr result (FailsToRead (state self.old) (state self.new)) };
}

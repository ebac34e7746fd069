ghost use Rattle.std.specs.Prelude.{IfOk, OnErr};

use crate::Failed;

/// A place that bytes are written to.
///
/// A sink is seen as two things: the bytes written so far, where it tells them, and a count of its
/// faults, which never falls and stays at the last value of a `u64`.
pub trait Sink {
    ghost use Rattle.par_edge.specs.Sinks.{SinkState, Takes, FailsToWrite};

    /// The bytes written so far and the count of faults.
    ghost state: { Self → SinkState };

    /// Appends the first bytes of the piece, and answers how many: at least one where there is any.
    ///
    /// Fails only where the count of faults rose, and then appends nothing.
    fn write(&mut self, piece: &[u8]) -> Result<usize, Failed>
        ensures takes { IfOk result (λ count. Takes (state self.old) (state self.new) piece.now count) }
        ensures fails { OnErr result (FailsToWrite (state self.old) (state self.new)) };
}

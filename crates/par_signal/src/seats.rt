//! Opening the flags, and the seats from which threads step on them.
ghost use Rattle.std.specs.Prelude.{◌≡◌, ◌≤◌, IfOk, length};
ghost use Rattle.par_signal.specs.Calls.{opened, left_of, right_of, joined};

use crate::marks::Marks;
use crate::rule::{Cut, FlagRule, Glue, Telling, Tells, Told, View};
use crate::signals::{SignalSeat, Signals};
use atomic_table::Table;
use par_laws::Memory;
use std::alloc::{AllocError, Global};
use std::marker::Brand;
use std::snapshot::Snapshot;

// The marks lie nowhere, so a contract of the flags needs a value that is seen as them: the seat of a table that is made for this alone.
fn tell<M: Marks, B: Telling>(alloc: Global, marks: &M) -> Result<Told, AllocError>
    requires { B.list ≡ M.marks marks.now }
    ensures { IfOk result (λ t. t.value.me.0.seen.of ≡ M.marks marks.now) }
{
    let _ = marks;
    let (_table, seat) = Table::<(), View, (), Tells<B>, Global>::of_words(alloc, &[0], &())?;
    Ok(Snapshot::of(&seat))
}

impl Signals {
    /// Opens flags over the marks of `n` items: low is `n`, high 0 and abort `No`. The seat has seen just that, and is
    /// alone until another is split from it. Constant time: the marks are neither read nor copied.
    pub fn open<M: Marks>(alloc: Global, marks: &M, n: u32) -> Result<(Signals, SignalSeat), Memory>
        requires length { length (M.marks marks.now) ≡ n }
        requires few { n ≤ 4194304 }
        ensures signals { IfOk result (λ s. s.0.marks ≡ M.marks marks.now) }
        ensures seat { IfOk result (λ s. s.1 ≡ opened s.0 (M.marks marks.now)) }
    {
        let Ok(told) = tell::<M, Brand>(alloc, marks) else {
            return Err(Memory);
        };
        let words = [u64::from(n), 0, 0];
        let Ok((table, seat)) = Table::<(), View, Told, FlagRule, Global>::of_words(
            alloc, &words, &told,
        ) else {
            return Err(Memory);
        };
        Ok((Signals { table }, SignalSeat { seat }))
    }

    /// A new seat, for another thread. It has seen what the old one has, and from then on neither is alone.
    /// Constant time.
    pub fn split_seat(&self, _alloc: Global, seat: &mut SignalSeat) -> Result<SignalSeat, Memory>
        requires { seat.old.of ≡ self.now }
        ensures of { seat.new.of ≡ self.now }
        ensures new { IfOk result (λ s. s ≡ right_of seat.old) }
        ensures old { seat.new ≡ left_of seat.old }
    {
        let new = self.table.shared.split_seat::<Cut>(&mut seat.seat);
        Ok(SignalSeat { seat: new })
    }

    /// Gives a seat up to another, which has then seen the lesser low, the greater high and the greater abort.
    /// It takes no step on a flag, and the steps of the seat that is given up are forgotten. Constant time.
    pub fn join_seat(&self, seat: &mut SignalSeat, other: SignalSeat) -> Result<(), Memory>
        requires seat { seat.old.of ≡ self.now }
        requires other { other.of ≡ self.now }
        ensures of { seat.new.of ≡ self.now }
        ensures seen { seat.new ≡ joined seat.old other }
    {
        let SignalSeat { seat: other } = other;
        self.table.shared.join_seat::<Glue>(&mut seat.seat, other);
        Ok(())
    }
}

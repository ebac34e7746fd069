//! What a job is.
ghost use Rattle.std.specs.Prelude.{◌≡◌, ℕ, ◌+◌, ◌-◌, ◌<◌, ◌≤◌, ◌^◌, List, length, map, IfOk};

use par_laws::{Memory, Probe, Shown, Test};
use par_signal::{SignalSeat, Signals};
use par_splitter::Splitter;
use std::alloc::Global;

/// What a leaf answers: its part, and the flag that it read at its start.
///
/// The flag is the low flag in a job with a low flag, and the high flag in a job with a high flag. In an abort job it is
/// n where the flag was not set, and else 0. In any other job it is n, the number of items of the source.
#[derive(Drop)]
pub struct Done<P> {
    pub part: P,
    pub flag: u32,
}

/// A job over a source that is cut into leaves, whose parts are merged in order.
///
/// A job in hand is its own plain data: `source`, `verdicts`, `good` and `merges` read it as contracts see it. It has no
/// test that it can run. A leaf tests by its probe alone, so that what a leaf tested is counted.
///
/// `Send` and `Sync` are asked by the functions that start threads. The method of an impl could not call a function over
/// a trait that carries them.
pub trait Job {
    ghost use Rattle.par_laws.specs.declared.test.Verdict.{Verdict};
    ghost use Rattle.par_task.specs.Marking.{Kind, marks_of};
    ghost use Rattle.par_task.specs.Spans.{IsSpan};
    ghost use Rattle.par_task.specs.Seats.{IsLater, IsLeafOf};

    type Split: Splitter;

    type Pred: Test<<Self::Split as Splitter>::Item>;

    type Part: Shown + Drop;

    ghost kind: { Kind };

    // The list of the source.
    ghost source: { Self → List Self.Split.Item.Value };

    // What the test answers on each item of the source.
    ghost verdicts: { Self → List Verdict };

    // The part is right for the items of lo..hi.
    ghost good: { Self → ℕ → ℕ → Self.Part.Value → Type 0 };

    // The last part is the merge of the first two.
    ghost merges: { Self → Self.Part.Value → Self.Part.Value → Self.Part.Value → Type 0 };

    /// Runs one leaf: the items of `input`, in order. Its one error is want of memory.
    fn leaf(
        &self,
        alloc: Global,
        input: Self::Split,
        probe: &mut Probe<'_, Self::Pred>,
        signals: &Signals,
        seat: &mut SignalSeat,
    ) -> Result<Done<Self::Part>, Memory>
        requires part { IsSpan (source self.now) (Self.Split.lo input) (Self.Split.items input) }
        requires test { map (Self.Pred.verdict probe.old.inner) (source self.now) ≡ verdicts self.now }
        requires marks { signals.now.marks ≡ marks_of kind (verdicts self.now) }
        requires seat { seat.old.of ≡ signals.now }
        requires room { probe.old.made + length (Self.Split.items input) < 2 ^ 64 }
        ensures test { probe.new.inner ≡ probe.old.inner }
        ensures made { probe.old.made ≤ probe.new.made }
        ensures seat { IsLater seat.old seat.new }
        ensures leaf { IfOk result (λ d. IsLeafOf kind (marks_of kind (verdicts self.now)) (Self.Split.lo input) (Self.Split.lo input + length (Self.Split.items input)) seat.old seat.new d.flag (probe.new.made - probe.old.made)) }
        ensures good { IfOk result (λ d. good self.now (Self.Split.lo input) (Self.Split.lo input + length (Self.Split.items input)) (Self.Part.shown d.part)) };

    /// Merges the parts of two adjacent spans. Its one error is want of memory.
    fn merge(&self, left: Self::Part, right: Self::Part) -> Result<Self::Part, Memory>
        requires { (lo mid hi : ℕ) × (lo ≤ mid) × (mid ≤ hi) × (hi ≤ length (source self.now)) × ∥ good self.now lo mid (Self.Part.shown left) ∥₁ × ∥ good self.now mid hi (Self.Part.shown right) ∥₁ }
        ensures { IfOk result (λ p. merges self.now (Self.Part.shown left) (Self.Part.shown right) (Self.Part.shown p)) };

    // The merge of parts that are good over lo..mid and mid..hi is good over lo..hi.
    ghost joins: { (j : Self) (lo mid hi : ℕ) (a b c : Self.Part.Value) → lo ≤ mid → mid ≤ hi → hi ≤ length (source j) → good j lo mid a → good j mid hi b → merges j a b c → good j lo hi c };

    // Two parts have at most one merge.
    ghost one_merge: { (j : Self) (a b c d : Self.Part.Value) → merges j a b c → merges j a b d → c ≡ d };
}

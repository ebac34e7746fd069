//! A few items of a leaf, which it passes between two looks at how far it came.
ghost use Rattle.std.specs.Prelude.{◌≡◌, ℕ, ◌+◌, ◌-◌, ◌≤◌, ◌<◌, ◌^◌, List, ◌++◌, length, map, IfOk};
ghost use Rattle.par_task.specs.Marking.{low_flag, marks_of};
ghost use Rattle.par_task.specs.Spans.{IsSpan};
ghost use Rattle.par_task.specs.Parts.{between};
ghost use Rattle.par_jobs.specs.Few.{IsFew};

use crate::builder::Builder;
use crate::fault::is_halt;
use par_laws::{Memory, Probe, Shown, Test, Verdict};
use par_splitter::Splitter;
use par_task::Marked;
use std::alloc::Global;

/// How many items are passed at once. It divides 512, after which a leaf reads its flag again.
pub(crate) const FEW: u32 = 8;

/// Where a few items ended.
#[derive(Drop)]
pub(crate) enum Stage<I> {
    /// After the last of them.
    All,
    /// At this item, which does not fail, as its verdict says.
    Met(I, Verdict),
    /// After the last item of the leaf, which came first.
    Out,
}

/// What was done of a few items: the index that was come to, what is built of the items before that, and where they
/// ended.
#[derive(Drop)]
pub(crate) struct Few<K, I> {
    pub at: u32,
    pub kept: K,
    pub stage: Stage<I>,
}

// Passes up to `count` items from index `from` on, which are at the front of `input`, up to the first that does not fail,
// and adds those before it to what is built. It stands inline where `count` is a number, so that the loop is unrolled and
// counts nothing.
#[inline(always)]
pub(crate) fn pass_few<S: Splitter, P: Test<S::Item>, B: Builder<S::Item>>(
    alloc: Global,
    marked: &Marked<'_, S, P>,
    builder: &B,
    count: u32,
    from: u32,
    built: B::Built,
    input: &mut S,
    probe: &mut Probe<'_, P>,
) -> Result<Few<B::Built, S::Item>, Memory>
    requires some { 0 < count }
    requires part { IsSpan (S.items marked.now.split) from (S.items input.old) }
    requires small { length (S.items marked.now.split) ≤ 4194304 }
    requires test { map (P.verdict probe.old.inner) (S.items marked.now.split) ≡ map (P.verdict marked.now.inner) (S.items marked.now.split) }
    requires room { probe.old.made + length (S.items input.old) < 2 ^ 64 }
    requires built { (xs : List S.Item.Value) × (length xs ≤ from) × B.built builder.now xs (B.Built.shown built) }
    ensures test { probe.new.inner ≡ probe.old.inner }
    ensures made { probe.old.made ≤ probe.new.made }
    ensures few { IfOk result (λ r. IsFew S.Item.shown (P.verdict marked.now.inner) (S.items marked.now.split) from (S.items input.old) r.at r.stage (S.items input.new) (probe.new.made - probe.old.made)) }
    ensures kept { IfOk result (λ r. (xs : List S.Item.Value) → B.built builder.now xs (B.Built.shown built) → B.built builder.now (xs ++ between (S.items marked.now.split) from r.at) (B.Built.shown r.kept)) }
{
    let mut at = from;
    let mut kept = built;
    for _ in 0..count {
        let Some(item) = input.next() else {
            return Ok(Few {
                at,
                kept,
                stage: Stage::Out,
            });
        };
        let verdict = probe.test(&item);
        if is_halt(verdict) {
            return Ok(Few {
                at,
                kept,
                stage: Stage::Met(item, verdict),
            });
        }
        kept = builder.add(alloc, kept, &item)?;
        at += 1;
    }
    Ok(Few {
        at,
        kept,
        stage: Stage::All,
    })
}

//! What is built of all the items that are left.
ghost use Rattle.std.specs.Prelude.{◌≡◌, ℕ, ◌+◌, ◌≤◌, List, ◌++◌, length, IfOk};
ghost use Rattle.par_jobs.specs.Passing.{left_by};

use crate::builder::Builder;
use crate::low::Ended;
use par_laws::{Memory, Shown};
use par_splitter::Splitter;
use std::alloc::Global;

// The value with all items of `input` more, in order.
pub(crate) fn add_all<S: Splitter, B: Builder<S::Item>>(
    alloc: Global,
    builder: &B,
    value: B::Built,
    mut input: S,
) -> Result<B::Built, Memory>
    requires { (xs : List S.Item.Value) × (length xs + length (S.items input) ≤ 4194304) × B.built builder.now xs (B.Built.shown value) }
    ensures { IfOk result (λ v. (xs : List S.Item.Value) → B.built builder.now xs (B.Built.shown value) → B.built builder.now (xs ++ S.items input) (B.Built.shown v)) }
{
    let mut built = value;
    while let Some(item) = input.next() {
        built = builder.add(alloc, built, &item)?;
    }
    Ok(built)
}

// What is built of the items from the place on where a low-flag leaf ended.
pub(crate) fn keep_rest<S: Splitter, B: Builder<S::Item>>(
    alloc: Global,
    builder: &B,
    ended: Ended<S::Item>,
    input: S,
) -> Result<B::Built, Memory>
    requires { length (left_by S.Item.shown ended (S.items input)) ≤ 4194304 }
    ensures { IfOk result (λ v. B.built builder.now (left_by S.Item.shown ended (S.items input)) (B.Built.shown v)) }
{
    let none = builder.start(alloc)?;
    match ended {
        Ended::Halted(item) => {
            let first = builder.add(alloc, none, &item)?;
            add_all(alloc, builder, first, input)
        }
        Ended::Whole => add_all(alloc, builder, none, input),
        Ended::Past => add_all(alloc, builder, none, input),
    }
}

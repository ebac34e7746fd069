//! Threads that help, and the caller beside them.
ghost use Rattle.std.specs.Prelude.{◌≡◌, All};

use std::alloc::Global;
use std::sync::Wait;
use std::thread;
use std::thread::{Promise, PromisedHandle, Scope, Threads};

/// What a worker does from its start to its end. A worker that fits before fits after.
pub(crate) trait Helper<W> {
    ghost fit: { Self → W → Type 0 };

    fn help<R: Wait>(&self, rt: &R, worker: W) -> W
        requires { fit self.now worker }
        ensures { fit self.now result };
}

/// The worker that comes back fits.
#[derive(Drop)]
pub(crate) struct Fits<'h, H>(&'h H);

impl<'h, W, H: Helper<W>> Promise<W> for Fits<'h, H> {
    ghost kept_by = { λ p w. H.fit p.0.now w };
}

// Each helper in a thread of the scope. Where one can't be started no further one is.
fn start_all<'s, 'h: 's, E, W: Send + Drop + 's, H: Helper<W> + Sync, R: Wait + Sync>(
    scope: &Scope<'s, E>,
    rt: &'h R,
    mut handles: Vec<PromisedHandle<W, Fits<'h, H>>>,
    helper: &'h H,
    others: Vec<W>,
) -> Vec<PromisedHandle<W, Fits<'h, H>>>
    requires fit { All (λ w. H.fit helper.now w) others.items }
    requires promised { All (λ h. h.promise.0.now ≡ helper.now) handles.items }
    ensures { All (λ h. h.promise.0.now ≡ helper.now) result.items }
{
    for worker in others {
        match scope.spawn_with(Fits(helper), move || helper.help(rt, worker)) {
            Ok(handle) => {
                let _ = handles.push(handle);
            }
            Err(_) => break,
        }
    }
    handles
}

// Waits for each helper, and puts what it gives into the list.
fn join_all<'h, W: Drop, H: Helper<W>, R: Threads>(
    rt: &R,
    _helper: &H,
    mut back: Vec<W>,
    handles: Vec<PromisedHandle<W, Fits<'h, H>>>,
) -> Vec<W>
    requires promised { All (λ h. h.promise.0.now ≡ _helper.now) handles.items }
    requires back { All (λ w. H.fit _helper.now w) back.items }
    ensures { All (λ w. H.fit _helper.now w) result.items }
{
    for handle in handles {
        let _ = back.push(handle.join(rt));
    }
    back
}

// The caller works beside the helpers, and waits for them.
fn work_beside<'s, 'h: 's, E, W: Send + Drop + 's, H: Helper<W> + Sync, R: Threads + Wait + Sync>(
    scope: &Scope<'s, E>,
    rt: &'h R,
    alloc: Global,
    helper: &'h H,
    first: W,
    others: Vec<W>,
) -> (W, Vec<W>)
    requires first { H.fit helper.now first }
    requires others { All (λ w. H.fit helper.now w) others.items }
    ensures first { H.fit helper.now result.0 }
    ensures others { All (λ w. H.fit helper.now w) result.1.items }
{
    let Ok(back) = Vec::with_capacity(alloc, others.len()) else {
        return (helper.help(rt, first), Vec::new(alloc));
    };
    let Ok(handles) = Vec::with_capacity(alloc, others.len()) else {
        return (helper.help(rt, first), back);
    };
    let handles = start_all(scope, rt, handles, helper, others);
    let first = helper.help(rt, first);
    (first, join_all(rt, helper, back, handles))
}

/// The caller works as the first worker, and each of the others in a thread of its own, where one can be made: where one
/// can't, no further one is. All threads are joined. Answers the first worker and, in order, those of the others that worked.
/// Where there is no memory for their list none of them works.
pub(crate) fn help_all<W: Send + Drop, H: Helper<W> + Sync, R: Threads + Wait + Sync>(
    rt: &R,
    alloc: Global,
    helper: &H,
    first: W,
    others: Vec<W>,
) -> (W, Vec<W>)
    requires first { H.fit helper.now first }
    requires others { All (λ w. H.fit helper.now w) others.items }
    ensures first { H.fit helper.now result.0 }
    ensures others { All (λ w. H.fit helper.now w) result.1.items }
{
    thread::scope(
        thread::scope_env(),
        rt,
        |scope| -> (W, Vec<W>)
            requires { H.fit helper.now first × All (λ w. H.fit helper.now w) others.items }
            ensures { H.fit helper.entry.now result.0 × All (λ w. H.fit helper.entry.now w) result.1.items }
        { work_beside(scope, rt, alloc, helper, first, others) },
    )
}

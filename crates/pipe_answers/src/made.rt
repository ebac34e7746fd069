//! Folds of what is made of the rows, where a row may have a fault instead.

ghost use Rattle.std.specs.Prelude.{◌≡◌, ◌≤◌, None, Some, length, map, IfOk, IfErr};
ghost use Rattle.std.specs.List.{fold};
ghost use Rattle.par_laws.specs.Guarded.{guarded_map, guarded_one, joined_guarded, made_map};
ghost use Rattle.par_laws.specs.declared.guard.Guarded.TheVariants.{Fine};
ghost use Rattle.par_task.specs.Marking.{no_test};
ghost use Rattle.par_task.specs.Manners.{alone};
ghost use Rattle.par_jobs.specs.Runs.{IsRunOver, untested};
ghost use Rattle.pipe_stages.specs.Rows.{pointed};
ghost use Rattle.pipe_answers.specs.Lasts.{StopsBy};
ghost use Rattle.pipe_answers.specs.Makes.{made_fault, made_values};

use par_edge::Gate;
use par_laws::{FaultAt, Guard, Guarded, Made, Mapper, Memory, Monoid, Shown};
use par_rows::Row;
use par_task::Audit;
use pipe_stages::{CopySplitter, StepStop};
use std::alloc::Global;

/// What a fold of these rows came to: its value, or the fault of the first row that has one.
pub(crate) fn value_of<'a, M: Monoid, F: Mapper<&'a Row, Made<M::T>>>(
    _how: &M,
    _of: &F,
    _rows: &[&'a Row],
    folded: Guarded<M::T>,
) -> Result<M::T, StepStop>
    requires small { length _rows.now ≤ 4194304 }
    requires folded { guarded_map M.T.shown folded ≡ fold (λ g x. joined_guarded (M.joined _how.now) g (guarded_one (F.mapped _of.now x))) (Fine 0 (M.unit _how.now)) (pointed _rows.now) }
    ensures fine { IfOk result (λ _. made_fault (map (F.mapped _of.now) (pointed _rows.now)) ≡ None) }
    ensures value { IfOk result (λ v. M.T.shown v ≡ fold (M.joined _how.now) (M.unit _how.now) (made_values (map (F.mapped _of.now) (pointed _rows.now)))) }
    ensures stop { IfErr result (StopsBy (made_fault (map (F.mapped _of.now) (pointed _rows.now)))) }
{
    match folded {
        Guarded::Fine { count: _, value } => Ok(value),
        Guarded::Fault { count: _, at, kind } => Err(StepStop::Fault(FaultAt {
            at: at as u32,
            kind,
        })),
    }
}

/// What is made of the rows, folded on the caller's thread; or the fault of the first row that has one. On several threads
/// each step folds by a monoid and a mapper that it names: what is sent to a thread may not yet rest on a mapper that is a
/// parameter.
pub(crate) fn fold_made_alone<'a, G: Gate, M: Monoid, F: Mapper<&'a Row, Made<M::T>>>(
    alloc: Global,
    how: &M,
    of: &F,
    rows: &[&'a Row],
    level: u32,
    gate: &G,
) -> Result<(M::T, Audit), StepStop>
    requires small { length rows.now ≤ 4194304 }
    requires level { (1 ≤ level) × (level ≤ 64) }
    ensures fine { IfOk result (λ r. made_fault (map (F.mapped of.now) (pointed rows.now)) ≡ None) }
    ensures value { IfOk result (λ r. M.T.shown r.0 ≡ fold (M.joined how.now) (M.unit how.now) (made_values (map (F.mapped of.now) (pointed rows.now)))) }
    ensures audit { IfOk result (λ r. IsRunOver no_test untested (pointed rows.now) (alone level) r.1) }
    ensures stop { IfErr result (StopsBy (made_fault (map (F.mapped of.now) (pointed rows.now)))) }
{
    let guard = Guard { how, of };
    let source = CopySplitter::new(rows);
    let (folded, audit) = par_access::aggregate_alone(alloc, source, &guard, level, gate)?;
    Ok((value_of(how, of, rows, folded)?, audit))
}

/// A mapper whose values are always there, so that a fold of none is None.
#[derive(Drop)]
pub(crate) struct Present<'f, F> {
    pub of: &'f F,
}

impl<'f, 'a, U: Shown, F: Mapper<&'a Row, Made<U>>> Mapper<&'a Row, Made<Option<U>>>
    for Present<'f, F> {
    ghost mapped = { λ p x. made_map Some (F.mapped p.of.now x) };

    fn map(&self, alloc: Global, item: &&'a Row) -> Result<Made<Option<U>>, Memory> {
        match self.of.map(alloc, item)? {
            Made::Value(value) => Ok(Made::Value(Some(value))),
            Made::Fault(kind) => Ok(Made::Fault(kind)),
        }
    }
}

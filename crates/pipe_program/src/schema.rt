//! The columns in the midst of a pipeline.

ghost use Rattle.std.specs.Prelude.{◌≡◌, ◌+◌, ◌≤◌, length, map, IfOk};
ghost use Rattle.pipe_steps.specs.Said.{middle_view};
ghost use Rattle.pipe_program.specs.Plans.{columns_at, columns_on, plan};

use crate::pipeline::Pipeline;
use par_laws::Memory;
use par_rows::{Column, Schema};
use pipe_checks::{source_columns, step_columns};
use pipe_steps::Step;
use std::alloc::Global;

// The columns after steps, where these are there before.
fn columns_behind(alloc: Global, before: Vec<Column>, steps: &[Step]) -> Result<Vec<Column>, Memory>
    ensures { IfOk result (λ v. v.items ≡ columns_on before.items (map middle_view steps.now)) }
{
    let mut columns = before;
    for step in steps {
        columns = step_columns(alloc, &columns, step)?;
    }
    Ok(columns)
}

/// The columns after the first k steps, of which the source is the first and a middle step is the last. Linear in
/// these steps for each column.
pub fn schema_after(alloc: Global, p: &Pipeline, k: u32) -> Result<Schema, Memory>
    requires some { 1 ≤ k }
    requires within { k ≤ length (plan p.now).middles + 1 }
    ensures { IfOk result (λ s. s.columns.items ≡ columns_at k (plan p.now)) }
{
    let before = source_columns(alloc, &p.source)?;
    let columns = columns_behind(alloc, before, &p.steps[..k as usize - 1])?;
    Ok(Schema { columns })
}

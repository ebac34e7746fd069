//! The columns after a line.

ghost use Rattle.std.specs.Prelude.{◌≡◌, ◌++◌, ◌∷◌, [], map, codes, IfOk};
ghost use Rattle.par_rows.specs.declared.schema.ColumnKind.TheVariants.{Int as IntKind};
ghost use Rattle.pipe_steps.specs.Said.{agg_view, how_view, middle_view, named_view, source_view, view};
ghost use Rattle.pipe_checks.specs.Columns.{are_distinct, column, column_kind, columns_after, how_kind, made, source_columns, step_columns, total_column};

use crate::kinds::{ValueKind, has, kind_of};
use par_laws::{Keep, Memory, Words};
use par_rows::{Column, ColumnKind};
use pipe_steps::{Agg, Aggregate, Line, Named, Source, Step};
use std::alloc::Global;

fn column_kind(kind: Option<ValueKind>) -> ColumnKind
    ensures { result ≡ column_kind kind }
{
    match kind {
        Some(ValueKind::Text) => ColumnKind::Text,
        _ => ColumnKind::Int,
    }
}

fn how_kind(how: &Aggregate) -> ColumnKind
    ensures { result ≡ how_kind (how_view how.now) }
{
    match how {
        Aggregate::MkString(_, _) => ColumnKind::Text,
        _ => ColumnKind::Int,
    }
}

// The columns of named values.
fn made_columns(alloc: Global, columns: &[Column], fields: &[Named]) -> Result<Vec<Column>, Memory>
    ensures { IfOk result (λ v. v.items ≡ map (made columns.now) (map named_view fields.now)) }
{
    let mut all = Vec::with_capacity(alloc, fields.len())?;
    for field in fields {
        let kind = column_kind(kind_of(columns, &field.of));
        let name = field.name.copy(alloc)?;
        all.push(Column { name, kind })?;
    }
    Ok(all)
}

// Columns, and after them those of aggregates.
fn total_columns(alloc: Global, before: Vec<Column>, aggs: &[Agg]) -> Result<Vec<Column>, Memory>
    ensures { IfOk result (λ v. v.items ≡ before.items ++ map total_column (map agg_view aggs.now)) }
{
    let mut all = before;
    for agg in aggs {
        let kind = how_kind(&agg.how);
        let name = agg.name.copy(alloc)?;
        all.push(Column { name, kind })?;
    }
    Ok(all)
}

fn copies(alloc: Global, columns: &[Column]) -> Result<Vec<Column>, Memory>
    ensures { IfOk result (λ v. v.items ≡ columns.now) }
{
    let mut all = Vec::with_capacity(alloc, columns.len())?;
    for column in columns {
        all.push(column.copy(alloc)?)?;
    }
    Ok(all)
}

// Columns, and after them one of numbers.
fn and_number(alloc: Global, before: Vec<Column>, name: &Words) -> Result<Vec<Column>, Memory>
    ensures { IfOk result (λ v. v.items ≡ before.items ++ column name.now IntKind ∷ []) }
{
    let mut all = before;
    let name = name.copy(alloc)?;
    let kind = ColumnKind::Int;
    all.push(Column { name, kind })?;
    Ok(all)
}

// The name of the one column of a range.
fn range_name(alloc: Global) -> Result<Words, Memory>
    ensures { IfOk result (λ w. w ≡ codes "x") }
{
    Words::from_text(alloc, "x")
}

/// The columns of a source. Takes memory for them.
pub fn source_columns(alloc: Global, source: &Source) -> Result<Vec<Column>, Memory>
    ensures { IfOk result (λ v. v.items ≡ source_columns (source_view source.now)) }
{
    match source {
        Source::Csv(schema) => copies(alloc, &schema.columns),
        Source::Range { a: _, b: _, c: _ } => {
            and_number(alloc, Vec::new(alloc), &range_name(alloc)?)
        }
    }
}

/// The columns after a step. Takes memory for them.
pub fn step_columns(alloc: Global, columns: &[Column], step: &Step) -> Result<Vec<Column>, Memory>
    ensures { IfOk result (λ v. v.items ≡ step_columns columns.now (middle_view step.now)) }
{
    match step {
        Step::Map(fields) => made_columns(alloc, columns, fields),
        Step::Collect(fields, _) => made_columns(alloc, columns, fields),
        Step::ZipWithIndex(name) => and_number(alloc, copies(alloc, columns)?, name),
        Step::ZipRange {
            a: _,
            b: _,
            c: _,
            name,
        } => and_number(alloc, copies(alloc, columns)?, name),
        Step::Scan {
            how: _,
            of: _,
            name,
        } => and_number(alloc, Vec::new(alloc), name),
        Step::GroupBy { keys, aggs } => {
            total_columns(alloc, made_columns(alloc, columns, keys)?, aggs)
        }
        _ => copies(alloc, columns),
    }
}

/// The columns after a line. Takes memory for them.
pub fn columns_after(alloc: Global, columns: &[Column], line: &Line) -> Result<Vec<Column>, Memory>
    ensures { IfOk result (λ v. v.items ≡ columns_after columns.now (view line.now)) }
{
    match line {
        Line::Source(source) => source_columns(alloc, source),
        Line::Step(step) => step_columns(alloc, columns, step),
        _ => copies(alloc, columns),
    }
}

// No two columns have one name.
pub(crate) fn are_distinct(columns: &[Column]) -> bool
    ensures { result ≡ are_distinct columns.now }
{
    match columns {
        [] => true,
        [first, rest @ ..] => !has(rest, &first.name) && are_distinct(rest),
    }
}

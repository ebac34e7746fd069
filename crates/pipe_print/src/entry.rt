//! Lists of entries, with commas between.

ghost use Rattle.std.specs.Prelude.{◌≡◌, ◌++◌, ◌∷◌, List, OnOk};
ghost use Rattle.std.specs.List.{flat_map};
ghost use Rattle.pipe_text.specs.declared.lexeme.Symbol.TheVariants.{Comma};
ghost use Rattle.pipe_steps.specs.Said.{agg_view, named_view};
ghost use Rattle.pipe_print.specs.Items.{Item, Mark, column_items, commas, field_items, how_items, key_items, spaced, total_items};
ghost use Rattle.pipe_steps.specs.Said.{how_view};

use crate::item::{fixed, mark, name, quote, value};
use par_laws::Memory;
use par_rows::{Column, ColumnKind};
use pipe_steps::{Agg, Aggregate, Named};
use pipe_text::Symbol;

/// How an entry of a list is written.
pub(crate) trait Entry {
    type Of;

    ghost items: { Self.Of → List Item };

    fn write(out: &mut Vec<u8>, version: u8, one: &Self::Of) -> Result<(), Memory>
        ensures { OnOk result (out.new.items ≡ out.old.items ++ spaced version (items one.now)) };
}

// A comma and an entry.
fn and_one<E: Entry>(out: &mut Vec<u8>, version: u8, one: &E::Of) -> Result<(), Memory>
    ensures { OnOk result (out.new.items ≡ out.old.items ++ spaced version (Mark Comma ∷ E.items one.now)) }
{
    mark(out, version, Symbol::Comma)?;
    E::write(out, version, one)?;
    Ok(())
}

// The entries, each behind a comma.
fn and_more<E: Entry>(out: &mut Vec<u8>, version: u8, rest: &[E::Of]) -> Result<(), Memory>
    ensures { OnOk result (out.new.items ≡ out.old.items ++ spaced version (flat_map (λ x. Mark Comma ∷ E.items x) rest.now)) }
{
    for one in rest {
        and_one::<E>(out, version, one)?;
    }
    Ok(())
}

// The entries, with commas between.
pub(crate) fn entries<E: Entry>(out: &mut Vec<u8>, version: u8, all: &[E::Of]) -> Result<(), Memory>
    ensures { OnOk result (out.new.items ≡ out.old.items ++ spaced version (commas E.items all.now)) }
{
    let [first, rest @ ..] = all else {
        return Ok(());
    };
    E::write(out, version, first)?;
    and_more::<E>(out, version, rest)?;
    Ok(())
}

/// `name : int`
pub(crate) struct Columns;

impl Entry for Columns {
    type Of = Column;

    ghost items = { column_items };

    fn write(out: &mut Vec<u8>, version: u8, one: &Column) -> Result<(), Memory> {
        name(out, version, &one.name)?;
        mark(out, version, Symbol::Colon)?;
        match one.kind {
            ColumnKind::Int => fixed(out, version, "int"),
            ColumnKind::Text => fixed(out, version, "text"),
        }
    }
}

/// `name = E`
pub(crate) struct Fields;

impl Entry for Fields {
    type Of = Named;

    ghost items = { λ f. field_items (named_view f) };

    fn write(out: &mut Vec<u8>, version: u8, one: &Named) -> Result<(), Memory> {
        name(out, version, &one.name)?;
        mark(out, version, Symbol::Equal)?;
        value(out, version, &one.of)
    }
}

/// `E as name`
pub(crate) struct Keys;

impl Entry for Keys {
    type Of = Named;

    ghost items = { λ f. key_items (named_view f) };

    fn write(out: &mut Vec<u8>, version: u8, one: &Named) -> Result<(), Memory> {
        value(out, version, &one.of)?;
        fixed(out, version, "as")?;
        name(out, version, &one.name)
    }
}

// An aggregate without its name.
fn aggregate(out: &mut Vec<u8>, version: u8, how: &Aggregate) -> Result<(), Memory>
    ensures { OnOk result (out.new.items ≡ out.old.items ++ spaced version (how_items (how_view how.now))) }
{
    match how {
        Aggregate::Count => fixed(out, version, "count"),
        Aggregate::Sum(of) => {
            fixed(out, version, "sum")?;
            value(out, version, of)
        }
        Aggregate::Product(of) => {
            fixed(out, version, "product")?;
            value(out, version, of)
        }
        Aggregate::Min(of) => {
            fixed(out, version, "min")?;
            value(out, version, of)
        }
        Aggregate::Max(of) => {
            fixed(out, version, "max")?;
            value(out, version, of)
        }
        Aggregate::MkString(of, sep) => {
            fixed(out, version, "mkString")?;
            value(out, version, of)?;
            quote(out, version, sep)
        }
    }
}

/// `count as name`, `sum E as name` and their kin
pub(crate) struct Totals;

impl Entry for Totals {
    type Of = Agg;

    ghost items = { λ t. total_items (agg_view t) };

    fn write(out: &mut Vec<u8>, version: u8, one: &Agg) -> Result<(), Memory> {
        aggregate(out, version, &one.how)?;
        fixed(out, version, "as")?;
        name(out, version, &one.name)
    }
}

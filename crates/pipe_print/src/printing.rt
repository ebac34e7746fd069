//! From a pipeline to its canonical text.

ghost use Rattle.std.specs.Prelude.{◌≡◌, ◌++◌, ◌∷◌, [], IfOk, OnOk, codes, map};
ghost use Rattle.std.specs.List.{flat_map as flat_map_of};
ghost use Rattle.pipe_expr.specs.Grammar.{view as expr_view};
ghost use Rattle.pipe_steps.specs.Said.{Begins, Collect, Ends, FlatMap, Goes, GroupBy, MkString, Par, Scan, SegmentLength, Slice, ToMap, ZipRange, agg_view, last_view, middle_view, named_view, source_view};
ghost use Rattle.pipe_program.specs.Plans.{plan};
ghost use Rattle.pipe_program.specs.Reading.{IsReadable, Reads};
ghost use Rattle.pipe_print.specs.Items.{spaced};
ghost use Rattle.pipe_print.specs.Lines.{Fixed, Int, Name, Value, ended, heading, part_items, parts_items, piece as seen, running_text, written_text};

use crate::entry::{Columns, Fields, Keys, Totals, entries};
use crate::item::{fixed, int, mark, name, quote, value};
use crate::piece::Piece;
use par_laws::{Memory, Words};
use pipe_expr::Expr;
use pipe_program::{Pipeline, spelling_laws};
use pipe_steps::{Agg, Kind, Last, Named, Running, Source, Step};
use pipe_text::{Symbol, line_laws};
use std::alloc::Global;

fn piece(out: &mut Vec<u8>, version: u8, piece: &Piece<'_>) -> Result<(), Memory>
    ensures { OnOk result (out.new.items ≡ out.old.items ++ spaced version (part_items (seen piece.now))) }
{
    match piece {
        Piece::Fixed(word) => fixed(out, version, word),
        Piece::Mark(symbol) => mark(out, version, *symbol),
        Piece::Name(words) => name(out, version, words),
        Piece::Int(n) => int(out, version, *n),
        Piece::Quote(text) => quote(out, version, text),
        Piece::Value(e) => value(out, version, e),
        Piece::Columns(columns) => entries::<Columns>(out, version, columns),
        Piece::Fields(fields) => entries::<Fields>(out, version, fields),
        Piece::Keys(keys) => entries::<Keys>(out, version, keys),
        Piece::Totals(totals) => entries::<Totals>(out, version, totals),
    }
}

// A line: its first word, and pieces behind it.
fn line(out: &mut Vec<u8>, version: u8, first: &str, pieces: &[Piece<'_>]) -> Result<(), Memory>
    ensures { OnOk result (out.new.items ≡ out.old.items ++ ((first.now ++ spaced version (parts_items (map seen pieces.now))) ++ 10 ∷ [])) }
{
    out.extend_from_slice(first.as_bytes())?;
    for one in pieces {
        piece(out, version, one)?;
    }
    out.push(b'\n')?;
    Ok(())
}

fn source(out: &mut Vec<u8>, version: u8, source: &Source) -> Result<(), Memory>
    ensures { OnOk result (out.new.items ≡ out.old.items ++ ended version (Begins (source_view source.now))) }
{
    match source {
        Source::Csv(schema) => line(
            out,
            version,
            "from",
            &[Piece::Fixed("csv"), Piece::Columns(&schema.columns)],
        ),
        Source::Range { a, b, c } => line(
            out,
            version,
            "from",
            &[
                Piece::Fixed("range"),
                Piece::Int(*a),
                Piece::Fixed("until"),
                Piece::Int(*b),
                Piece::Fixed("by"),
                Piece::Int(*c),
            ],
        ),
    }
}

fn par(out: &mut Vec<u8>, version: u8, kind: Kind) -> Result<(), Memory>
    ensures { OnOk result (out.new.items ≡ out.old.items ++ ended version (Par kind)) }
{
    match kind {
        Kind::Array => line(out, version, "par", &[Piece::Fixed("array")]),
        Kind::Vector => line(out, version, "par", &[Piece::Fixed("vector")]),
    }
}

fn running(how: Running) -> &'static str
    ensures { result.now ≡ running_text how }
{
    match how {
        Running::Sum => "sum",
        Running::Product => "product",
    }
}

// `zip range a until b by c as name`
fn zip(out: &mut Vec<u8>, version: u8, range: (i64, i64, i64), name: &Words) -> Result<(), Memory>
    ensures { OnOk result (out.new.items ≡ out.old.items ++ ended version (Goes (ZipRange range.0 range.1 range.2 name.now))) }
{
    let (a, b, c) = range;
    line(
        out,
        version,
        "zip",
        &[
            Piece::Fixed("range"),
            Piece::Int(a),
            Piece::Fixed("until"),
            Piece::Int(b),
            Piece::Fixed("by"),
            Piece::Int(c),
            Piece::Fixed("as"),
            Piece::Name(name),
        ],
    )
}

// `as name` behind a word
fn named(out: &mut Vec<u8>, version: u8, first: &str, name: &Words) -> Result<(), Memory>
    ensures { OnOk result (out.new.items ≡ out.old.items ++ ((first.now ++ spaced version (parts_items (Fixed (codes "as") ∷ Name name.now ∷ []))) ++ 10 ∷ [])) }
{
    line(
        out,
        version,
        first,
        &[Piece::Fixed("as"), Piece::Name(name)],
    )
}

// A word and an expression.
fn valued(out: &mut Vec<u8>, version: u8, first: &str, e: &Expr) -> Result<(), Memory>
    ensures { OnOk result (out.new.items ≡ out.old.items ++ ((first.now ++ spaced version (parts_items (Value (expr_view e.now) ∷ []))) ++ 10 ∷ [])) }
{
    line(out, version, first, &[Piece::Value(e)])
}

// A word and a number.
fn counted(out: &mut Vec<u8>, version: u8, first: &str, n: i64) -> Result<(), Memory>
    ensures { OnOk result (out.new.items ≡ out.old.items ++ ((first.now ++ spaced version (parts_items (Int n ∷ []))) ++ 10 ∷ [])) }
{
    line(out, version, first, &[Piece::Int(n)])
}

fn slice(out: &mut Vec<u8>, version: u8, a: i64, b: i64) -> Result<(), Memory>
    ensures { OnOk result (out.new.items ≡ out.old.items ++ ended version (Goes (Slice a b))) }
{
    line(
        out,
        version,
        "slice",
        &[Piece::Int(a), Piece::Fixed("until"), Piece::Int(b)],
    )
}

fn flat_map<'a>(
    out: &mut Vec<u8>,
    version: u8,
    column: &'a Words,
    sep: &'a Words,
) -> Result<(), Memory>
    ensures { OnOk result (out.new.items ≡ out.old.items ++ ended version (Goes (FlatMap column.now sep.now))) }
{
    line(
        out,
        version,
        "flatMap",
        &[
            Piece::Fixed("split"),
            Piece::Name(column),
            Piece::Quote(sep),
        ],
    )
}

fn collect<'a>(
    out: &mut Vec<u8>,
    version: u8,
    fields: &'a [Named],
    test: &'a Expr,
) -> Result<(), Memory>
    ensures { OnOk result (out.new.items ≡ out.old.items ++ ended version (Goes (Collect (map named_view fields.now) (expr_view test.now)))) }
{
    line(
        out,
        version,
        "collect",
        &[
            Piece::Fields(fields),
            Piece::Fixed("when"),
            Piece::Value(test),
        ],
    )
}

fn scan<'a>(
    out: &mut Vec<u8>,
    version: u8,
    how: Running,
    of: &'a Expr,
    name: &'a Words,
) -> Result<(), Memory>
    ensures { OnOk result (out.new.items ≡ out.old.items ++ ended version (Goes (Scan how (expr_view of.now) name.now))) }
{
    line(
        out,
        version,
        "scan",
        &[
            Piece::Fixed(running(how)),
            Piece::Value(of),
            Piece::Fixed("as"),
            Piece::Name(name),
        ],
    )
}

fn group_by<'a>(
    out: &mut Vec<u8>,
    version: u8,
    keys: &'a [Named],
    aggs: &'a [Agg],
) -> Result<(), Memory>
    ensures { OnOk result (out.new.items ≡ out.old.items ++ ended version (Goes (GroupBy (map named_view keys.now) (map agg_view aggs.now)))) }
{
    line(
        out,
        version,
        "groupBy",
        &[
            Piece::Keys(keys),
            Piece::Mark(Symbol::Colon),
            Piece::Totals(aggs),
        ],
    )
}

fn step(out: &mut Vec<u8>, version: u8, step: &Step) -> Result<(), Memory>
    ensures { OnOk result (out.new.items ≡ out.old.items ++ ended version (Goes (middle_view step.now))) }
{
    match step {
        Step::Filter(test) => valued(out, version, "filter", test),
        Step::FilterNot(test) => valued(out, version, "filterNot", test),
        Step::Map(fields) => line(out, version, "map", &[Piece::Fields(fields)]),
        Step::Collect(fields, test) => collect(out, version, fields, test),
        Step::FlatMap { column, sep } => flat_map(out, version, column, sep),
        Step::Take(n) => counted(out, version, "take", *n),
        Step::Drop(n) => counted(out, version, "drop", *n),
        Step::Slice(a, b) => slice(out, version, *a, *b),
        Step::TakeWhile(test) => valued(out, version, "takeWhile", test),
        Step::DropWhile(test) => valued(out, version, "dropWhile", test),
        Step::ZipWithIndex(name) => named(out, version, "zipWithIndex", name),
        Step::ZipRange { a, b, c, name } => zip(out, version, (*a, *b, *c), name),
        Step::Reverse => line(out, version, "reverse", &[]),
        Step::Scan { how, of, name } => scan(out, version, *how, of, name),
        Step::GroupBy { keys, aggs } => group_by(out, version, keys, aggs),
        Step::Distinct => line(out, version, "distinct", &[]),
    }
}

fn mk_string<'a>(out: &mut Vec<u8>, version: u8, of: &'a Expr, sep: &'a Words) -> Result<(), Memory>
    ensures { OnOk result (out.new.items ≡ out.old.items ++ ended version (Ends (MkString (expr_view of.now) sep.now))) }
{
    line(
        out,
        version,
        "mkString",
        &[Piece::Value(of), Piece::Quote(sep)],
    )
}

fn segment_length<'a>(
    out: &mut Vec<u8>,
    version: u8,
    test: &'a Expr,
    from: i64,
) -> Result<(), Memory>
    ensures { OnOk result (out.new.items ≡ out.old.items ++ ended version (Ends (SegmentLength (expr_view test.now) from))) }
{
    line(
        out,
        version,
        "segmentLength",
        &[Piece::Value(test), Piece::Fixed("from"), Piece::Int(from)],
    )
}

fn to_map<'a>(out: &mut Vec<u8>, version: u8, key: &'a Expr, of: &'a Expr) -> Result<(), Memory>
    ensures { OnOk result (out.new.items ≡ out.old.items ++ ended version (Ends (ToMap (expr_view key.now) (expr_view of.now)))) }
{
    line(
        out,
        version,
        "toMap",
        &[
            Piece::Value(key),
            Piece::Mark(Symbol::Arrow),
            Piece::Value(of),
        ],
    )
}

fn last(out: &mut Vec<u8>, version: u8, last: &Last) -> Result<(), Memory>
    ensures { OnOk result (out.new.items ≡ out.old.items ++ ended version (Ends (last_view last.now))) }
{
    match last {
        Last::Print => line(out, version, "print", &[]),
        Last::Size => line(out, version, "size", &[]),
        Last::Count(test) => valued(out, version, "count", test),
        Last::Sum(of) => valued(out, version, "sum", of),
        Last::Product(of) => valued(out, version, "product", of),
        Last::Min(of) => valued(out, version, "min", of),
        Last::Max(of) => valued(out, version, "max", of),
        Last::MkString(of, sep) => mk_string(out, version, of, sep),
        Last::Find(test) => valued(out, version, "find", test),
        Last::Exists(test) => valued(out, version, "exists", test),
        Last::Forall(test) => valued(out, version, "forall", test),
        Last::IndexWhere(test) => valued(out, version, "indexWhere", test),
        Last::LastIndexWhere(test) => valued(out, version, "lastIndexWhere", test),
        Last::SegmentLength(test, from) => segment_length(out, version, test, *from),
        Last::Span(test) => valued(out, version, "span", test),
        Last::Partition(test) => valued(out, version, "partition", test),
        Last::SplitAt(n) => counted(out, version, "splitAt", *n),
        Last::ToSet(of) => valued(out, version, "toSet", of),
        Last::ToMap(key, of) => to_map(out, version, key, of),
    }
}

// The line of version 2; version 1 has none.
fn heading(out: &mut Vec<u8>, version: u8) -> Result<(), Memory>
    ensures { OnOk result (out.new.items ≡ out.old.items ++ flat_map_of (ended version) (heading version)) }
{
    if version == 2 {
        line(out, version, "pipeline", &[Piece::Int(2)])?;
    }
    Ok(())
}

fn steps(out: &mut Vec<u8>, version: u8, all: &[Step]) -> Result<(), Memory>
    ensures { OnOk result (out.new.items ≡ out.old.items ++ flat_map_of (ended version) (map Goes (map middle_view all.now))) }
{
    for one in all {
        step(out, version, one)?;
    }
    Ok(())
}

// The canonical text of a pipeline.
fn text(alloc: Global, p: &Pipeline) -> Result<Vec<u8>, Memory>
    ensures { IfOk result (λ v. v.items ≡ written_text (plan p.now)) }
{
    let mut out = Vec::new(alloc);
    heading(&mut out, p.version)?;
    source(&mut out, p.version, &p.source)?;
    par(&mut out, p.version, p.kind)?;
    steps(&mut out, p.version, &p.steps)?;
    last(&mut out, p.version, &p.last)?;
    Ok(out)
}

/// The canonical text of a pipeline that some text reads as, which is what `parse` answers: a line for each step, the
/// `par` line always, one space between items, names plain where they may be, `by` always. It reads as the same
/// pipeline. Linear in the text.
pub fn print(alloc: Global, p: &Pipeline) -> Result<Vec<u8>, Memory>
    requires { IsReadable (plan p.now) }
    ensures written { IfOk result (λ v. v.items ≡ written_text (plan p.now)) }
    ensures reads { IfOk result (λ v. Reads v.items (plan p.now)) }
{
    line_laws();
    spelling_laws();
    text(alloc, p)
}

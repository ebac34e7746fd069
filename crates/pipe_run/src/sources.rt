//! The rows of a source.
ghost use Rattle.std.specs.Prelude.{◌≡◌, ◌≢◌, ◌≤◌, length, pos, map, None, IfOk};
ghost use Rattle.pipe_steps.specs.Said.{source_view};
ghost use Rattle.pipe_data.specs.Data.{data_of};
ghost use Rattle.pipe_run.specs.Sources.{IsDataRows, IsNamed, IsRangeRows, IsRows, Moves, data_result, flaw_number, named, number_row as row_of};
ghost use Rattle.pipe_run.specs.Rulings.{Answers, Decides, ok_map};

use crate::files::read_file;
use crate::{Counted, Outcome};
use par_edge::Shelf;
use par_laws::{Keep, Mapper, Memory, Shown};
use par_rows::{Row, Schema, Value, Values};
use par_splitter::{RangeSplitter, Splitter, range_count};
use pipe_data::{DataStop, Flaw, read_table};
use pipe_steps::Source;
use std::alloc::Global;

/// The most rows of a source.
const MAX_ITEMS: u64 = 4_194_304;

/// The most bytes of data.
const DATA_BYTES: u64 = 67_108_864;

// The row of one number.
fn number_row(alloc: Global, number: i64) -> Result<Row, Memory>
    ensures { IfOk result (λ row. row ≡ row_of number) }
{
    let mut values = Values::with_room(alloc, 1)?;
    values.push(Value::Int(number))?;
    Ok(Row { values })
}

/// Makes a row of one number.
struct OneNumber;

impl Mapper<i64, Row> for OneNumber {
    ghost use Rattle.pipe_run.specs.Sources.{number_row};

    ghost mapped = { λ _ number. number_row number };

    fn map(&self, alloc: Global, item: &i64) -> Result<Row, Memory> {
        number_row(alloc, *item)
    }
}

// What a mapper makes of each item, in order.
fn rows_of<S: Splitter, F: Mapper<S::Item, Row>>(
    alloc: Global,
    mut source: S,
    of: &F,
) -> Result<Vec<Row>, Memory>
    ensures { IfOk result (λ v. v.items ≡ map (F.mapped of.now) (S.items source)) }
{
    let mut rows = Vec::with_capacity(alloc, source.remaining() as usize)?;
    while let Some(item) = source.next() {
        rows.push(of.map(alloc, &item)?)?;
    }
    Ok(rows)
}

// The rows of a range of at most `MAX_ITEMS` numbers.
fn range_rows(alloc: Global, a: i64, b: i64, c: i64) -> Result<Vec<Row>, Outcome>
    requires { c ≢ pos 0 }
    ensures answer { Decides (IsRangeRows a b c) (ok_map (λ v. v.items) result) }
    ensures small { IfOk result (λ v. length v.items ≤ 4194304) }
{
    let count = range_count(a, b, c);
    if count > MAX_ITEMS {
        return Err(Outcome::Limit {
            what: Counted::RangeItems,
            count,
            most: MAX_ITEMS,
        });
    }
    Ok(rows_of(alloc, RangeSplitter::new(a, b, c), &OneNumber)?)
}

// The number of a flaw.
fn number_of(flaw: Flaw) -> u8
    ensures { result ≡ flaw_number flaw }
{
    match flaw {
        Flaw::Header => 1,
        Flaw::Fields => 2,
        Flaw::Utf8 => 3,
        Flaw::Number => 4,
    }
}

// The rows that the bytes of data are.
fn table_rows(alloc: Global, text: &[u8], schema: &Schema) -> Result<Vec<Row>, Outcome>
    ensures answer { Decides (λ r. r ≡ data_result (data_of schema.now.columns.items text.now)) (ok_map (λ v. v.items) result) }
    ensures small { IfOk result (λ v. length v.items ≤ 4194304) }
{
    let columns = schema.copy(alloc)?;
    match read_table(alloc, text, columns) {
        Ok(table) => Ok(table.rows),
        Err(DataStop::Flawed { record, flaw }) => Err(Outcome::BadData {
            at: record,
            kind: number_of(flaw),
        }),
        Err(DataStop::TooMany) => Err(Outcome::Limit {
            what: Counted::Records,
            count: MAX_ITEMS + 1,
            most: MAX_ITEMS,
        }),
        Err(DataStop::Memory) => Err(Outcome::Memory),
    }
}

// The rows of the named input.
fn data_rows<H: Shelf>(
    alloc: Global,
    shelf: &mut H,
    name: &str,
    schema: &Schema,
) -> Result<Vec<Row>, Outcome>
    ensures answer { Answers (IsDataRows schema.now.columns.items name.now) (H.state shelf.old) (H.state shelf.new) (ok_map (λ v. v.items) result) }
    ensures small { IfOk result (λ v. length v.items ≤ 4194304) }
{
    let bytes = read_file(alloc, shelf, name, Counted::DataBytes, DATA_BYTES)?;
    table_rows(alloc, &bytes, schema)
}

/// The rows of the source: the numbers of a range, or the records of the named input, of which there are at most
/// `MAX_ITEMS`, in at most `DATA_BYTES` bytes. The data is held beside its rows while it is read.
pub fn read_source<H: Shelf>(
    alloc: Global,
    shelf: &mut H,
    source: &Source,
    input: Option<&str>,
) -> Result<Vec<Row>, Outcome>
    requires moves { Moves (source_view source.now) }
    requires given { IsNamed (source_view source.now) (named input) }
    ensures answer { Answers (IsRows (source_view source.now) (named input.entry)) (H.state shelf.old) (H.state shelf.new) (ok_map (λ v. v.items) result) }
    ensures small { IfOk result (λ v. length v.items ≤ 4194304) }
{
    match (source, input) {
        (Source::Range { a, b, c }, _) => range_rows(alloc, *a, *b, *c),
        (Source::Csv(schema), Some(name)) => data_rows(alloc, shelf, name, schema),
        (Source::Csv(_), None) => unreachable!(),
    }
}

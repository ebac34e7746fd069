//! Rows as records of CSV.

ghost use Rattle.std.specs.Prelude.{◌≡◌, ◌++◌, [], map, codes, encode_utf8_all, IfOk, OnOk};
ghost use Rattle.csv.specs.Records.{fields_of, partial_of};
ghost use Rattle.pipe_stages.specs.Rows.{pointed};
ghost use Rattle.pipe_answers.specs.Texts as texts;
ghost use Rattle.pipe_answers.specs.Writers.{IsBetween, all_written};

use crate::texts::{add_count, word};
use csv::{ByteRecord, Writer, WriterBuilder};
use itoa::Buffer;
use par_laws::Memory;
use par_rows::{Column, Row, Value};
use std::alloc::Global;

// The texts of a row's values as the fields.
fn fill(fields: &mut ByteRecord, row: &Row) -> Result<(), Memory>
    ensures { OnOk result (fields_of fields.new ≡ map texts.value_text row.now.values) }
{
    fields.clear();
    let mut digits = Buffer::new();
    for value in row.values.as_slice() {
        match value {
            Value::Int(number) => fields.push_field(digits.format(*number).as_bytes())?,
            Value::Text(text) => fields.push_field(text.as_str().as_bytes())?,
        }
    }
    Ok(())
}

// The names of the columns as the fields.
fn fill_names(fields: &mut ByteRecord, columns: &[Column]) -> Result<(), Memory>
    ensures { OnOk result (fields_of fields.new ≡ map (λ c. encode_utf8_all c.name) columns.now) }
{
    fields.clear();
    for column in columns {
        fields.push_field(column.name.as_str().as_bytes())?;
    }
    Ok(())
}

// One record.
#[tactic(auto, using(crate::proofs::Settings::record_same))]
fn write(writer: &mut Writer<Vec<u8>>, fields: &ByteRecord) -> Result<(), Memory>
    requires { IsBetween writer.old }
    ensures between { OnOk result (IsBetween writer.new) }
    ensures text { OnOk result (all_written (λ w. w.items) writer.new ≡ all_written (λ w. w.items) writer.old ++ texts.record_text (fields_of fields.now)) }
{
    match writer.write_byte_record(fields) {
        Ok(()) => Ok(()),
        Err(_) => Err(Memory),
    }
}

// A writer that goes on at the end of a text.
fn writer_of(text: Vec<u8>) -> Writer<Vec<u8>>
    ensures between { IsBetween result }
    ensures text { all_written (λ w. w.items) result ≡ text.items }
{
    WriterBuilder::new().flexible(true).from_writer(text)
}

// The text, with all that was written.
fn written(writer: Writer<Vec<u8>>) -> Result<Vec<u8>, Memory>
    ensures { IfOk result (λ text. text.items ≡ all_written (λ w. w.items) writer) }
{
    match writer.into_inner() {
        Ok(text) => Ok(text),
        Err(_) => Err(Memory),
    }
}

/// The text, and then the rows.
pub(crate) fn with_rows(alloc: Global, text: Vec<u8>, rows: &[&Row]) -> Result<Vec<u8>, Memory>
    ensures { IfOk result (λ more. more.items ≡ text.items ++ texts.rows_text (pointed rows.now)) }
{
    let mut writer = writer_of(text);
    let mut fields = ByteRecord::new(alloc);
    for row in rows {
        fill(&mut fields, row)?;
        write(&mut writer, &fields)?;
    }
    written(writer)
}

/// The text, and then the names of the columns.
pub(crate) fn with_header(
    alloc: Global,
    text: Vec<u8>,
    columns: &[Column],
) -> Result<Vec<u8>, Memory>
    ensures { IfOk result (λ more. more.items ≡ text.items ++ texts.header_text columns.now) }
{
    let mut writer = writer_of(text);
    let mut fields = ByteRecord::new(alloc);
    fill_names(&mut fields, columns)?;
    write(&mut writer, &fields)?;
    written(writer)
}

/// The text, and then the names of the columns and the rows.
pub(crate) fn with_table(
    alloc: Global,
    text: Vec<u8>,
    columns: &[Column],
    rows: &[&Row],
) -> Result<Vec<u8>, Memory>
    ensures { IfOk result (λ more. more.items ≡ text.items ++ texts.table_text columns.now (pointed rows.now)) }
{
    let text = with_header(alloc, text, columns)?;
    with_rows(alloc, text, rows)
}

/// The row under the names of the columns, or `none`.
pub(crate) fn found(alloc: Global, columns: &[Column], row: Option<&Row>) -> Result<Vec<u8>, Memory>
    ensures { IfOk result (λ text. text.items ≡ texts.found_text columns.now (texts.pointed_row row.entry)) }
{
    match row {
        Some(row) => with_table(alloc, Vec::new(alloc), columns, &[row]),
        None => word(alloc, "none"),
    }
}

// The text, a word, how many rows there are, and on the next lines the rows.
fn with_part(alloc: Global, mut text: Vec<u8>, word: &str, rows: &[&Row]) -> Result<Vec<u8>, Memory>
    ensures { IfOk result (λ more. more.items ≡ text.items ++ texts.part_text word.now (pointed rows.now)) }
{
    text.extend_from_slice(word.as_bytes())?;
    add_count(&mut text, rows.len() as u64)?;
    with_rows(alloc, text, rows)
}

/// Two lists of rows, each behind its word and its length.
pub(crate) fn parts(alloc: Global, first: &[&Row], second: &[&Row]) -> Result<Vec<u8>, Memory>
    ensures { IfOk result (λ text. text.items ≡ texts.parts_text (pointed first.now) (pointed second.now)) }
{
    let text = with_part(alloc, Vec::new(alloc), "first ", first)?;
    with_part(alloc, text, "second ", second)
}

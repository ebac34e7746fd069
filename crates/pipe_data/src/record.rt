//! The row that a record is.
ghost use Rattle.std.specs.Prelude.{◌≡◌, ◌≤◌, IfOk, IfErr, Ok, Err, length, option_map, true, if◌then◌else◌};
ghost use Rattle.std.specs.List.{list_all};
ghost use Rattle.std.specs.Str.{is_utf8};
ghost use Rattle.csv.specs.Records.{fields_of};
ghost use Rattle.pipe_data.specs.Data.{are_names, row_of, utf8_chars, value_of, values_of};
ghost use Rattle.pipe_data.specs.Stops.{StopsRecord};
ghost use Rattle.pipe_data.specs.declared.stop.Flaw.TheVariants as flaws;

use crate::stop::{DataStop, Flaw};
use csv::ByteRecord;
use par_laws::{Memory, Words};
use par_rows::{Column, ColumnKind, Row, Value, Values};
use pipe_number::int_of;
use std::alloc::Global;

/// Why a record has no row.
#[derive(Clone, Copy, Debug)]
pub(crate) enum RecordStop {
    Flaw(Flaw),
    Memory,
}

impl From<Memory> for RecordStop {
    ghost use Rattle.std.specs.Prelude.{◌≡◌};
    ghost use Rattle.pipe_data.specs.declared.record.RecordStop.TheVariants as stops;

    ghost from_gives = { λ _ stop. stop ≡ stops.Memory };

    fn from(_refused: Memory) -> RecordStop {
        RecordStop::Memory
    }
}

/// Whether the fields are the names of the columns, in order.
pub(crate) fn is_header(columns: &[Column], fields: &ByteRecord) -> bool
    ensures { result ≡ are_names columns.now (fields_of fields.now) }
{
    let mut at = 0usize;
    let mut rest = columns;
    while let Some((column, behind)) = rest.split_first() {
        let Some(field) = fields.get(at) else {
            return false;
        };
        if field != column.name.as_str().as_bytes() {
            return false;
        }
        at += 1;
        rest = behind;
    }
    at == fields.len()
}

// Whether a field is UTF-8.
fn is_valid(field: &[u8]) -> bool
    ensures { result ≡ is_utf8 field.now }
{
    match str::from_utf8(field) {
        Ok(_) => true,
        Err(_) => false,
    }
}

// Whether each field is UTF-8.
fn is_text(fields: &ByteRecord) -> bool
    ensures { result ≡ list_all is_utf8 (fields_of fields.now) }
{
    let mut at = 0usize;
    while let Some(field) = fields.get(at) {
        if !is_valid(field) {
            return false;
        }
        at += 1;
    }
    true
}

// The text that bytes are.
fn text_of(alloc: Global, field: &[u8]) -> Result<Option<Words>, Memory>
    ensures { IfOk result (λ o. o ≡ utf8_chars field.now) }
{
    match str::from_utf8(field) {
        Ok(text) => Ok(Some(Words::from_text(alloc, text)?)),
        Err(_) => Ok(None),
    }
}

// The value of a field in a column of this kind.
fn read_value(alloc: Global, kind: ColumnKind, field: &[u8]) -> Result<Option<Value>, Memory>
    ensures { IfOk result (λ o. o ≡ value_of kind field.now) }
{
    match kind {
        ColumnKind::Int => Ok(int_of(field).map(Value::Int)),
        ColumnKind::Text => Ok(text_of(alloc, field)?.map(Value::Text)),
    }
}

// The values of the fields, where each has one.
fn read_values(
    alloc: Global,
    columns: &[Column],
    fields: &ByteRecord,
) -> Result<Option<Values>, Memory>
    requires { length (fields_of fields.now) ≡ length columns.now }
    ensures { IfOk result (λ o. o ≡ values_of columns.now (fields_of fields.now)) }
{
    let mut values = Values::with_room(alloc, columns.len())?;
    let mut at = 0usize;
    let mut rest = columns;
    while let Some((column, behind)) = rest.split_first() {
        let Some(field) = fields.get(at) else {
            return Ok(None);
        };
        let Some(value) = read_value(alloc, column.kind, field)? else {
            return Ok(None);
        };
        values.push(value)?;
        at += 1;
        rest = behind;
    }
    Ok(Some(values))
}

// What is wrong with a record of which a field has no value.
fn no_value(fields: &ByteRecord) -> Flaw
    ensures { result ≡ (if list_all is_utf8 (fields_of fields.now) then flaws.Number else flaws.Utf8) }
{
    if is_text(fields) {
        Flaw::Number
    } else {
        Flaw::Utf8
    }
}

/// The row that a record is, or the first of its flaws that is listed. Fields that have values are UTF-8, so all of them are
/// looked at for that only where one has no value.
pub(crate) fn read_row(
    alloc: Global,
    columns: &[Column],
    fields: &ByteRecord,
) -> Result<Row, RecordStop>
    ensures row { IfOk result (λ row. row_of columns.now (fields_of fields.now) ≡ Ok row) }
    ensures stopped { IfErr result (StopsRecord (row_of columns.now (fields_of fields.now))) }
{
    if fields.len() != columns.len() {
        return Err(RecordStop::Flaw(Flaw::Fields));
    }
    match read_values(alloc, columns, fields)? {
        Some(values) => Ok(Row { values }),
        None => Err(RecordStop::Flaw(no_value(fields))),
    }
}

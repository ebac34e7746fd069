//! The table that a text is.
ghost use Rattle.std.specs.Prelude.{◌≡◌, ◌+◌, ◌≤◌, IfOk, IfErr, Ok};
ghost use Rattle.csv.specs.Records.{fields_of};
ghost use Rattle.pipe_data.specs.Data.{data_of, row_of, rows_from};
ghost use Rattle.pipe_data.specs.Left.{IsPlain, left};
ghost use Rattle.pipe_data.specs.Stops.{Stops, StopsRow};

use crate::record::{RecordStop, is_header, read_row};
use crate::records::{next_record, reader_of};
use crate::stop::{DataStop, Flaw};
use csv::{ByteRecord, Reader};
use par_rows::{Column, Row, Schema, Table};
use std::alloc::Global;

/// There are at most so many records behind the header.
pub const MAX_RECORDS: u32 = 4_194_304;

// The row that a record with this number is.
fn row_at(
    alloc: Global,
    columns: &[Column],
    number: u32,
    fields: &ByteRecord,
) -> Result<Row, DataStop>
    ensures row { IfOk result (λ row. row_of columns.now (fields_of fields.now) ≡ Ok row) }
    ensures stopped { IfErr result (StopsRow number (row_of columns.now (fields_of fields.now))) }
{
    match read_row(alloc, columns, fields) {
        Ok(row) => Ok(row),
        Err(RecordStop::Flaw(flaw)) => Err(DataStop::Flawed {
            record: number,
            flaw,
        }),
        Err(RecordStop::Memory) => Err(DataStop::Memory),
    }
}

// The rows of the records that are left, which count from 1. `fields` is memory to read into.
fn read_rows(
    alloc: Global,
    columns: &[Column],
    reader: &mut Reader<&[u8]>,
    fields: &mut ByteRecord,
) -> Result<Vec<Row>, DataStop>
    requires { IsPlain reader.old }
    ensures rows { IfOk result (λ rows. rows_from columns.now 1 (left reader.old) ≡ Ok rows.items) }
    ensures stopped { IfErr result (Stops (rows_from columns.now 1 (left reader.old))) }
{
    let mut rows = Vec::new(alloc);
    for number in 1..=MAX_RECORDS {
        let found = next_record(reader, fields)?;
        if !found {
            return Ok(rows);
        }
        rows.push(row_at(alloc, columns, number, fields)?)?;
    }
    let more = next_record(reader, fields)?;
    if more {
        return Err(DataStop::TooMany);
    }
    Ok(rows)
}

/// The table of these columns that a text is, or its first refusal: the first record that has a flaw, and its first flaw;
/// or the record that is one too many. One record is held beside the rows that are made. Linear.
pub fn read_table(alloc: Global, text: &[u8], schema: Schema) -> Result<Table, DataStop>
    ensures table { IfOk result (λ t. (t.schema ≡ schema) × (data_of schema.columns.items text.now ≡ Ok t.rows.items)) }
    ensures stopped { IfErr result (Stops (data_of schema.columns.items text.now)) }
{
    let mut reader = reader_of(alloc, text);
    let mut fields = ByteRecord::new(alloc);
    let found = next_record(&mut reader, &mut fields)?;
    if !found || !is_header(&schema.columns, &fields) {
        return Err(DataStop::Flawed {
            record: 0,
            flaw: Flaw::Header,
        });
    }
    let rows = read_rows(alloc, &schema.columns, &mut reader, &mut fields)?;
    Ok(Table { schema, rows })
}

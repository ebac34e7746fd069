//! The records of a text, one after the other.
ghost use Rattle.std.specs.Prelude.{◌≡◌, IfOk, IfErr};
ghost use Rattle.csv.specs.Reading.{default_config, records, strip_bom};
ghost use Rattle.csv.specs.Records.{fields_of};
ghost use Rattle.pipe_data.specs.declared.stop.DataStop.TheVariants.{Memory};
ghost use Rattle.pipe_data.specs.Left.{IsNext, IsPlain, left};

use crate::stop::DataStop;
use csv::{ByteRecord, Reader, ReaderBuilder};
use std::alloc::Global;

/// A reader of all records of a text, the header as well. A byte order mark at the front is passed over.
pub(crate) fn reader_of(alloc: Global, text: &[u8]) -> Reader<&[u8]>
    ensures plain { IsPlain result }
    ensures left { left result ≡ records default_config (strip_bom text.now) }
{
    ReaderBuilder::new()
        .has_headers(false)
        .flexible(true)
        .from_reader(alloc, text)
}

/// Reads the next record, if there is one, into `fields`, whose memory is used again. The one error is want of memory.
pub(crate) fn next_record(
    reader: &mut Reader<&[u8]>,
    fields: &mut ByteRecord,
) -> Result<bool, DataStop>
    requires { IsPlain reader.old }
    ensures plain { IfOk result (λ _. IsPlain reader.new) }
    ensures next { IfOk result (λ found. IsNext found (fields_of fields.new) (left reader.old) (left reader.new)) }
    ensures memory { IfErr result (λ e. e ≡ Memory) }
{
    let found = reader.read_byte_record(fields)?;
    Ok(found)
}

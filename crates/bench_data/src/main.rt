//! What reading data costs: the records of a text alone, its table, and dropping that table again.
//!
//! The texts are 200,000 sales records, and 1,000,000 records of one int. How many records and rows each has goes to
//! standard output, the best times to standard error.
#![tactic(auto)]

use csv::{ByteRecord, ReaderBuilder};
use par_laws::{Memory, Words};
use par_rows::{Column, ColumnKind, Schema};
use pipe_data::{DataStop, read_table};
use std::alloc::Global;
use std::fmt::Write;
use std::io;
use std::time::{Duration, Instant};

const ROUNDS: usize = 7;

const SALES: u32 = 200_000;

const INTS: u32 = 1_000_000;

const REGIONS: [&str; 4] = ["north", "east", "south", "west"];

fn wanting(_memory: Memory) -> io::Error {
    io::Error::from(io::ErrorKind::OutOfMemory)
}

fn stopped(_stop: DataStop) -> io::Error {
    io::Error::from(io::ErrorKind::Other)
}

// A sales file: an id, a region, a product, units, a price and a note in quotes.
fn sales(alloc: Global) -> Result<String, Memory> {
    let mut text = String::from_str(alloc, "id,region,product,units,price,note\n")?;
    for id in 0..SALES {
        let region = REGIONS[(id % 4) as usize];
        let units = id % 10;
        let _ = write!(text, "{id},{region},widget,{units},{units},");
        text.push_str("\"order taken by phone, sent by post\"\n")?;
    }
    Ok(text)
}

// A file of ints.
fn ints(alloc: Global) -> Result<String, Memory> {
    let mut text = String::from_str(alloc, "v\n")?;
    for number in 0..INTS {
        let number = number.wrapping_mul(7919) % 1_000_003;
        let _ = write!(text, "{number}\n");
    }
    Ok(text)
}

fn column(alloc: Global, name: &str, kind: ColumnKind) -> Result<Column, Memory> {
    let name = Words::from_text(alloc, name)?;
    Ok(Column { name, kind })
}

fn sales_columns(alloc: Global) -> Result<Schema, Memory> {
    let mut columns = Vec::new(alloc);
    columns.push(column(alloc, "id", ColumnKind::Int)?)?;
    columns.push(column(alloc, "region", ColumnKind::Text)?)?;
    columns.push(column(alloc, "product", ColumnKind::Text)?)?;
    columns.push(column(alloc, "units", ColumnKind::Int)?)?;
    columns.push(column(alloc, "price", ColumnKind::Int)?)?;
    columns.push(column(alloc, "note", ColumnKind::Text)?)?;
    Ok(Schema { columns })
}

fn int_columns(alloc: Global) -> Result<Schema, Memory> {
    let mut columns = Vec::new(alloc);
    columns.push(column(alloc, "v", ColumnKind::Int)?)?;
    Ok(Schema { columns })
}

// How many records a text has.
fn count_records(alloc: Global, text: &[u8]) -> Result<u64, io::Error> {
    let mut reader = ReaderBuilder::new()
        .has_headers(false)
        .flexible(true)
        .from_reader(alloc, text);
    let mut fields = ByteRecord::new(alloc);
    let mut count: u64 = 0;
    for _ in 0..4_194_304 {
        let found = reader
            .read_byte_record(&mut fields)
            .map_err(|_| io::Error::from(io::ErrorKind::Other))?;
        if !found {
            return Ok(count);
        }
        count = count.wrapping_add(1);
    }
    Ok(count)
}

/// The best times of a text: of its records, of its table, and of dropping that.
#[derive(Drop)]
struct Best {
    records: Duration,
    table: Duration,
    dropped: Duration,
}

fn main(rt: HostRuntime) -> io::Result<()> {
    let alloc = rt.alloc();
    let texts = [
        sales(alloc).map_err(wanting)?,
        ints(alloc).map_err(wanting)?,
    ];
    let names = ["sales", "ints"];
    for at in 0..2 {
        let text = texts[at].as_bytes();
        let mut best = Best {
            records: Duration::MAX,
            table: Duration::MAX,
            dropped: Duration::MAX,
        };
        let mut counts = (0, 0);
        for _ in 0..ROUNDS {
            let start = Instant::now(&rt)?;
            counts.0 = count_records(alloc, text)?;
            best.records = best.records.min(start.elapsed(&rt)?);
            let schema = if at == 0 {
                sales_columns(alloc)
            } else {
                int_columns(alloc)
            };
            let schema = schema.map_err(wanting)?;
            let start = Instant::now(&rt)?;
            let table = read_table(alloc, text, schema).map_err(stopped)?;
            best.table = best.table.min(start.elapsed(&rt)?);
            counts.1 = table.rows.len();
            let start = Instant::now(&rt)?;
            drop(table);
            best.dropped = best.dropped.min(start.elapsed(&rt)?);
        }
        println!(rt; "{} {} {}", names[at], counts.0, counts.1)?;
        eprintln!(rt;
            "{}: records {} us, table {} us, drop {} us",
            names[at],
            best.records.as_micros(),
            best.table.as_micros(),
            best.dropped.as_micros()
        )?;
    }
    Ok(())
}

use par_laws::{Memory, Words};
use par_rows::{Column, ColumnKind, Schema, Value};
use pipe_data::{DataStop, Flaw, read_table};
use std::alloc::Global;
use std::test::Fail;

// The columns `a:int, t:text`.
fn columns(alloc: Global) -> Result<Schema, Memory> {
    let mut columns = Vec::with_capacity(alloc, 2)?;
    columns.push(Column {
        name: Words::from_text(alloc, "a")?,
        kind: ColumnKind::Int,
    })?;
    columns.push(Column {
        name: Words::from_text(alloc, "t")?,
        kind: ColumnKind::Text,
    })?;
    Ok(Schema { columns })
}

// How many rows a text has, or why it has none.
fn count(alloc: Global, text: &[u8]) -> Result<usize, DataStop> {
    let table = read_table(alloc, text, columns(alloc)?)?;
    Ok(table.rows.len())
}

fn flawed(record: u32, flaw: Flaw) -> Result<usize, DataStop> {
    Err(DataStop::Flawed { record, flaw })
}

#[test]
fn texts_with_a_table(rt: HostRuntime) -> Result<(), Fail> {
    let cases: [(&[u8], usize); 10] = [
        (b"a,t\n", 0),
        (b"a,t", 0),
        (b"a,t\n1,x\n", 1),
        (b"a,t\n1,x\n-2,\n", 2),
        (b"\xef\xbb\xbfa,t\n1,x\n", 1),
        (b"a,t\r\n1,x\r\n", 1),
        (b"a,t\n\n1,x\n\n\n2,y", 2),
        (b"a,t\n\"1\",\"x,\"\"y\"\"\n\"\n", 1),
        (b"a,t\n1,\"x", 1),
        (b"a,t\n007,x\n-0,\x00\n-9223372036854775808,\xc3\xa9\n", 3),
    ];
    for (text, rows) in cases {
        assert_eq!(rt; count(rt.alloc(), text), Ok(rows));
    }
    Ok(())
}

#[test]
fn texts_that_are_refused(rt: HostRuntime) -> Result<(), Fail> {
    let cases: [(&[u8], u32, Flaw); 17] = [
        (b"", 0, Flaw::Header),
        (b"\n\n", 0, Flaw::Header),
        (b"t,a\n", 0, Flaw::Header),
        (b"a\n", 0, Flaw::Header),
        (b"a,t,u\n", 0, Flaw::Header),
        (b"a, t\n1,x,y\n", 0, Flaw::Header),
        (b"a,t\n1\n", 1, Flaw::Fields),
        (b"a,t\n1,x\n2,y,z\n", 2, Flaw::Fields),
        (b"a,t\nx,\xff,1\n", 1, Flaw::Fields),
        (b"a,t\n1,\xff\n", 1, Flaw::Utf8),
        (b"a,t\nx,\xc3\n", 1, Flaw::Utf8),
        (b"a,t\n1,x\n\xff,y\n", 2, Flaw::Utf8),
        (b"a,t\nx,y\n", 1, Flaw::Number),
        (b"a,t\n,y\n", 1, Flaw::Number),
        (b"a,t\n+1,y\n", 1, Flaw::Number),
        (b"a,t\n1,x\n 2,y\n", 2, Flaw::Number),
        (b"a,t\n9223372036854775808,y\n1\n", 1, Flaw::Number),
    ];
    for (text, record, flaw) in cases {
        assert_eq!(rt; count(rt.alloc(), text), flawed(record, flaw));
    }
    Ok(())
}

#[test]
fn the_values_of_a_row(rt: HostRuntime) -> Result<(), Fail> {
    let alloc = rt.alloc();
    let table = read_table(alloc, b"a,t\n-7,\"n\xc3\xa9, e\"\n", columns(alloc)?).map_err(
        |_| "refused",
    )?;
    let row = table.rows.first().ok_or("no row")?;
    let text = Value::Text(Words::from_text(alloc, "né, e")?);
    let values = [Value::Int(-7), text];
    assert_eq!(rt; row.values.as_slice(), values.as_slice());
    assert_eq!(rt; table.schema.columns.len(), 2);
    Ok(())
}

use par_laws::{HashKey, Keep, Memory, Words};
use par_rows::{Column, ColumnKind, Row, Schema, Table, Value, Values};
use std::alloc::Global;
use std::cmp::Ordering;

fn text(alloc: Global, of: &str) -> Result<Value, Memory> {
    Ok(Value::Text(Words::from_text(alloc, of)?))
}

fn pair(alloc: Global, first: i64, second: &str) -> Result<Row, Memory> {
    let mut values = Values::with_room(alloc, 2)?;
    values.push(Value::Int(first))?;
    values.push(text(alloc, second)?)?;
    Ok(Row { values })
}

#[test]
fn hashes(rt: HostRuntime) -> Result<(), Memory> {
    for number in [0, 4_294_967_297, 8_589_934_594, -1] {
        assert!(rt; Value::Int(number).hash32() == 0);
    }
    assert!(rt; text(rt.alloc(), "Aa")?.hash32() == 2112);
    assert!(rt; text(rt.alloc(), "BB")?.hash32() == 2112);
    assert!(rt; pair(rt.alloc(), 7, "Aa")?.hash32() == 31 * 7 + 2112);
    Ok(())
}

#[test]
fn orders(rt: HostRuntime) -> Result<(), Memory> {
    assert!(rt; Value::Int(-1) < Value::Int(0));
    assert!(rt; Value::Int(i64::MAX) < text(rt.alloc(), "")?);
    assert!(rt; text(rt.alloc(), "b")? < text(rt.alloc(), "é")?);
    assert!(rt; text(rt.alloc(), "a")? == text(rt.alloc(), "a")?);
    let low = pair(rt.alloc(), 1, "z")?;
    let high = pair(rt.alloc(), 2, "a")?;
    assert!(rt; low.cmp(&high) == Ordering::Less);
    let short = Row {
        values: Values::with_room(rt.alloc(), 0)?,
    };
    assert!(rt; short < low);
    Ok(())
}

#[test]
fn copies(rt: HostRuntime) -> Result<(), Memory> {
    let mut columns = Vec::new(rt.alloc());
    columns.push(Column {
        name: Words::from_text(rt.alloc(), "id")?,
        kind: ColumnKind::Int,
    })?;
    let mut rows = Vec::new(rt.alloc());
    rows.push(pair(rt.alloc(), 1, "a")?)?;
    let table = Table {
        schema: Schema { columns },
        rows,
    };
    let second = table.copy(rt.alloc())?;
    assert!(rt; second.rows == table.rows);
    assert!(rt; second.schema.columns.len() == 1);
    let Some(row) = second.rows.first() else {
        return Ok(());
    };
    assert!(rt; row.values.get(0) == Some(&Value::Int(1)));
    assert!(rt; row.values.get(2) == None);
    Ok(())
}

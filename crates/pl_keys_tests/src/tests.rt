//! Keys over values of each kind.

use pl_base::{Cells, Field, List, Name, Txt, Ty, Value};
use pl_keys::Keys;
use std::alloc::{AllocError, Global};
use std::test::Fail;

fn row(alloc: Global, v: Value) -> Result<Cells, AllocError> {
    let mut row = List::new(alloc);
    row.push(v)?;
    Ok(row)
}

fn row_value(alloc: Global, value: Value) -> Result<Value, AllocError> {
    let mut fields = List::new(alloc);
    fields.push(Field {
        name: Name::NONE,
        ty: Ty::Int,
        value,
    })?;
    Ok(Value::Row(fields))
}

#[test]
fn rows_are_found_by_their_values(rt: HostRuntime) -> Result<(), Fail> {
    let alloc = rt.alloc();
    let mut keys = Keys::new(alloc);
    keys.add(row(alloc, Value::Null)?)?;
    keys.add(row(alloc, Value::Int(7))?)?;
    keys.add(row(alloc, Value::Text(Txt::from_slice(alloc, b"ab")?))?)?;
    keys.add(row(alloc, Value::Big(7))?)?;
    assert_eq!(rt; keys.len(), 4);
    assert_eq!(rt; keys.find(row(alloc, Value::Null)?.as_slice()), Some(0));
    assert_eq!(rt; keys.find(row(alloc, Value::Big(7))?.as_slice()), Some(1));
    assert_eq!(rt;
        keys.find(row(alloc, Value::Text(Txt::from_slice(alloc, b"ab")?))?.as_slice()),
        Some(2)
    );
    assert_eq!(rt; keys.find(row(alloc, Value::Int(-7))?.as_slice()), None);
    assert_eq!(rt; keys.into_rows().len(), 4);
    Ok(())
}

#[test]
fn rows_within_rows_are_found(rt: HostRuntime) -> Result<(), Fail> {
    let alloc = rt.alloc();
    let mut keys = Keys::new(alloc);
    keys.add(row(alloc, row_value(alloc, Value::Int(1))?)?)?;
    let inner = row_value(alloc, Value::Int(1))?;
    keys.add(row(alloc, row_value(alloc, inner)?)?)?;
    let inner = row_value(alloc, Value::Int(1))?;
    assert_eq!(rt;
        keys.find(row(alloc, row_value(alloc, inner)?)?.as_slice()),
        Some(1)
    );
    let inner = row_value(alloc, Value::Int(2))?;
    assert_eq!(rt;
        keys.find(row(alloc, row_value(alloc, inner)?)?.as_slice()),
        None
    );
    Ok(())
}

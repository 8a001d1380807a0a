//! Rows of a number and a text, sorted, each once, and cut.

use pl_base::{Cells, List, State, Txt, Value};
use pl_order::{count_of, cut, distinct, sort};
use pl_resolved::RKey;
use std::alloc::{AllocError, Global};
use std::test::Fail;

fn row(alloc: Global, number: Value, text: &[u8]) -> Result<Cells, AllocError> {
    let mut row = List::new(alloc);
    row.push(number)?;
    row.push(Value::Text(Txt::from_slice(alloc, text)?))?;
    Ok(row)
}

// SELECT * FROM (VALUES (2, 'a'), (NULL, 'b'), (1, 'c'), (2, 'd')) v
fn rows(alloc: Global) -> Result<Vec<Cells>, AllocError> {
    let mut rows = Vec::new(alloc);
    rows.push(row(alloc, Value::Int(2), b"a")?)?;
    rows.push(row(alloc, Value::Null, b"b")?)?;
    rows.push(row(alloc, Value::Int(1), b"c")?)?;
    rows.push(row(alloc, Value::Int(2), b"d")?)?;
    Ok(rows)
}

fn texts(alloc: Global, rows: &[Cells]) -> Result<Vec<u8>, AllocError> {
    let mut texts = Vec::new(alloc);
    for row in rows {
        if let Some(Value::Text(text)) = row.as_slice().get(1) {
            texts.extend_from_slice(text.as_bytes())?;
        }
    }
    Ok(texts)
}

fn key(is_descending: bool, nulls_first: bool) -> [RKey; 1] {
    [RKey {
        item: 0,
        is_descending,
        nulls_first,
    }]
}

#[test]
fn rows_are_sorted(rt: HostRuntime) -> Result<(), Fail> {
    let alloc = rt.alloc();
    let mut rows = rows(alloc)?;
    sort(&mut rows, &key(false, false))?;
    assert_eq!(rt;
        texts(alloc, rows.as_slice())?.as_slice(),
        b"cadb".as_slice()
    );
    sort(&mut rows, &key(true, true))?;
    assert_eq!(rt;
        texts(alloc, rows.as_slice())?.as_slice(),
        b"badc".as_slice()
    );
    Ok(())
}

// SELECT * FROM (VALUES (2, 'a'), (3, 'b'), (1, 'c'), (2, 'd')) v
fn numbered(alloc: Global) -> Result<Vec<Cells>, AllocError> {
    let mut rows = Vec::new(alloc);
    rows.push(row(alloc, Value::Int(2), b"a")?)?;
    rows.push(row(alloc, Value::Big(3), b"b")?)?;
    rows.push(row(alloc, Value::Int(1), b"c")?)?;
    rows.push(row(alloc, Value::Int(2), b"d")?)?;
    Ok(rows)
}

#[test]
fn rows_of_numbers_are_sorted(rt: HostRuntime) -> Result<(), Fail> {
    let alloc = rt.alloc();
    let mut rows = numbered(alloc)?;
    sort(&mut rows, &key(false, false))?;
    assert_eq!(rt;
        texts(alloc, rows.as_slice())?.as_slice(),
        b"cadb".as_slice()
    );
    let mut rows = numbered(alloc)?;
    sort(&mut rows, &key(true, true))?;
    assert_eq!(rt;
        texts(alloc, rows.as_slice())?.as_slice(),
        b"badc".as_slice()
    );
    Ok(())
}

#[test]
fn rows_stand_once_and_are_cut(rt: HostRuntime) -> Result<(), Fail> {
    let alloc = rt.alloc();
    let mut rows = rows(alloc)?;
    rows.push(row(alloc, Value::Null, b"b")?)?;
    rows.push(row(alloc, Value::Int(3), b"e")?)?;
    let mut rows = distinct(alloc, rows)?;
    assert_eq!(rt;
        texts(alloc, rows.as_slice())?.as_slice(),
        b"abcde".as_slice()
    );
    cut(&mut rows, Some(1), Some(3));
    assert_eq!(rt;
        texts(alloc, rows.as_slice())?.as_slice(),
        b"bcd".as_slice()
    );
    cut(&mut rows, None, None);
    assert_eq!(rt; rows.len(), 3);
    let negative = State::INVALID_ROW_COUNT_IN_LIMIT_CLAUSE;
    assert_eq!(rt; count_of(&Value::Big(7), negative), Ok(Some(7)));
    assert_eq!(rt; count_of(&Value::Int(-1), negative), Err(negative));
    assert_eq!(rt; count_of(&Value::Null, negative), Ok(None));
    Ok(())
}

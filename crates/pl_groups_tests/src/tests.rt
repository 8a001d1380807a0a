//! Rows by a key with nulls, and aggregates over values with nulls.

use pl_base::{Cells, List, Txt, Value};
use pl_calc::{CalcFail, TEXT_LIMIT};
use pl_groups::{Column, place_of_row, place_of_value};
use pl_keys::Keys;
use pl_resolved::Aggregate;
use std::alloc::{AllocError, Global};
use std::test::Fail;

fn key(alloc: Global, v: Value) -> Result<Cells, AllocError> {
    let mut key = List::new(alloc);
    key.push(v)?;
    Ok(key)
}

#[test]
fn groups_are_numbered_in_the_order_of_their_keys(rt: HostRuntime) -> Result<(), Fail> {
    let alloc = rt.alloc();
    let mut known = Keys::new(alloc);
    assert_eq!(rt; place_of_row(&mut known, key(alloc, Value::Int(1))?)?, 0);
    assert_eq!(rt; place_of_value(alloc, &mut known, &Value::Null)?, 1);
    assert_eq!(rt; place_of_value(alloc, &mut known, &Value::Big(1))?, 0);
    assert_eq!(rt; place_of_value(alloc, &mut known, &Value::Int(-1))?, 2);
    assert_eq!(rt; known.len(), 3);
    Ok(())
}

/// A value of a row.
#[derive(Clone, Copy)]
enum Given {
    Null,
    Number(i64),
    Truth(bool),
    /// A text of so many bytes.
    Text(usize),
}

const NUMBERS: [(usize, Given); 5] = [
    (0, Given::Number(2)),
    (0, Given::Null),
    (1, Given::Null),
    (0, Given::Number(5)),
    (0, Given::Number(2)),
];

const GREAT: [(usize, Given); 5] = [
    (0, Given::Number(i64::MAX)),
    (0, Given::Number(1)),
    (0, Given::Number(-1)),
    (1, Given::Number(i64::MAX)),
    (1, Given::Number(1)),
];

const TRUTHS: [(usize, Given); 4] = [
    (0, Given::Truth(true)),
    (0, Given::Null),
    (0, Given::Truth(false)),
    (1, Given::Truth(true)),
];

// Each text stands behind itself as a separator, but for the first.
const TEXTS: [(usize, Given); 4] = [
    (0, Given::Text(1)),
    (0, Given::Null),
    (0, Given::Text(2)),
    (1, Given::Text(0)),
];

const LONG: [(usize, Given); 4] = [
    (0, Given::Text(TEXT_LIMIT / 2)),
    (0, Given::Text(TEXT_LIMIT / 4)),
    (1, Given::Text(TEXT_LIMIT / 2 + 1)),
    (1, Given::Text(TEXT_LIMIT / 4)),
];

/// An aggregate with its rows, each with the number of its group, and what it gives for the groups
/// 0, 1 and 2, of which the last has no row: a number, a truth as 0 or 1, or the length of a text.
#[derive(Clone, Copy)]
struct Case {
    aggregate: Aggregate,
    rows: &'static [(usize, Given)],
    answers: [Option<i64>; 3],
}

const CASES: [Case; 10] = [
    Case {
        aggregate: Aggregate::CountRows,
        rows: &NUMBERS,
        answers: [Some(4), Some(1), Some(0)],
    },
    Case {
        aggregate: Aggregate::Count,
        rows: &NUMBERS,
        answers: [Some(3), Some(0), Some(0)],
    },
    Case {
        aggregate: Aggregate::Sum,
        rows: &NUMBERS,
        answers: [Some(9), None, None],
    },
    Case {
        aggregate: Aggregate::Sum,
        rows: &GREAT,
        answers: [Some(i64::MAX), None, None],
    },
    Case {
        aggregate: Aggregate::Min,
        rows: &NUMBERS,
        answers: [Some(2), None, None],
    },
    Case {
        aggregate: Aggregate::Max,
        rows: &NUMBERS,
        answers: [Some(5), None, None],
    },
    Case {
        aggregate: Aggregate::BoolAnd,
        rows: &TRUTHS,
        answers: [Some(0), Some(1), None],
    },
    Case {
        aggregate: Aggregate::BoolOr,
        rows: &TRUTHS,
        answers: [Some(1), Some(1), None],
    },
    Case {
        aggregate: Aggregate::StringAgg,
        rows: &TEXTS,
        answers: [Some(5), Some(0), None],
    },
    Case {
        aggregate: Aggregate::StringAgg,
        rows: &LONG,
        answers: [Some(1_048_576), None, None],
    },
];

fn made(alloc: Global, given: Given) -> Result<Value, AllocError> {
    match given {
        Given::Null => Ok(Value::Null),
        Given::Number(number) => Ok(Value::Big(number)),
        Given::Truth(truth) => Ok(Value::Bool(truth)),
        Given::Text(length) => {
            let mut bytes = Vec::new(alloc);
            bytes.resize(length, b'x')?;
            Ok(Value::Text(Txt::from_vec(bytes)))
        }
    }
}

fn add(alloc: Global, column: &mut Column, place: usize, given: Given) -> Result<(), AllocError> {
    let v = made(alloc, given)?;
    column.add(alloc, place, &v, &v)
}

fn number(answer: Result<Value, CalcFail>) -> Option<i64> {
    match answer {
        Ok(Value::Big(number)) => Some(number),
        Ok(Value::Bool(truth)) => Some(i64::from(truth)),
        Ok(Value::Text(text)) => i64::try_from(text.len()).ok(),
        _ => None,
    }
}

fn answers(alloc: Global, case: &Case) -> Result<[Option<i64>; 3], AllocError> {
    let mut column = Column::new(alloc, case.aggregate);
    for (place, given) in case.rows {
        add(alloc, &mut column, *place, *given)?;
    }
    Ok([
        number(column.finish(alloc, 0)),
        number(column.finish(alloc, 1)),
        number(column.finish(alloc, 2)),
    ])
}

#[test]
fn aggregates_take_rows_of_groups(rt: HostRuntime) -> Result<(), Fail> {
    let alloc = rt.alloc();
    for case in &CASES {
        assert_eq!(rt; answers(alloc, case)?, case.answers);
    }
    Ok(())
}

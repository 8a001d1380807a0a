//! Which rows of a table a query reads where WHERE asks for a key.

use pl_base::{Boxed, Cells, Comparison, Held, List, Memory, Name, Operator, Txt, Value};
use pl_journal::Journal;
use pl_query::Tables;
use pl_reading::read_definition;
use pl_resolved::{RExpr, RPair};
use pl_value::{Lent, NoRoutines};
use std::alloc::{AllocError, Global};
use std::test::Fail;

const TABLE: &str = "CREATE TABLE t (a integer PRIMARY KEY, b integer UNIQUE, c integer NOT NULL)";

const ROWS: [(i32, Option<i32>, i32); 3] = [(1, Some(10), 5), (2, Some(20), 5), (3, None, 5)];

/// An operand. One row stands around.
#[derive(Clone, Copy)]
enum Part {
    /// A column of the row that is read.
    Own(usize),
    /// The one value of the row around, 3.
    Around,
    Number(i32),
    Null,
}

#[derive(Clone, Copy)]
enum Test {
    Same(Part, Part),
    Above(Part, Part),
}

/// Tests that AND joins.
#[derive(Clone, Copy)]
struct Case {
    name: &'static str,
    tests: &'static [Test],
    /// The first columns of the rows that are read; none where all are.
    rows: Option<&'static [i32]>,
}

const CASES: [Case; 13] = [
    Case {
        name: "a = 2",
        tests: &[Test::Same(Part::Own(0), Part::Number(2))],
        rows: Some(&[2]),
    },
    Case {
        name: "2 = a",
        tests: &[Test::Same(Part::Number(2), Part::Own(0))],
        rows: Some(&[2]),
    },
    Case {
        name: "a = 9",
        tests: &[Test::Same(Part::Own(0), Part::Number(9))],
        rows: Some(&[]),
    },
    Case {
        name: "a = x",
        tests: &[Test::Same(Part::Own(0), Part::Around)],
        rows: Some(&[3]),
    },
    Case {
        name: "a = NULL",
        tests: &[Test::Same(Part::Own(0), Part::Null)],
        rows: None,
    },
    Case {
        name: "a > 2",
        tests: &[Test::Above(Part::Own(0), Part::Number(2))],
        rows: None,
    },
    Case {
        name: "a = c",
        tests: &[Test::Same(Part::Own(0), Part::Own(2))],
        rows: None,
    },
    Case {
        name: "c = 5",
        tests: &[Test::Same(Part::Own(2), Part::Number(5))],
        rows: None,
    },
    Case {
        name: "b = 20",
        tests: &[Test::Same(Part::Own(1), Part::Number(20))],
        rows: Some(&[2]),
    },
    Case {
        name: "b = 20 AND c = 5",
        tests: &[
            Test::Same(Part::Own(1), Part::Number(20)),
            Test::Same(Part::Own(2), Part::Number(5)),
        ],
        rows: None,
    },
    Case {
        name: "c = 5 AND a = 2",
        tests: &[
            Test::Same(Part::Own(2), Part::Number(5)),
            Test::Same(Part::Own(0), Part::Number(2)),
        ],
        rows: Some(&[2]),
    },
    Case {
        name: "a = 2 AND c > 5",
        tests: &[
            Test::Same(Part::Own(0), Part::Number(2)),
            Test::Above(Part::Own(2), Part::Number(5)),
        ],
        rows: Some(&[2]),
    },
    Case {
        name: "c > 5 AND a = 2",
        tests: &[
            Test::Above(Part::Own(2), Part::Number(5)),
            Test::Same(Part::Own(0), Part::Number(2)),
        ],
        rows: None,
    },
];

fn operand(part: Part) -> RExpr {
    match part {
        Part::Own(column) => RExpr::Place { row: 1, column },
        Part::Around => RExpr::Place { row: 0, column: 0 },
        Part::Number(n) => RExpr::Constant(Value::Int(n)),
        Part::Null => RExpr::Constant(Value::Null),
    }
}

fn compared(alloc: Global, test: Test) -> Result<RExpr, AllocError> {
    let (comparison, first, second) = match test {
        Test::Same(first, second) => (Comparison::Equal, first, second),
        Test::Above(first, second) => (Comparison::Greater, first, second),
    };
    let first = operand(first);
    let second = operand(second);
    Ok(RExpr::Binary {
        operator: Operator::Compare(comparison),
        operands: Boxed::new(alloc, RPair { first, second })?,
    })
}

fn condition(alloc: Global, tests: &[Test]) -> Result<RExpr, AllocError> {
    if let [test] = tests {
        return compared(alloc, *test);
    }
    let mut parts = List::new(alloc);
    for test in tests {
        parts.push(compared(alloc, *test)?)?;
    }
    Ok(RExpr::And(parts))
}

// The table is made.
fn is_made(alloc: Global, journal: &mut Journal) -> Result<bool, Memory> {
    let text = Txt::from_slice(alloc, TABLE.as_bytes())?;
    let Some(definition) = read_definition(alloc, text.as_bytes())? else {
        return Ok(false);
    };
    let definition = Held::new(definition);
    Ok(matches!(journal.define(definition.get(), text), Ok(None)))
}

fn number(n: Option<i32>) -> Value {
    match n {
        Some(n) => Value::Int(n),
        None => Value::Null,
    }
}

fn row(alloc: Global, a: i32, b: Option<i32>, c: i32) -> Result<Cells, AllocError> {
    let mut row = List::new(alloc);
    row.push(Value::Int(a))?;
    row.push(number(b))?;
    row.push(Value::Int(c))?;
    Ok(row)
}

// The first columns of the rows that are read; none where all are.
fn read(
    alloc: Global,
    journal: &Journal,
    name: Name,
    tests: &[Test],
) -> Result<Option<Vec<i32>>, AllocError> {
    let condition = condition(alloc, tests)?;
    let around = [Value::Int(3)];
    let frame = [Lent { cells: &around }];
    let Some(few) = journal.read_for::<NoRoutines>(alloc, name, &condition, &frame)? else {
        return Ok(None);
    };
    let mut found = Vec::new(alloc);
    for lent in few.as_slice() {
        if let Some(Value::Int(n)) = lent.cells.get(0) {
            found.push(*n)?;
        }
    }
    Ok(Some(found))
}

fn is_so(alloc: Global, journal: &Journal, name: Name, case: &Case) -> bool {
    match read(alloc, journal, name, case.tests) {
        Ok(None) => case.rows.is_none(),
        Ok(Some(found)) => case.rows == Some(found.as_slice()),
        Err(_) => false,
    }
}

// The first condition of which other rows are read.
fn other(alloc: Global, journal: &Journal, name: Name) -> Option<&'static str> {
    for case in &CASES {
        if !is_so(alloc, journal, name, case) {
            return Some(case.name);
        }
    }
    None
}

#[test]
fn the_row_of_a_key_is_read_alone(rt: HostRuntime) -> Result<(), Fail> {
    let alloc = rt.alloc();
    let Some(name) = Name::of("t") else {
        return Err(Fail::new("no name"));
    };
    let mut journal = Journal::new(alloc);
    assert!(rt; matches!(is_made(alloc, &mut journal), Ok(true)));
    for (a, b, c) in &ROWS {
        let row = row(alloc, *a, *b, *c)?;
        assert!(rt; journal.insert(name, row).is_ok());
    }
    assert_eq!(rt; other(alloc, &journal, name), None);
    Ok(())
}

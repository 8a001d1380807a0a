//! Commands over one table, worked out by hand.

ghost use Rattle.std.specs.Prelude.{◌≡◌, []};

use pl_base::{
    Arithmetic, Boxed, Cells, Comparison, Held, List, Name, Op, Operator, Txt, Ty, Value,
};
use pl_change::change;
use pl_change::pl_journal::Journal;
use pl_resolved::{
    Aggregate, Head, RAggregate, RChain, RExpr, RGroups, RJoin, RPair, RQuery, RSource, RStep,
};
use pl_targets::{RChange, RRow, RRows, RWhat};
use pl_value::{Lent, NoRoutines, Unsettled};
use std::alloc::{AllocError, Global};

/// An expression.
#[derive(Clone, Copy)]
enum Part {
    Null,
    Number(i32),
    /// The value at a row and a column.
    At(usize, usize),
    /// The value there with this added.
    Plus(usize, usize, i32),
    /// Whether the value there is greater.
    Above(usize, usize, i32),
    /// (SELECT max(b) FROM t) + 1
    Next,
    /// (SELECT max(u.b) FROM t u WHERE u.a + 1 = t.a)
    Before,
    /// EXISTS (SELECT 1 FROM t u WHERE u.a + 1 = t.a)
    Follows,
    /// u.a + 1 = t.a, in the two queries above
    IsNext,
    /// Whether a is this number.
    Is(i32),
    /// Whether a is the first number, and b greater than the second.
    IsAndAbove(i32, i32),
}

/// A command over the table t, of the columns a and b.
#[derive(Clone, Copy)]
enum What {
    /// INSERT INTO t VALUES ..
    Values(&'static [[Part; 2]]),
    /// INSERT INTO t SELECT a + 10, b FROM t
    Query,
    /// UPDATE t SET .. WHERE ..
    Set(usize, Part, Option<Part>),
    /// DELETE FROM t WHERE ..
    Delete(Option<Part>),
}

/// A command with its outcome: how many rows were written, what RETURNING shows of them, and the
/// rows of t after it; or a SQLSTATE.
#[derive(Clone, Copy)]
struct Case {
    name: &'static str,
    what: What,
    returning: &'static [Part],
    outcome: &'static str,
}

/// The table t.
const TABLE: &str = "CREATE TABLE t (a integer NOT NULL UNIQUE, b integer CHECK (b < 100))";

// The rows before each command.
const ROWS: [[Part; 2]; 3] = [
    [Part::Number(1), Part::Number(10)],
    [Part::Number(2), Part::Number(20)],
    [Part::Number(3), Part::Null],
];

const CASES: [Case; 25] = [
    Case {
        name: "INSERT INTO t VALUES (4, 40), (5, NULL) RETURNING b, a",
        what: What::Values(&[
            [Part::Number(4), Part::Number(40)],
            [Part::Number(5), Part::Null],
        ]),
        returning: &[Part::At(2, 1), Part::At(2, 0)],
        outcome: "2: 40,4;-,5 | 1,10;2,20;3,-;4,40;5,-",
    },
    Case {
        name: "INSERT INTO t VALUES (4, 40)",
        what: What::Values(&[[Part::Number(4), Part::Number(40)]]),
        returning: &[],
        outcome: "1:  | 1,10;2,20;3,-;4,40",
    },
    Case {
        name: "INSERT INTO t VALUES (NULL, 200)",
        what: What::Values(&[[Part::Null, Part::Number(200)]]),
        returning: &[],
        outcome: "23502",
    },
    Case {
        name: "INSERT INTO t VALUES (1, 200)",
        what: What::Values(&[[Part::Number(1), Part::Number(200)]]),
        returning: &[],
        outcome: "23514",
    },
    Case {
        name: "INSERT INTO t VALUES (4, 40), (4, 41)",
        what: What::Values(&[
            [Part::Number(4), Part::Number(40)],
            [Part::Number(4), Part::Number(41)],
        ]),
        returning: &[],
        outcome: "23505",
    },
    Case {
        name: "INSERT INTO t VALUES (4, 50), (5, (SELECT max(b) FROM t) + 1)",
        what: What::Values(&[
            [Part::Number(4), Part::Number(50)],
            [Part::Number(5), Part::Next],
        ]),
        returning: &[],
        outcome: "2: ; | 1,10;2,20;3,-;4,50;5,21",
    },
    Case {
        name: "INSERT INTO t SELECT a + 10, b FROM t RETURNING a",
        what: What::Query,
        returning: &[Part::At(2, 0)],
        outcome: "3: 11;12;13 | 1,10;2,20;3,-;11,10;12,20;13,-",
    },
    Case {
        name: "UPDATE t SET b = a + 5 RETURNING a, b",
        what: What::Set(1, Part::Plus(2, 0, 5), None),
        returning: &[Part::At(2, 0), Part::At(2, 1)],
        outcome: "3: 1,6;2,7;3,8 | 1,6;2,7;3,8",
    },
    Case {
        name: "UPDATE t SET b = 7 WHERE b > 15",
        what: What::Set(1, Part::Number(7), Some(Part::Above(2, 1, 15))),
        returning: &[],
        outcome: "1:  | 1,10;2,7;3,-",
    },
    Case {
        name: "UPDATE t SET b = (SELECT max(b) FROM t) + 1",
        what: What::Set(1, Part::Next, None),
        returning: &[],
        outcome: "3: ;; | 1,21;2,21;3,21",
    },
    Case {
        name: "UPDATE t SET a = a + 1",
        what: What::Set(0, Part::Plus(2, 0, 1), None),
        returning: &[],
        outcome: "23505",
    },
    Case {
        name: "UPDATE t SET a = NULL WHERE a > 2",
        what: What::Set(0, Part::Null, Some(Part::Above(2, 0, 2))),
        returning: &[],
        outcome: "23502",
    },
    Case {
        name: "DELETE FROM t WHERE b > 15 RETURNING a, b",
        what: What::Delete(Some(Part::Above(2, 1, 15))),
        returning: &[Part::At(2, 0), Part::At(2, 1)],
        outcome: "1: 2,20 | 1,10;3,-",
    },
    Case {
        name: "UPDATE t SET b = (SELECT max(u.b) FROM t u WHERE u.a + 1 = t.a) RETURNING a, b",
        what: What::Set(1, Part::Before, None),
        returning: &[Part::At(2, 0), Part::At(2, 1)],
        outcome: "3: 1,-;2,10;3,20 | 1,-;2,10;3,20",
    },
    Case {
        name: "UPDATE t SET b = 9 WHERE EXISTS (SELECT 1 FROM t u WHERE u.a + 1 = t.a)",
        what: What::Set(1, Part::Number(9), Some(Part::Follows)),
        returning: &[],
        outcome: "2: ; | 1,10;2,9;3,9",
    },
    Case {
        name: "DELETE FROM t WHERE EXISTS (SELECT 1 FROM t u WHERE u.a + 1 = t.a)",
        what: What::Delete(Some(Part::Follows)),
        returning: &[],
        outcome: "2: ; | 1,10",
    },
    Case {
        name: "DELETE FROM t WHERE a > 1 RETURNING a, (SELECT max(b) FROM t) + 1",
        what: What::Delete(Some(Part::Above(2, 0, 1))),
        returning: &[Part::At(2, 0), Part::Next],
        outcome: "2: 2,21;3,21 | 1,10",
    },
    Case {
        name: "UPDATE t SET b = 50 RETURNING (SELECT max(u.b) FROM t u WHERE u.a + 1 = t.a)",
        what: What::Set(1, Part::Number(50), None),
        returning: &[Part::Before],
        outcome: "3: -;10;20 | 1,50;2,50;3,50",
    },
    Case {
        name: "DELETE FROM t WHERE 2 = a RETURNING a, b",
        what: What::Delete(Some(Part::Is(2))),
        returning: &[Part::At(2, 0), Part::At(2, 1)],
        outcome: "1: 2,20 | 1,10;3,-",
    },
    Case {
        name: "DELETE FROM t WHERE 7 = a",
        what: What::Delete(Some(Part::Is(7))),
        returning: &[],
        outcome: "0:  | 1,10;2,20;3,-",
    },
    Case {
        name: "DELETE FROM t WHERE 1 = a AND b > 15",
        what: What::Delete(Some(Part::IsAndAbove(1, 15))),
        returning: &[],
        outcome: "0:  | 1,10;2,20;3,-",
    },
    Case {
        name: "UPDATE t SET a = 7 WHERE 2 = a AND b > 15",
        what: What::Set(0, Part::Number(7), Some(Part::IsAndAbove(2, 15))),
        returning: &[],
        outcome: "1:  | 1,10;7,20;3,-",
    },
    Case {
        name: "UPDATE t SET a = 3 WHERE 2 = a",
        what: What::Set(0, Part::Number(3), Some(Part::Is(2))),
        returning: &[],
        outcome: "23505",
    },
    Case {
        name: "UPDATE t SET b = (SELECT max(b) FROM t) + 1 WHERE 1 = a",
        what: What::Set(1, Part::Next, Some(Part::Is(1))),
        returning: &[],
        outcome: "1:  | 1,21;2,20;3,-",
    },
    Case {
        name: "DELETE FROM t",
        what: What::Delete(None),
        returning: &[],
        outcome: "3: ;; | ",
    },
];

fn chain(alloc: Global, first: RExpr, n: i32) -> Result<RExpr, AllocError> {
    let mut steps = List::new(alloc);
    let first = Held::new(first);
    steps.push(RStep {
        operator: Operator::Arithmetic(Arithmetic::Add),
        operand: RExpr::Constant(Value::Int(n)),
    })?;
    Ok(RExpr::Chain(Boxed::new(
        alloc,
        RChain {
            first: first.into_inner(),
            steps,
        },
    )?))
}

fn compared(
    alloc: Global,
    comparison: Comparison,
    first: RExpr,
    second: RExpr,
) -> Result<RExpr, AllocError> {
    Ok(RExpr::Binary {
        operator: Operator::Compare(comparison),
        operands: Boxed::new(alloc, RPair { first, second })?,
    })
}

fn both(alloc: Global, number: i32, below: i32) -> Result<RExpr, AllocError> {
    let mut parts = List::new(alloc);
    parts.push(equals(alloc, number)?)?;
    parts.push(compared(
        alloc,
        Comparison::Less,
        RExpr::Constant(Value::Int(below)),
        RExpr::Place { row: 2, column: 1 },
    )?)?;
    Ok(RExpr::And(parts))
}

// Whether the number is a.
fn equals(alloc: Global, number: i32) -> Result<RExpr, AllocError> {
    compared(
        alloc,
        Comparison::Equal,
        RExpr::Constant(Value::Int(number)),
        RExpr::Place { row: 2, column: 0 },
    )
}

fn expression(alloc: Global, part: Part) -> Result<RExpr, AllocError> {
    match part {
        Part::Null => Ok(RExpr::Constant(Value::Null)),
        Part::Number(n) => Ok(RExpr::Constant(Value::Int(n))),
        Part::At(row, column) => Ok(RExpr::Place { row, column }),
        Part::Plus(row, column, n) => chain(alloc, RExpr::Place { row, column }, n),
        Part::Above(row, column, n) => {
            let place = RExpr::Place { row, column };
            compared(
                alloc,
                Comparison::Greater,
                place,
                RExpr::Constant(Value::Int(n)),
            )
        }
        Part::Next => chain(alloc, RExpr::Scalar(0), 1),
        Part::Before => Ok(RExpr::Scalar(1)),
        Part::Follows => Ok(RExpr::Exists(2)),
        Part::IsNext => {
            let next = chain(alloc, RExpr::Place { row: 4, column: 0 }, 1)?;
            compared(
                alloc,
                Comparison::Equal,
                next,
                RExpr::Place { row: 2, column: 0 },
            )
        }
        Part::Is(n) => equals(alloc, n),
        Part::IsAndAbove(n, below) => both(alloc, n, below),
    }
}

fn expressions(alloc: Global, parts: &[Part]) -> Result<List<RExpr>, AllocError> {
    let mut list = List::new(alloc);
    for part in parts {
        list.push(expression(alloc, *part)?)?;
    }
    Ok(list)
}

fn boxed(alloc: Global, part: Option<Part>) -> Result<Option<Boxed<RExpr>>, AllocError> {
    match part {
        Some(part) => Ok(Some(Boxed::new(alloc, expression(alloc, part)?)?)),
        None => Ok(None),
    }
}

fn heads(alloc: Global, count: usize) -> Result<List<Head>, AllocError> {
    let mut list = List::new(alloc);
    for _head in 0..count {
        list.push(Head {
            name: Name::NONE,
            ty: Ty::Int,
        })?;
    }
    Ok(list)
}

// max(b), where the row of t stands as this one.
fn largest(alloc: Global, row: usize) -> Result<RGroups, AllocError> {
    let mut aggregates = List::new(alloc);
    aggregates.push(RAggregate {
        aggregate: Aggregate::Max,
        arguments: expressions(alloc, &[Part::At(row, 1)])?,
    })?;
    Ok(RGroups {
        keys: List::new(alloc),
        aggregates,
        having: None,
    })
}

// A query over t with these items, of which there are so many.
fn query(
    alloc: Global,
    table: Name,
    condition: Option<Part>,
    groups: Option<RGroups>,
    items: &[Part],
) -> Result<RQuery, AllocError> {
    let groups = Held::new(groups);
    let condition = boxed(alloc, condition)?;
    let mut from = List::new(alloc);
    from.push(RJoin {
        source: RSource::Table(table),
        is_left: false,
        condition: None,
    })?;
    let list = expressions(alloc, items)?;
    let heads = heads(alloc, items.len())?;
    Ok(RQuery {
        from,
        condition,
        groups: groups.into_inner(),
        items: list,
        heads,
        is_distinct: false,
        order: List::new(alloc),
        limit: None,
        offset: None,
    })
}

fn rows(alloc: Global, list: &[[Part; 2]]) -> Result<List<RRow>, AllocError> {
    let mut rows = List::new(alloc);
    for row in list {
        rows.push(RRow {
            values: expressions(alloc, row)?,
        })?;
    }
    Ok(rows)
}

fn what_of(alloc: Global, what: What) -> Result<RWhat, AllocError> {
    match what {
        What::Values(list) => Ok(RWhat::Insert(RRows::Values(rows(alloc, list)?))),
        What::Query => Ok(RWhat::Insert(RRows::Query {
            query: 0,
            values: expressions(alloc, &[Part::At(2, 0), Part::At(2, 1)])?,
        })),
        What::Set(column, value, condition) => {
            let condition = boxed(alloc, condition)?;
            Ok(RWhat::Update {
                columns: List::from_slice(alloc, &[column])?,
                values: expressions(alloc, &[value])?,
                condition,
            })
        }
        What::Delete(condition) => Ok(RWhat::Delete {
            condition: boxed(alloc, condition)?,
        }),
    }
}

// The queries inside, also where a command reads none of them.
fn queries_of(alloc: Global, table: Name, what: What) -> Result<List<RQuery>, AllocError> {
    let mut list = List::new(alloc);
    match what {
        What::Query => {
            let items = [Part::Plus(2, 0, 10), Part::At(2, 1)];
            list.push(query(alloc, table, None, None, &items)?)?;
        }
        What::Values(_) => {
            let groups = largest(alloc, 3)?;
            list.push(query(alloc, table, None, Some(groups), &[Part::At(2, 0)])?)?;
        }
        What::Set(_, _, _) | What::Delete(_) => {
            let groups = largest(alloc, 4)?;
            list.push(query(alloc, table, None, Some(groups), &[Part::At(3, 0)])?)?;
            let groups = largest(alloc, 4)?;
            let is_next = Some(Part::IsNext);
            list.push(query(alloc, table, is_next, Some(groups), &[Part::At(3, 0)])?)?;
            list.push(query(alloc, table, is_next, None, &[Part::Number(1)])?)?;
        }
    }
    Ok(list)
}

fn command(
    alloc: Global,
    table: Name,
    what: What,
    returning: &[Part],
) -> Result<RChange, AllocError> {
    let queries = queries_of(alloc, table, what)?;
    let list = expressions(alloc, returning)?;
    let heads = heads(alloc, returning.len())?;
    Ok(RChange {
        table,
        queries,
        what: what_of(alloc, what)?,
        returning: list,
        heads,
    })
}

// Runs the command over t.
fn run(
    alloc: Global,
    table: Name,
    what: What,
    returning: &[Part],
    journal: &mut Journal,
) -> Result<List<Cells>, Unsettled> {
    let command = command(alloc, table, what, returning)?;
    let outer = [Lent { cells: &[] }];
    change(alloc, &command, &outer, journal, &mut NoRoutines)
}

// The table, if the database is that of the last commit and no mark is live.
fn create(alloc: Global, journal: &mut Journal) -> Result<(), Unsettled>
    requires settled { journal.old.last ≡ journal.old.now }
    requires unmarked { journal.old.marks ≡ [] }
{
    let text = Txt::from_slice(alloc, TABLE.as_bytes())?;
    match journal.apply(Op::Define { text }) {
        Ok(true) => Ok(()),
        Ok(false) | Err(_) => Err(Unsettled::Memory),
    }
}

fn add_value(alloc: Global, text: &mut Vec<u8>, v: &Value) -> Result<(), AllocError> {
    match v {
        Value::Int(n) => text.extend_from_slice(n.to_string(alloc)?.as_bytes()),
        _ => text.extend_from_slice(b"-"),
    }
}

fn add_row(alloc: Global, text: &mut Vec<u8>, row: &[Value]) -> Result<(), AllocError> {
    let mut is_first = true;
    for v in row {
        if !is_first {
            text.extend_from_slice(b",")?;
        }
        add_value(alloc, text, v)?;
        is_first = false;
    }
    Ok(())
}

fn add_shown(alloc: Global, text: &mut Vec<u8>, rows: &[Cells]) -> Result<(), AllocError> {
    let mut is_first = true;
    for row in rows {
        if !is_first {
            text.extend_from_slice(b";")?;
        }
        add_row(alloc, text, row.as_slice())?;
        is_first = false;
    }
    Ok(())
}

fn add_table(
    alloc: Global,
    text: &mut Vec<u8>,
    journal: &Journal,
    name: Name,
) -> Result<(), AllocError> {
    let Some(table) = journal.tables().table(name) else {
        return Ok(());
    };
    let mut is_first = true;
    for slot in table.slots() {
        if let Some(row) = &slot.row {
            if !is_first {
                text.extend_from_slice(b";")?;
            }
            add_row(alloc, text, row.as_slice())?;
            is_first = false;
        }
    }
    Ok(())
}

fn text_of(
    alloc: Global,
    shown: &[Cells],
    journal: &Journal,
    name: Name,
) -> Result<Vec<u8>, AllocError> {
    let mut text = Vec::new(alloc);
    text.extend_from_slice(shown.len().to_string(alloc)?.as_bytes())?;
    text.extend_from_slice(b": ")?;
    add_shown(alloc, &mut text, shown)?;
    text.extend_from_slice(b" | ")?;
    add_table(alloc, &mut text, journal, name)?;
    Ok(text)
}

fn outcome(alloc: Global, case: &Case) -> Result<Vec<u8>, Unsettled> {
    let table = Name::of("t").unwrap_or(Name::NONE);
    let mut journal = Journal::new(alloc);
    create(alloc, &mut journal)?;
    run(alloc, table, What::Values(&ROWS), &[], &mut journal)?;
    let shown = run(alloc, table, case.what, case.returning, &mut journal)?;
    Ok(text_of(alloc, shown.as_slice(), &journal, table)?)
}

fn is_so(alloc: Global, case: &Case) -> bool {
    match outcome(alloc, case) {
        Ok(text) => text.as_slice() == case.outcome.as_bytes(),
        Err(Unsettled::Fails(state)) => state.code.as_slice() == case.outcome.as_bytes(),
        Err(Unsettled::Memory) => false,
    }
}

// The first command with another outcome.
fn other(alloc: Global) -> Option<&'static str> {
    for case in &CASES {
        if !is_so(alloc, case) {
            return Some(case.name);
        }
    }
    None
}

#[test]
fn commands_have_their_outcomes(rt: HostRuntime) {
    assert_eq!(rt; other(rt.alloc()), None);
}

//! Queries over one table, worked out by hand.

use pl_base::{Boxed, Cells, Comparison, Held, List, Name, Operator, Ty, Value};
use pl_query::{Tables, lend_rows, run};
use pl_resolved::{
    Aggregate, Head, RAggregate, RExpr, RGroups, RJoin, RKey, RPair, RQuery, RSource,
};
use pl_value::{Lent, NoRoutines, Unsettled};
use std::alloc::{AllocError, Global};

// The rows of the table t, of the columns a and b.
const ROWS: [(Option<i32>, Option<i32>); 5] = [
    (Some(1), Some(10)),
    (Some(2), Some(20)),
    (Some(1), Some(30)),
    (None, Some(5)),
    (Some(2), None),
];

/// An expression.
#[derive(Clone, Copy)]
enum Part {
    /// The value at a row and a column.
    At(usize, usize),
    /// Whether the value there is greater than the number.
    Above(usize, usize, i32),
    /// Whether the values at two places are equal.
    Same(usize, usize, usize, usize),
    Number(i32),
    /// The one value of query 1.
    Scalar,
}

/// An item of FROM.
#[derive(Clone, Copy)]
enum Item {
    /// `, t`
    Table,
    /// Query 0.
    Derived,
    /// `LEFT JOIN t ON ..`
    Left(Part),
    /// `LEFT JOIN (t JOIN t ON ..) ON ..`
    LeftPair(Part, Part),
}

/// A query with its rows: values with commas between, rows with semicolons, `-` for null.
#[derive(Clone, Copy)]
struct Case {
    name: &'static str,
    from: &'static [Item],
    condition: Option<Part>,
    keys: &'static [Part],
    aggregates: &'static [(Aggregate, &'static [Part])],
    having: Option<Part>,
    items: &'static [Part],
    columns: usize,
    is_distinct: bool,
    order: &'static [RKey],
    offset: Option<i32>,
    limit: Option<i32>,
    rows: &'static str,
}

const EMPTY: Case = Case {
    name: "",
    from: &[],
    condition: None,
    keys: &[],
    aggregates: &[],
    having: None,
    items: &[],
    columns: 1,
    is_distinct: false,
    order: &[],
    offset: None,
    limit: None,
    rows: "",
};

// SELECT b FROM t WHERE b > 15, in FROM of another query
const DERIVED: Case = Case {
    from: &[Item::Table],
    condition: Some(Part::Above(2, 1, 15)),
    items: &[Part::At(2, 1)],
    ..EMPTY
};

// SELECT max(y.b) FROM t y WHERE y.a = x.a, in the select list of a query of t x
const SCALAR: Case = Case {
    from: &[Item::Table],
    condition: Some(Part::Same(4, 0, 2, 0)),
    aggregates: &[(Aggregate::Max, &[Part::At(4, 1)])],
    items: &[Part::At(3, 0)],
    ..EMPTY
};

const CASES: [Case; 13] = [
    Case {
        name: "SELECT 7",
        items: &[Part::Number(7)],
        rows: "7",
        ..EMPTY
    },
    Case {
        name: "SELECT a, b FROM t WHERE b > 15",
        from: &[Item::Table],
        condition: Some(Part::Above(2, 1, 15)),
        items: &[Part::At(2, 0), Part::At(2, 1)],
        columns: 2,
        rows: "2,20;1,30",
        ..EMPTY
    },
    Case {
        name: "SELECT x.b, y.b FROM t x LEFT JOIN t y ON y.a = x.b",
        from: &[Item::Table, Item::Left(Part::Same(3, 0, 2, 1))],
        items: &[Part::At(2, 1), Part::At(3, 1)],
        columns: 2,
        rows: "10,-;20,-;30,-;5,-;-,-",
        ..EMPTY
    },
    Case {
        name: "SELECT x.b, z.b FROM t x LEFT JOIN (t y JOIN t z ON z.a = y.a) ON y.b = x.b",
        from: &[
            Item::Table,
            Item::LeftPair(Part::Same(3, 0, 4, 0), Part::Same(2, 1, 3, 1)),
        ],
        items: &[Part::At(2, 1), Part::At(4, 1)],
        columns: 2,
        rows: "10,10;10,30;20,20;20,-;30,10;30,30;5,-;-,-",
        ..EMPTY
    },
    Case {
        name: "SELECT q.b FROM (SELECT b FROM t WHERE b > 15) q",
        from: &[Item::Derived],
        items: &[Part::At(2, 0)],
        rows: "20;30",
        ..EMPTY
    },
    Case {
        name: "SELECT x.b, (SELECT max(y.b) FROM t y WHERE y.a = x.a) FROM t x",
        from: &[Item::Table],
        items: &[Part::At(2, 1), Part::Scalar],
        columns: 2,
        rows: "10,30;20,20;30,30;5,-;-,20",
        ..EMPTY
    },
    Case {
        name: "SELECT a, count(*), sum(b) FROM t GROUP BY a HAVING count(*) > 1 ORDER BY a DESC",
        from: &[Item::Table],
        keys: &[Part::At(2, 0)],
        aggregates: &[
            (Aggregate::CountRows, &[]),
            (Aggregate::Sum, &[Part::At(2, 1)]),
        ],
        having: Some(Part::Above(1, 0, 1)),
        items: &[Part::At(2, 0), Part::At(1, 0), Part::At(1, 1)],
        columns: 3,
        order: &[RKey {
            item: 0,
            is_descending: true,
            nulls_first: true,
        }],
        rows: "2,2,20;1,2,40",
        ..EMPTY
    },
    Case {
        name: "SELECT a FROM t GROUP BY a OFFSET 1 LIMIT 1",
        from: &[Item::Table],
        keys: &[Part::At(2, 0)],
        items: &[Part::At(2, 0)],
        offset: Some(1),
        limit: Some(1),
        rows: "2",
        ..EMPTY
    },
    Case {
        name: "SELECT count(*), sum(b), max(a) FROM t WHERE b > 100",
        from: &[Item::Table],
        condition: Some(Part::Above(2, 1, 100)),
        aggregates: &[
            (Aggregate::CountRows, &[]),
            (Aggregate::Sum, &[Part::At(2, 1)]),
        ],
        items: &[Part::At(1, 0), Part::At(1, 1), Part::At(2, 0)],
        columns: 3,
        rows: "0,-,-",
        ..EMPTY
    },
    Case {
        name: "SELECT a FROM t WHERE b > 100 GROUP BY a",
        from: &[Item::Table],
        condition: Some(Part::Above(2, 1, 100)),
        keys: &[Part::At(2, 0)],
        items: &[Part::At(2, 0)],
        rows: "",
        ..EMPTY
    },
    Case {
        name: "SELECT DISTINCT a FROM t",
        from: &[Item::Table],
        items: &[Part::At(2, 0)],
        is_distinct: true,
        rows: "1;2;-",
        ..EMPTY
    },
    Case {
        name: "SELECT a FROM t ORDER BY b DESC",
        from: &[Item::Table],
        items: &[Part::At(2, 0), Part::At(2, 1)],
        order: &[RKey {
            item: 1,
            is_descending: true,
            nulls_first: true,
        }],
        rows: "2;1;2;1;-",
        ..EMPTY
    },
    Case {
        name: "SELECT a FROM t LIMIT -1",
        from: &[Item::Table],
        items: &[Part::At(2, 0)],
        limit: Some(-1),
        rows: "2201W",
        ..EMPTY
    },
];

/// One table of whatever name.
#[derive(Drop)]
struct OneTable {
    rows: Vec<Cells>,
}

impl Tables for OneTable {
    ghost table = { λ t _. t.rows.items };

    fn read<'t>(&'t self, alloc: Global, _: Name) -> Result<Vec<Lent<'t>>, AllocError> {
        lend_rows(alloc, self.rows.as_slice())
    }

    fn read_for<'t, 'e, C>(
        &'t self,
        _: Global,
        _: Name,
        _: &'e RExpr,
        _: &[Lent<'e>],
    ) -> Result<Option<Vec<Lent<'t>>>, AllocError> {
        Ok(None)
    }
}

fn number(n: Option<i32>) -> Value {
    match n {
        Some(n) => Value::Int(n),
        None => Value::Null,
    }
}

fn table(alloc: Global) -> Result<OneTable, AllocError> {
    let mut rows = Vec::new(alloc);
    for (a, b) in &ROWS {
        let mut row = List::new(alloc);
        row.push(number(*a))?;
        row.push(number(*b))?;
        rows.push(row)?;
    }
    Ok(OneTable { rows })
}

fn compared(
    alloc: Global,
    comparison: Comparison,
    first: RExpr,
    second: RExpr,
) -> Result<RExpr, AllocError> {
    Ok(RExpr::Binary {
        operator: Operator::Compare(comparison),
        operands: Boxed::new(alloc, RPair { first, second })?,
    })
}

fn expression(alloc: Global, part: Part) -> Result<RExpr, AllocError> {
    match part {
        Part::At(row, column) => Ok(RExpr::Place { row, column }),
        Part::Above(row, column, n) => compared(
            alloc,
            Comparison::Greater,
            RExpr::Place { row, column },
            RExpr::Constant(Value::Int(n)),
        ),
        Part::Same(row, column, other_row, other_column) => compared(
            alloc,
            Comparison::Equal,
            RExpr::Place { row, column },
            RExpr::Place {
                row: other_row,
                column: other_column,
            },
        ),
        Part::Number(n) => Ok(RExpr::Constant(Value::Int(n))),
        Part::Scalar => Ok(RExpr::Scalar(1)),
    }
}

fn boxed(alloc: Global, part: Option<Part>) -> Result<Option<Boxed<RExpr>>, AllocError> {
    match part {
        Some(part) => Ok(Some(Boxed::new(alloc, expression(alloc, part)?)?)),
        None => Ok(None),
    }
}

fn expressions(alloc: Global, parts: &[Part]) -> Result<List<RExpr>, AllocError> {
    let mut list = List::new(alloc);
    for part in parts {
        list.push(expression(alloc, *part)?)?;
    }
    Ok(list)
}

fn join(
    alloc: Global,
    source: RSource,
    is_left: bool,
    on: Option<Part>,
) -> Result<RJoin, AllocError> {
    Ok(RJoin {
        condition: boxed(alloc, on)?,
        source,
        is_left,
    })
}

fn pair(alloc: Global, on: Part) -> Result<RSource, AllocError> {
    let mut joins = List::new(alloc);
    joins.push(join(alloc, RSource::Table(Name::NONE), false, None)?)?;
    joins.push(join(alloc, RSource::Table(Name::NONE), false, Some(on))?)?;
    Ok(RSource::Joined(joins))
}

fn joined(alloc: Global, item: Item) -> Result<RJoin, AllocError> {
    match item {
        Item::Table => join(alloc, RSource::Table(Name::NONE), false, None),
        Item::Derived => join(alloc, RSource::Query(0), false, None),
        Item::Left(on) => join(alloc, RSource::Table(Name::NONE), true, Some(on)),
        Item::LeftPair(inside, on) => join(alloc, pair(alloc, inside)?, true, Some(on)),
    }
}

fn joins(alloc: Global, items: &[Item]) -> Result<List<RJoin>, AllocError> {
    let mut list = List::new(alloc);
    for item in items {
        list.push(joined(alloc, *item)?)?;
    }
    Ok(list)
}

fn groups(alloc: Global, case: &Case) -> Result<Option<RGroups>, AllocError> {
    if case.keys.is_empty() && case.aggregates.is_empty() {
        return Ok(None);
    }
    let mut aggregates = List::new(alloc);
    for (aggregate, arguments) in case.aggregates {
        aggregates.push(RAggregate {
            aggregate: *aggregate,
            arguments: expressions(alloc, arguments)?,
        })?;
    }
    Ok(Some(RGroups {
        keys: expressions(alloc, case.keys)?,
        aggregates,
        having: boxed(alloc, case.having)?,
    }))
}

fn heads(alloc: Global, count: usize) -> Result<List<Head>, AllocError> {
    let mut list = List::new(alloc);
    for _head in 0..count {
        list.push(Head {
            name: Name::NONE,
            ty: Ty::Int,
        })?;
    }
    Ok(list)
}

fn count(alloc: Global, n: Option<i32>) -> Result<Option<Boxed<RExpr>>, AllocError> {
    match n {
        Some(n) => boxed(alloc, Some(Part::Number(n))),
        None => Ok(None),
    }
}

fn query(alloc: Global, case: &Case) -> Result<RQuery, AllocError> {
    let from = joins(alloc, case.from)?;
    let condition = boxed(alloc, case.condition)?;
    let groups = Held::new(groups(alloc, case)?);
    let items = expressions(alloc, case.items)?;
    let heads = heads(alloc, case.columns)?;
    let order = List::from_slice(alloc, case.order)?;
    let limit = count(alloc, case.limit)?;
    let offset = count(alloc, case.offset)?;
    Ok(RQuery {
        from,
        condition,
        groups: groups.into_inner(),
        items,
        heads,
        is_distinct: case.is_distinct,
        order,
        limit,
        offset,
    })
}

fn statement(alloc: Global, case: &Case) -> Result<Vec<RQuery>, AllocError> {
    let mut queries = Vec::new(alloc);
    queries.push(query(alloc, &DERIVED)?)?;
    queries.push(query(alloc, &SCALAR)?)?;
    queries.push(query(alloc, case)?)?;
    Ok(queries)
}

fn add_value(alloc: Global, text: &mut Vec<u8>, v: &Value) -> Result<(), AllocError> {
    match v {
        Value::Int(n) => text.extend_from_slice(n.to_string(alloc)?.as_bytes()),
        Value::Big(n) => text.extend_from_slice(n.to_string(alloc)?.as_bytes()),
        _ => text.extend_from_slice(b"-"),
    }
}

fn add_row(alloc: Global, text: &mut Vec<u8>, row: &[Value]) -> Result<(), AllocError> {
    let mut is_first = true;
    for v in row {
        if !is_first {
            text.extend_from_slice(b",")?;
        }
        add_value(alloc, text, v)?;
        is_first = false;
    }
    Ok(())
}

fn text_of(alloc: Global, rows: &[Cells]) -> Result<Vec<u8>, AllocError> {
    let mut text = Vec::new(alloc);
    let mut is_first = true;
    for row in rows {
        if !is_first {
            text.extend_from_slice(b";")?;
        }
        add_row(alloc, &mut text, row.as_slice())?;
        is_first = false;
    }
    Ok(text)
}

fn answer(alloc: Global, case: &Case) -> Result<Vec<u8>, AllocError> {
    let table = table(alloc)?;
    let queries = statement(alloc, case)?;
    let frame = [Lent { cells: &[] }];
    match run(
        alloc,
        queries.as_slice(),
        &table,
        2,
        &frame,
        &mut NoRoutines,
    ) {
        Ok(rows) => text_of(alloc, rows.as_slice()),
        Err(Unsettled::Fails(state)) => Vec::from_slice(alloc, &state.code),
        Err(Unsettled::Memory) => Vec::from_slice(alloc, b"no memory"),
    }
}

fn is_so(alloc: Global, case: &Case) -> bool {
    match answer(alloc, case) {
        Ok(text) => text.as_slice() == case.rows.as_bytes(),
        Err(_) => false,
    }
}

// The first query that has other rows.
fn other(alloc: Global) -> Option<&'static str> {
    for case in &CASES {
        if !is_so(alloc, case) {
            return Some(case.name);
        }
    }
    None
}

#[test]
fn queries_have_their_rows(rt: HostRuntime) {
    assert_eq!(rt; other(rt.alloc()), None);
}

//! What is told of a few expressions and queries.

use pl_base::{List, Name, Value};
use pl_inside::{has_query, tables_read};
use pl_resolved::{RExpr, RJoin, RQuery, RSource};
use std::alloc::{AllocError, Global};

// A condition behind another: a place, or EXISTS.
fn both(alloc: Global, has_exists: bool) -> Result<RExpr, AllocError> {
    let mut parts = List::new(alloc);
    parts.push(RExpr::Constant(Value::Bool(true)))?;
    if has_exists {
        parts.push(RExpr::Exists(0))?;
    } else {
        parts.push(RExpr::Place { row: 0, column: 0 })?;
    }
    Ok(RExpr::And(parts))
}

fn is_told(alloc: Global, has_exists: bool) -> bool {
    match both(alloc, has_exists) {
        Ok(e) => has_query::<()>(&e) == has_exists,
        Err(_) => false,
    }
}

#[test]
fn a_query_inside_is_found_and_none_is_made_up(rt: HostRuntime) {
    assert!(rt; is_told(rt.alloc(), true));
    assert!(rt; is_told(rt.alloc(), false));
}

fn name(text: &str) -> Name {
    Name::of(text).unwrap_or(Name::NONE)
}

fn join(source: RSource) -> RJoin {
    RJoin {
        source,
        is_left: false,
        condition: None,
    }
}

// SELECT FROM t, (u CROSS JOIN t)
fn query(alloc: Global) -> Result<RQuery, AllocError> {
    let mut inner = List::new(alloc);
    inner.push(join(RSource::Table(name("u"))))?;
    inner.push(join(RSource::Table(name("t"))))?;
    let mut from = List::new(alloc);
    from.push(join(RSource::Table(name("t"))))?;
    from.push(join(RSource::Joined(inner)))?;
    Ok(RQuery {
        from,
        condition: None,
        groups: None,
        items: List::new(alloc),
        heads: List::new(alloc),
        is_distinct: false,
        order: List::new(alloc),
        limit: None,
        offset: None,
    })
}

fn names(alloc: Global) -> Result<Vec<Name>, AllocError> {
    let mut queries = List::new(alloc);
    queries.push(query(alloc)?)?;
    tables_read::<()>(alloc, queries.as_slice())
}

fn are_t_and_u(names: &[Name]) -> bool {
    match names {
        [first, second] => *first == name("t") && *second == name("u"),
        _ => false,
    }
}

#[test]
fn each_table_is_named_once(rt: HostRuntime) {
    let told = match names(rt.alloc()) {
        Ok(list) => are_t_and_u(list.as_slice()),
        Err(_) => false,
    };
    assert!(rt; told);
}

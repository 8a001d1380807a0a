//! Queries against the answers of a PostgreSQL server.

use crate::calls::CALLS;
use crate::cases::CASES;
use crate::tables::{catalog, catalog_with_routines, no_scope, state_of};
use pl_base::{Memory, Name, Ty};
use pl_catalog::Catalog;
use pl_expr_parse::parse_query;
use pl_lex::lex;
use pl_resolved::Head;
use pl_scope::resolve_query;
use pl_tree::Query;
use std::alloc::Global;

pub(crate) fn type_name(ty: &Ty) -> &'static [u8] {
    match ty {
        Ty::Unknown => b"unknown",
        Ty::Int => b"integer",
        Ty::Big => b"bigint",
        Ty::Text => b"text",
        Ty::Bool => b"boolean",
        Ty::Row(_) => b"row",
        Ty::Rec => b"record",
        Ty::Void => b"void",
        Ty::Trigger => b"trigger",
    }
}

pub(crate) fn push_head(out: &mut Vec<u8>, head: &Head) -> Result<(), Memory> {
    if !out.is_empty() {
        out.push(b',')?;
    }
    if head.name == Name::NONE {
        out.extend_from_slice(b"?column?")?;
    } else {
        out.extend_from_slice(head.name.as_bytes())?;
    }
    out.push(b' ')?;
    out.extend_from_slice(type_name(&head.ty))?;
    Ok(())
}

fn heads(alloc: Global, heads: &[Head]) -> Result<Vec<u8>, Memory> {
    let mut out = Vec::new(alloc);
    for head in heads {
        push_head(&mut out, head)?;
    }
    Ok(out)
}

fn answer(alloc: Global, catalog: &Catalog, query: &Query) -> Result<Vec<u8>, Memory> {
    match resolve_query(alloc, catalog, &no_scope(alloc), query) {
        Ok(queries) => match queries.as_slice() {
            [.., query] => heads(alloc, query.heads.as_slice()),
            [] => Ok(Vec::new(alloc)),
        },
        Err(fail) => state_of(alloc, fail),
    }
}

// What the query means, as the table writes it.
fn verdict(alloc: Global, catalog: &Catalog, text: &str) -> Result<Vec<u8>, Memory> {
    let Ok(tokens) = lex(alloc, text) else {
        return Ok(Vec::from_slice(alloc, b"no tokens")?);
    };
    let Ok(query) = parse_query(alloc, tokens.as_slice()) else {
        return Ok(Vec::from_slice(alloc, b"no query")?);
    };
    answer(alloc, catalog, &query)
}

fn is_so(alloc: Global, catalog: &Catalog, text: &str, expected: &str) -> bool {
    match verdict(alloc, catalog, text) {
        Ok(words) => words.as_slice() == expected.as_bytes(),
        Err(_) => false,
    }
}

fn is_told(alloc: Global, catalog: &Catalog, line: &str) -> bool {
    match line.split_once("  ->  ") {
        Some((text, expected)) => is_so(alloc, catalog, text, expected),
        None => line.is_empty(),
    }
}

// The first line whose query means something else.
fn other(
    alloc: Global,
    catalog: Result<Catalog, Memory>,
    table: &'static str,
) -> Option<&'static str> {
    let Ok(catalog) = catalog else {
        return Some("no catalogue");
    };
    for line in table.lines() {
        if !is_told(alloc, &catalog, line) {
            return Some(line);
        }
    }
    None
}

#[test]
fn queries_mean_what_the_server_says(rt: HostRuntime) {
    let alloc = rt.alloc();
    assert_eq!(rt; other(alloc, catalog(alloc), CASES), None);
}

#[test]
fn calls_mean_what_the_server_says(rt: HostRuntime) {
    let alloc = rt.alloc();
    assert_eq!(rt; other(alloc, catalog_with_routines(alloc), CALLS), None);
}

//! Changes of tables with the places that names become, worked out by hand. Each SQLSTATE but 54011
//! is the one that a PostgreSQL server gives, unless two failures stand in a change.

use crate::places::{is, items_of, state};
use crate::tables::{catalog_with_defaults, catalog_with_routines, no_scope};
use crate::trees::{Words, write_tree};
use pl_base::{Boxed, Memory};
use pl_catalog::Catalog;
use pl_lex::lex;
use pl_names::Scope;
use pl_resolved::RExpr;
use pl_sql_parse::parse_command;
use pl_targets::{RChange, RRow, RRows, RWhat, resolve_delete, resolve_insert, resolve_update};
use pl_tree::Command;
use pl_typing::ScopeFail;
use std::alloc::Global;

/// Lines `change  ->  what it is resolved to`: the items of each query inside it, then the values of
/// the columns, WHERE and RETURNING, as `write_tree` writes them.
const CHANGES: &str = r#"
DELETE FROM t  ->  DELETE
DELETE FROM t x WHERE x.a = b RETURNING *  ->  DELETE WHERE (2.0 = 2.1) RETURNING 2.0 2.1 2.2 2.3
DELETE FROM t WHERE EXISTS (SELECT c FROM n WHERE c = a)  ->  4.0 | DELETE WHERE (EXISTS #0)
DELETE FROM t RETURNING (SELECT max(a) FROM u)  ->  3.0 | DELETE RETURNING #0
DELETE FROM t x WHERE t.a = 1  ->  42P01
DELETE FROM missing WHERE z  ->  42P01
DELETE FROM t WHERE z RETURNING missing.*  ->  42703
DELETE FROM t WHERE a RETURNING z  ->  42804
DELETE FROM t WHERE count(*) = 1  ->  42803
DELETE FROM t RETURNING max(a)  ->  42803
DELETE FROM t RETURNING *, *, *, *, *, *, *, *, *, *, *, *, *, *, *, *  ->  DELETE RETURNING 2.0 2.1 2.2 2.3 2.0 2.1 2.2 2.3 2.0 2.1 2.2 2.3 2.0 2.1 2.2 2.3 2.0 2.1 2.2 2.3 2.0 2.1 2.2 2.3 2.0 2.1 2.2 2.3 2.0 2.1 2.2 2.3 2.0 2.1 2.2 2.3 2.0 2.1 2.2 2.3 2.0 2.1 2.2 2.3 2.0 2.1 2.2 2.3 2.0 2.1 2.2 2.3 2.0 2.1 2.2 2.3 2.0 2.1 2.2 2.3 2.0 2.1 2.2 2.3
DELETE FROM t RETURNING *, *, *, *, *, *, *, *, *, *, *, *, *, *, *, *, 1  ->  54011
UPDATE t SET a = a + 1, s = b WHERE f RETURNING a  ->  UPDATE 0=(2.0 + 1) 2=2.1::text WHERE 2.3 RETURNING 2.0
UPDATE t SET a = '7', b = a, f = NULL  ->  UPDATE 0='7'::integer 1=2.0::bigint 3=NULL::boolean
UPDATE t SET a = b, s = f  ->  UPDATE 0=2.1::integer 2=2.3::text
UPDATE d SET v = DEFAULT, k = DEFAULT  ->  UPDATE 1='d' 0=NULL
UPDATE t SET a = 1, a = 2  ->  42601
UPDATE t SET z = 1  ->  42703
UPDATE t SET f = 1  ->  42804
UPDATE t SET b = s  ->  42804
UPDATE t SET a = true, s = z  ->  42804
UPDATE t SET a = true WHERE z  ->  42804
UPDATE t SET a = z, z = 1  ->  42703
UPDATE t SET a = missing.q, a = 1  ->  42P01
UPDATE t SET a = nofun(1), z = 1  ->  42883
UPDATE t SET z = nofun(1)  ->  42703
UPDATE t x SET a = t.a  ->  42P01
UPDATE t SET a = count(*)  ->  42803
UPDATE t SET a = 1 WHERE z RETURNING missing.*  ->  42703
INSERT INTO t VALUES (1, 2, 'x', true)  ->  INSERT (1 2::bigint 'x' true)
INSERT INTO t (s, a) VALUES ('x', 1), (NULL, '7') RETURNING a, s  ->  INSERT (1 NULL 'x' NULL) ('7'::integer NULL NULL NULL) RETURNING 2.0 2.2
INSERT INTO t VALUES (1), (2)  ->  INSERT (1 NULL NULL NULL) (2 NULL NULL NULL)
INSERT INTO n VALUES ((SELECT max(c) FROM n))  ->  2.0 | INSERT (#0)
INSERT INTO d VALUES (1)  ->  INSERT (1 'd')
INSERT INTO d DEFAULT VALUES  ->  INSERT (NULL 'd')
INSERT INTO d (v, k) VALUES (DEFAULT, DEFAULT), ('x', 1)  ->  INSERT (NULL 'd') (1 'x')
INSERT INTO t (a, s) SELECT c, c FROM n  ->  2.0 2.0 | INSERT #0 (2.0 NULL 2.1::text NULL)
INSERT INTO t SELECT '7', NULL  ->  '7' NULL | INSERT #0 (2.0::integer 2.1::bigint NULL NULL)
INSERT INTO n SELECT a FROM t RETURNING c + 1, (SELECT c)  ->  2.0 | 2.0 | INSERT #0 (2.0) RETURNING (2.0 + 1) #1
INSERT INTO missing (z) VALUES (q)  ->  42P01
INSERT INTO t (a, a) VALUES (1, 2)  ->  42701
INSERT INTO t (a, z) VALUES (q, 2)  ->  42703
INSERT INTO t (a) VALUES (a)  ->  42703
INSERT INTO t (a) VALUES (t.a)  ->  42P01
INSERT INTO t (a) VALUES (count(*))  ->  42803
INSERT INTO t VALUES (true)  ->  42804
INSERT INTO t VALUES (true, z)  ->  42804
INSERT INTO t VALUES (1), (2, 3)  ->  42601
INSERT INTO t VALUES (1, 2), (3)  ->  42601
INSERT INTO t (a) VALUES (1, 2)  ->  42601
INSERT INTO t (a, b) VALUES (1)  ->  42601
INSERT INTO n VALUES (1, z)  ->  42703
INSERT INTO d VALUES (1, 'x', DEFAULT)  ->  42601
INSERT INTO d (k) DEFAULT VALUES  ->  42601
INSERT INTO n SELECT s FROM t  ->  42804
INSERT INTO n SELECT '7'::text  ->  42804
INSERT INTO n SELECT q FROM (SELECT '7' AS q) x  ->  42804
INSERT INTO n SELECT a, b FROM t  ->  42601
INSERT INTO t (a, b) SELECT c FROM n  ->  42601
INSERT INTO t AS x (a) VALUES (1) RETURNING t.a  ->  42P01
INSERT INTO t (a) VALUES (1) RETURNING max(a)  ->  42803
"#;

/// Changes that call routines.
const CALLS: &str = r#"
INSERT INTO t (a, b, s) VALUES (one(1), one(2), said('x'))  ->  INSERT ((one 1) (one 2)::bigint (said 'x') NULL)
INSERT INTO t (s) VALUES (one(1)) RETURNING one(a)  ->  INSERT (NULL NULL (one 1)::text NULL) RETURNING (one 2.0)
INSERT INTO t (a) VALUES (one(1)), (does(1))  ->  42809
INSERT INTO t (a) VALUES (holds(true))  ->  42804
INSERT INTO t (a) VALUES (nothing(1))  ->  42804
INSERT INTO t (a) VALUES (one(true))  ->  42883
INSERT INTO t (a) SELECT one(c) FROM n  ->  (one 2.0) | INSERT #0 (2.0 NULL NULL NULL)
UPDATE t SET a = one(a), b = one(a) WHERE holds(f)  ->  UPDATE 0=(one 2.0) 1=(one 2.0)::bigint WHERE (holds 2.3)
UPDATE t SET a = does(a)  ->  42809
UPDATE t SET a = 1 WHERE one(a)  ->  42804
DELETE FROM t WHERE said(s) = 'x' RETURNING big(a)  ->  DELETE WHERE ((said 2.2) = 'x') RETURNING (big 2.0::bigint)
DELETE FROM t WHERE absent(a)  ->  42883
"#;

fn write_where(out: &mut Words, condition: &Option<Boxed<RExpr>>) {
    if let Some(condition) = condition {
        out.push(b" WHERE ");
        write_tree(out, condition.get());
    }
}

fn write_row(out: &mut Words, values: &[RExpr]) {
    out.part();
    out.push(b"(");
    for (at, value) in values.iter().enumerate() {
        if at != 0 {
            out.push(b" ");
        }
        write_tree(out, value);
    }
    out.push(b")");
}

fn write_rows(out: &mut Words, rows: &[RRow]) {
    for row in rows {
        write_row(out, row.values.as_slice());
    }
}

fn write_set(out: &mut Words, columns: &[usize], values: &[RExpr]) {
    for (at, value) in values.iter().enumerate() {
        out.part();
        if let Some(column) = columns.get(at) {
            out.place(*column);
        }
        out.push(b"=");
        write_tree(out, value);
    }
}

fn write_insert(out: &mut Words, rows: &RRows) {
    out.push(b"INSERT");
    match rows {
        RRows::Values(rows) => write_rows(out, rows.as_slice()),
        RRows::Query { query, values } => {
            out.push(b" #");
            out.place(*query);
            write_row(out, values.as_slice());
        }
    }
}

fn write_what(out: &mut Words, what: &RWhat) {
    match what {
        RWhat::Insert(rows) => write_insert(out, rows),
        RWhat::Update {
            columns,
            values,
            condition,
        } => {
            out.push(b"UPDATE");
            write_set(out, columns.as_slice(), values.as_slice());
            write_where(out, condition);
        }
        RWhat::Delete { condition } => {
            out.push(b"DELETE");
            write_where(out, condition);
        }
    }
}

fn write_change(alloc: Global, change: &RChange) -> Words {
    let mut out = items_of(alloc, change.queries.as_slice());
    if !change.queries.is_empty() {
        out.push(b" |");
    }
    out.part();
    write_what(&mut out, &change.what);
    if !change.returning.is_empty() {
        out.push(b" RETURNING");
    }
    for item in change.returning.as_slice() {
        out.part();
        write_tree(&mut out, item);
    }
    out
}

fn words_of(alloc: Global, resolved: Result<RChange, ScopeFail>) -> Result<Words, Memory> {
    match resolved {
        Ok(change) => Ok(write_change(alloc, &change)),
        Err(fail) => state(alloc, fail),
    }
}

fn changes(
    alloc: Global,
    catalog: &Catalog,
    scope: &Scope,
    command: &Command,
) -> Result<Words, Memory> {
    match command {
        Command::Insert(i) => words_of(alloc, resolve_insert(alloc, catalog, scope, i)),
        Command::Update(u) => words_of(alloc, resolve_update(alloc, catalog, scope, u)),
        Command::Delete(d) => words_of(alloc, resolve_delete(alloc, catalog, scope, d)),
        _ => Ok(Words::new(alloc)),
    }
}

fn is_change(alloc: Global, catalog: &Catalog, text: &str, expected: &str) -> bool {
    let Ok(tokens) = lex(alloc, text) else {
        return false;
    };
    match parse_command(alloc, tokens.as_slice(), text) {
        Ok(command) => is(
            changes(alloc, catalog, &no_scope(alloc), &command),
            expected,
        ),
        Err(_) => false,
    }
}

fn is_told(alloc: Global, catalog: &Catalog, line: &str) -> bool {
    match line.split_once("  ->  ") {
        Some((text, expected)) => is_change(alloc, catalog, text, expected),
        None => line.is_empty(),
    }
}

// The first line whose change is another.
fn other(
    alloc: Global,
    catalog: Result<Catalog, Memory>,
    table: &'static str,
) -> Option<&'static str> {
    let Ok(catalog) = catalog else {
        return Some("no catalogue");
    };
    for line in table.lines() {
        if !is_told(alloc, &catalog, line) {
            return Some(line);
        }
    }
    None
}

#[test]
fn changes_have_a_value_for_each_column(rt: HostRuntime) {
    let alloc = rt.alloc();
    assert_eq!(rt; other(alloc, catalog_with_defaults(alloc), CHANGES), None);
}

#[test]
fn changes_call_routines(rt: HostRuntime) {
    let alloc = rt.alloc();
    assert_eq!(rt; other(alloc, catalog_with_routines(alloc), CALLS), None);
}

//! The places that names become, the casts that nobody wrote and the types that settle, worked out by
//! hand: row 0 has the variables and parameters, each query a row of its aggregates, and then one for
//! each item of its FROM.

use crate::columns::push_head;
use crate::tables::{catalog, catalog_with_routines, no_scope, state_of, three_blocks};
use crate::trees::{Words, write_tree};
use pl_base::Memory;
use pl_catalog::Catalog;
use pl_expr_parse::{parse_expr, parse_query};
use pl_lex::lex;
use pl_names::Scope;
use pl_resolved::{Head, RQuery};
use pl_scope::{ResolvedExpr, resolve_expr, resolve_query};
use pl_tree::{Expr, Query};
use pl_typing::ScopeFail;
use std::alloc::Global;

/// Lines `query  ->  items`, of each query inside it and then of the query, as `write_tree` writes
/// them.
const PLACES: &str = r#"
SELECT a FROM t  ->  2.0
SELECT b FROM t  ->  2.1
SELECT c, f FROM n, t  ->  2.0 3.3
SELECT x.a, y.b FROM t x JOIN t y ON true  ->  2.0 3.1
SELECT y.b, z.c FROM t x JOIN (t y JOIN n z ON true) ON true  ->  3.1 4.0
SELECT * FROM n, u  ->  2.0 3.0 3.1 3.2
SELECT u.*, c FROM u LEFT JOIN n ON true WHERE a = n.c  ->  42702
SELECT u.*, n.c FROM u LEFT JOIN n ON true WHERE a = n.c  ->  2.0 2.1 2.2 3.0
SELECT a::text, 1, a + 1 FROM t  ->  2.0::text 1 (2.0 + 1)
SELECT count(*), sum(a) FROM t  ->  1.0 1.1
SELECT count(*), count(a), count(*) FROM t  ->  1.0 1.1 1.0
SELECT 1 FROM t HAVING count(*) = 1  ->  1
SELECT b FROM t GROUP BY b HAVING sum(a) > 1 ORDER BY max(a)  ->  2.1 1.1
SELECT a FROM t ORDER BY b, a, b  ->  2.0 2.1
SELECT a AS b FROM t ORDER BY b, t.b  ->  2.0 2.1
SELECT (SELECT c FROM n) FROM t  ->  4.0 | #0
SELECT (SELECT t.b FROM n) FROM t  ->  2.1 | #0
SELECT (SELECT b FROM n) FROM u, t  ->  3.1 | #0
SELECT (SELECT count(*) FROM n), sum(a) FROM t  ->  3.0 | #0 1.0
SELECT x.c FROM (SELECT c FROM n) x  ->  2.0 | 2.0
SELECT x.c FROM t, (SELECT c FROM n) x  ->  2.0 | 3.0
SELECT 1 FROM t x JOIN t y ON EXISTS (SELECT c FROM n) CROSS JOIN u  ->  5.0 | 1
SELECT a FROM t x WHERE EXISTS (SELECT x.b, c FROM n) LIMIT (SELECT c FROM n)  ->  2.1 4.0 | 2.0 | 2.0
SELECT (SELECT (SELECT x.a FROM n) FROM u) FROM t x  ->  2.0 | #0 | #1
SELECT a + b, a = b, a < '1' FROM t  ->  (2.0 + 2.1) (2.0 = 2.1) (2.0 < '1'::integer)
SELECT b + '1' + a, '1' + a + b FROM t  ->  (2.1 + '1'::bigint + 2.0) ('1'::integer + 2.0 + 2.1)
SELECT a + b * 2 - 2147483648 FROM t  ->  (2.0 + (2.1 * 2) - 2147483648L)
SELECT a || s || NULL, s LIKE 'x' FROM t  ->  (2.0 || 2.2 || NULL) (2.2 LIKE 'x')
SELECT NOT f, NOT NOT f, s NOT LIKE 'x' FROM t  ->  (NOT 2.3) (NOT NOT 2.3) (NOT (2.2 LIKE 'x'))
SELECT -a, - -b, + +a, + -a FROM t  ->  (- 2.0) (- - 2.1) (+ 2.0) (- 2.0)
SELECT f AND 'true' AND NOT f, f OR a = 1 FROM t  ->  (AND 2.3 'true'::boolean (NOT 2.3)) (OR 2.3 (2.0 = 1))
SELECT a IS NULL, a IS DISTINCT FROM b, a IS NOT DISTINCT FROM '1' FROM t  ->  (IS 2.0) (2.0 DISTINCT 2.1) (2.0 NOT DISTINCT '1'::integer)
SELECT coalesce(a, b), greatest(a, 5) FROM t  ->  (COALESCE bigint 2.0 2.1) (GREATEST integer 2.0 5)
SELECT CASE WHEN f THEN a ELSE b END FROM t  ->  (CASE bigint WHEN 2.3 THEN 2.0 ELSE 2.1)
SELECT CASE a WHEN '1' THEN 'x' END FROM t  ->  (CASE text OF 2.0 WHEN '1'::integer THEN 'x')
SELECT a IN (1, b), a NOT IN (1, 2) FROM t  ->  (IN bigint 2.0 1 2.1) (NOT (IN integer 2.0 1 2))
SELECT a BETWEEN b AND '9', a NOT BETWEEN 1 AND 2 FROM t  ->  (BETWEEN 2.0 2.1 '9'::integer) (NOT (BETWEEN 2.0 1 2))
SELECT nullif(a, '1'), mod(b, '2'), repeat(s, '2') FROM t  ->  (NULLIF 2.0 '1'::integer) (FUNCTION 2.1 '2'::bigint) (FUNCTION 2.2 '2'::integer)
SELECT ROW(a, 'x'), EXISTS (SELECT c FROM n) FROM t  ->  4.0 | (ROW 2.0 'x') (EXISTS #0)
SELECT a IN (SELECT b FROM t), b IN (SELECT a FROM t) FROM t  ->  4.1 | 4.0 | (IN bigint 2.0 #0) (IN bigint 2.1 #1)
SELECT x.a + y.a FROM t x JOIN u y ON x.a = y.a AND EXISTS (SELECT y.g)  ->  3.2 | (2.0 + 3.0)
SELECT 1 FROM (SELECT 1), (SELECT 2)  ->  1 | 2 | 1
SELECT count((SELECT 1)), count((SELECT a)) FROM t  ->  1 | 2.0 | 1.0 1.1
SELECT (SELECT 1), sum((SELECT c FROM n)) AS x FROM t GROUP BY x  ->  42803
SELECT (SELECT sum(t.a) FROM n) FROM t  ->  0A000
SELECT (SELECT sum((SELECT t.a)) FROM n) FROM t  ->  0A000
SELECT (SELECT sum(t.a + c) FROM n) FROM t  ->  3.0 | #0
SELECT (SELECT 1 FROM n WHERE sum(t.a) = 1) FROM t  ->  42803
SELECT a FROM t GROUP BY a::integer  ->  42803
SELECT (f AND a = 1) AND b = 1 FROM t GROUP BY f AND a = 1, b  ->  (AND (AND 2.3 (2.0 = 1)) (2.1 = 1))
SELECT - +a FROM t GROUP BY +a  ->  42803
SELECT (SELECT a + 1 + c FROM n) FROM t GROUP BY a + 1  ->  (2.0 + 1 + 4.0) | #0
SELECT '5' IN (b + 3, '05') FROM t  ->  (IN bigint '5' (2.1 + 3) '05')
SELECT '1' IN (a, f) FROM t  ->  42883
SELECT '5' BETWEEN 1 AND '10'  ->  (BETWEEN '5'::integer 1 '10'::integer)
SELECT c FROM (n)  ->  2.0
SELECT count()  ->  42883
SELECT abs('5')  ->  42883
SELECT sum('5')  ->  42883
SELECT NULL::t  ->  0A000
SELECT t.*, t.*, t.*, t.*, t.*, t.*, t.*, t.*, t.*, t.*, t.*, t.*, t.*, t.*, t.*, t.*, 1 FROM t  ->  54011
"#;

/// Lines `expression  ->  tree and column`, in the blocks of `three_blocks`.
const VARIABLES: &str = r#"
x  ->  0.4 x integer
y  ->  0.5 y text
w  ->  0.0 w integer
o.x  ->  0.2 x integer
i.x  ->  0.4 x integer
i.y  ->  0.5 y text
i.w  ->  0.0 w integer
x + 1  ->  (0.4 + 1) ?column? integer
o.x + $1  ->  (0.2 + 0.0) ?column? integer
$1  ->  0.0 ?column? integer
$2  ->  42P02
z  ->  42703
o.w  ->  42703
p.x  ->  42P01
a  ->  42703
count(*)  ->  42803
count(x)  ->  42803
nosuch(x)  ->  42883
x::missing  ->  42704
x::text  ->  0.4::text x text
'1'::text::integer  ->  '1'::text::integer text integer
CASE WHEN true THEN 1 END::text  ->  (CASE integer WHEN true THEN 1)::text case text
(SELECT x FROM n)  ->  #0 x integer
(SELECT c FROM n WHERE c = x)  ->  #0 c integer
(SELECT a FROM t WHERE x = a LIMIT $1)  ->  #0 a integer
(SELECT x FROM (SELECT 1 AS x) q)  ->  42702
(SELECT q.x FROM (SELECT 1 AS x) q)  ->  #1 x integer
(SELECT 1)::text  ->  #0::text text text
EXISTS (SELECT t.*, t.*, t.*, t.*, t.*, t.*, t.*, t.*, t.*, t.*, t.*, t.*, t.*, t.*, t.*, t.* FROM t)  ->  (EXISTS #0) exists boolean
"#;

/// Calls of routines. The SQLSTATE of a call that no expression may hold is not the server's.
const CALLED: &str = r#"
SELECT nil(), one(1), one('1'), one(NULL)  ->  (nil) (one 1) (one '1'::integer) (one NULL::integer)
SELECT big(1), big(a), big(b), big('1') FROM t  ->  (big 1::bigint) (big 2.0::bigint) (big 2.1) (big '1'::bigint)
SELECT said('x'), said(NULL), said(s) FROM t  ->  (said 'x') (said NULL) (said 2.2)
SELECT mixed(a, a, s, f) FROM t  ->  (mixed 2.0 2.0::bigint 2.2 2.3)
SELECT mixed('1', '2', 'x', 'true')  ->  (mixed '1'::integer '2'::bigint 'x' 'true'::boolean)
SELECT big(one(abs(a))) FROM t  ->  (big (one (FUNCTION 2.0))::bigint)
SELECT one(1) + big(2)  ->  ((one 1) + (big 2::bigint))
SELECT coalesce(one(1), big(1))  ->  (COALESCE bigint (one 1) (big 1::bigint))
SELECT nothing(1)  ->  (nothing 1)
SELECT one((SELECT c FROM n))  ->  3.0 | (one #0)
SELECT (SELECT one(t.a) FROM n) FROM t  ->  (one 2.0) | #0
SELECT one(max(a)) FROM t  ->  (one 1.0)
SELECT one(a), a FROM t GROUP BY one(a), a  ->  (one 2.0) 2.0
SELECT x.x, one(x.x) FROM big(1) x JOIN one(2) y ON true  ->  42883
SELECT x.x, big(y.y) FROM big(1) x JOIN one(2) y ON true  ->  2.0 (big 3.0::bigint)
SELECT fires()  ->  0A000
SELECT * FROM fires()  ->  0A000
SELECT fires(1)  ->  42883
SELECT many(1)  ->  0A000
SELECT * FROM many(1)  ->  0A000
SELECT many()  ->  42883
SELECT * FROM pairs()  ->  0A000
SELECT passes(1)  ->  0A000
SELECT passes(z)  ->  42703
SELECT 1 FROM t WHERE many(1) = z  ->  0A000
"#;

/// The items of each query.
pub(crate) fn items_of(alloc: Global, queries: &[RQuery]) -> Words {
    let mut out = Words::new(alloc);
    for (at, query) in queries.iter().enumerate() {
        if at != 0 {
            out.push(b" |");
        }
        for item in query.items.as_slice() {
            out.part();
            write_tree(&mut out, item);
        }
    }
    out
}

fn expression(alloc: Global, resolved: &ResolvedExpr) -> Result<Words, Memory> {
    let mut out = Words::new(alloc);
    write_tree(&mut out, resolved.typed.tree.get());
    let mut column = Vec::new(alloc);
    let head = Head {
        name: resolved.typed.head,
        ty: resolved.typed.ty,
    };
    push_head(&mut column, &head)?;
    out.part();
    out.push(column.as_slice());
    Ok(out)
}

pub(crate) fn state(alloc: Global, fail: ScopeFail) -> Result<Words, Memory> {
    let state = state_of(alloc, fail)?;
    let mut out = Words::new(alloc);
    out.push(state.as_slice());
    Ok(out)
}

fn places(alloc: Global, catalog: &Catalog, query: &Query) -> Result<Words, Memory> {
    match resolve_query(alloc, catalog, &no_scope(alloc), query) {
        Ok(queries) => Ok(items_of(alloc, queries.as_slice())),
        Err(fail) => state(alloc, fail),
    }
}

fn variables(alloc: Global, catalog: &Catalog, scope: &Scope, e: &Expr) -> Result<Words, Memory> {
    match resolve_expr(alloc, catalog, scope, e) {
        Ok(resolved) => expression(alloc, &resolved),
        Err(fail) => state(alloc, fail),
    }
}

pub(crate) fn is(words: Result<Words, Memory>, expected: &str) -> bool {
    match words {
        Ok(words) => words.text() == expected.as_bytes(),
        Err(_) => false,
    }
}

fn are_places(alloc: Global, catalog: &Catalog, text: &str, expected: &str) -> bool {
    let Ok(tokens) = lex(alloc, text) else {
        return false;
    };
    match parse_query(alloc, tokens.as_slice()) {
        Ok(query) => is(places(alloc, catalog, &query), expected),
        Err(_) => false,
    }
}

fn is_variable(
    alloc: Global,
    catalog: &Catalog,
    scope: &Scope,
    text: &str,
    expected: &str,
) -> bool {
    let Ok(tokens) = lex(alloc, text) else {
        return false;
    };
    match parse_expr(alloc, tokens.as_slice()) {
        Ok(e) => is(variables(alloc, catalog, scope, &e), expected),
        Err(_) => false,
    }
}

fn are_told(alloc: Global, catalog: &Catalog, line: &str) -> bool {
    match line.split_once("  ->  ") {
        Some((text, expected)) => are_places(alloc, catalog, text, expected),
        None => line.is_empty(),
    }
}

// The first line whose query has other places.
fn other_places(
    alloc: Global,
    catalog: Result<Catalog, Memory>,
    table: &'static str,
) -> Option<&'static str> {
    let Ok(catalog) = catalog else {
        return Some("no catalogue");
    };
    for line in table.lines() {
        if !are_told(alloc, &catalog, line) {
            return Some(line);
        }
    }
    None
}

fn is_told(alloc: Global, catalog: &Catalog, scope: &Scope, line: &str) -> bool {
    match line.split_once("  ->  ") {
        Some((text, expected)) => is_variable(alloc, catalog, scope, text, expected),
        None => line.is_empty(),
    }
}

// The first line whose expression has other places.
fn other_variable(alloc: Global, table: &'static str) -> Option<&'static str> {
    let Ok(catalog) = catalog(alloc) else {
        return Some("no catalogue");
    };
    let Ok(scope) = three_blocks(alloc) else {
        return Some("no scope");
    };
    for line in table.lines() {
        if !is_told(alloc, &catalog, &scope, line) {
            return Some(line);
        }
    }
    None
}

#[test]
fn names_become_places(rt: HostRuntime) {
    let alloc = rt.alloc();
    assert_eq!(rt; other_places(alloc, catalog(alloc), PLACES), None);
}

#[test]
fn arguments_are_cast(rt: HostRuntime) {
    let alloc = rt.alloc();
    assert_eq!(rt;
        other_places(alloc, catalog_with_routines(alloc), CALLED),
        None
    );
}

#[test]
fn variables_become_places(rt: HostRuntime) {
    assert_eq!(rt; other_variable(rt.alloc(), VARIABLES), None);
}

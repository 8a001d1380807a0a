//! How queries are answered, and that they leave the store alone.

use crate::report::Report;
use crate::runs::{PLAIN, answer, run_over};
use pl_base::Memory;
use pl_disk::{Area, MemoryHost};
use std::alloc::Global;

/// Scripts that end with 0, and what they print, as a PostgreSQL server answers them.
const QUERIES: [(&str, &str); 20] = [
    ("SELECT 1;", "?column?\n1\n(1 row)\n"),
    ("SELECT 1 + 1 AS two, 'x'", "two|?column?\n2|x\n(1 row)\n"),
    (
        "SELECT NULL, true, false, 'a|b', '' AS empty;",
        "?column?|?column?|?column?|?column?|empty\n|t|f|a|b|\n(1 row)\n",
    ),
    (
        "SELECT ROW(1, 'a b', NULL, true, '\"'), ROW('');",
        "row|row\n(1,\"a b\",,t,\"\"\"\")|(\"\")\n(1 row)\n",
    ),
    (
        "SELECT -7 / 2, -7 % 2, 'yes'::boolean, true::text;",
        "?column?|?column?|bool|text\n-3|-1|t|true\n(1 row)\n",
    ),
    (
        "SELECT 1 AS \"?column?\", 2 AS \"A b\";",
        "?column?|A b\n1|2\n(1 row)\n",
    ),
    ("SELECT 1 LIMIT 0;", "?column?\n(0 rows)\n"),
    ("SELECT ';' -- ;\n, 1;", "?column?|?column?\n;|1\n(1 row)\n"),
    // Errors, of names before those of values.
    (
        "SELECT 2147483647 + 1; SELECT 2147483647 + 1::bigint;",
        "ERROR:  22003: numeric_value_out_of_range\n?column?\n2147483648\n(1 row)\n",
    ),
    ("SELECT 1 / 0;", "ERROR:  22012: division_by_zero\n"),
    ("SELECT 1 / 0, x;", "ERROR:  42703: undefined_column\n"),
    ("SELECT x FROM t;", "ERROR:  42P01: undefined_table\n"),
    ("SELECT f(1);", "ERROR:  42883: undefined_function\n"),
    (
        "SELECT 'x'::integer;",
        "ERROR:  22P02: invalid_text_representation\n",
    ),
    (
        "SELECT 1 LIMIT -1;",
        "ERROR:  2201W: invalid_row_count_in_limit_clause\n",
    ),
    // Rows come in the order in which they were inserted.
    (
        "CREATE TABLE n (c integer); SELECT * FROM n; INSERT INTO n VALUES (3); \
INSERT INTO n VALUES (-1); SELECT c, c * c AS square FROM n; SELECT c FROM n ORDER BY c;",
        "CREATE TABLE\nc\n(0 rows)\nINSERT 0 1\nINSERT 0 1\nc|square\n3|9\n-1|1\n(2 rows)\n\
c\n-1\n3\n(2 rows)\n",
    ),
    (
        "CREATE TABLE n (c integer); CREATE TABLE m (d integer); INSERT INTO m VALUES (3); \
INSERT INTO n VALUES (3); INSERT INTO n VALUES (-1); SELECT * FROM n, m ORDER BY c; \
SELECT c, d FROM n LEFT JOIN m ON c = d ORDER BY c; SELECT count(*), sum(c), max(d) FROM n, m;",
        "CREATE TABLE\nCREATE TABLE\nINSERT 0 1\nINSERT 0 1\nINSERT 0 1\nc|d\n-1|3\n3|3\n(2 rows)\n\
c|d\n-1|\n3|3\n(2 rows)\ncount|sum|max\n2|2|3\n(1 row)\n",
    ),
    (
        "CREATE TABLE n (c integer); INSERT INTO n VALUES (3); INSERT INTO n VALUES (-1); \
SELECT c FROM n WHERE c IN (SELECT c FROM n WHERE c < 0); SELECT (SELECT c FROM n); \
SELECT count(*) FROM (SELECT c FROM n WHERE c < 0) AS few; SELECT c FROM n OFFSET 1;",
        "CREATE TABLE\nINSERT 0 1\nINSERT 0 1\nc\n-1\n(1 row)\nERROR:  21000: cardinality_violation\n\
count\n1\n(1 row)\nc\n-1\n(1 row)\n",
    ),
    // A query that fails in one row gives none.
    (
        "CREATE TABLE n (c integer); INSERT INTO n VALUES (3); INSERT INTO n VALUES (-1); \
SELECT 1 / (c + 1) FROM n; SELECT d FROM n; SELECT n.d FROM n; INSERT INTO n VALUES (7);",
        "CREATE TABLE\nINSERT 0 1\nINSERT 0 1\nERROR:  22012: division_by_zero\n\
ERROR:  42703: undefined_column\nERROR:  42703: undefined_column\nINSERT 0 1\n",
    ),
    (
        "CREATE TABLE n (c integer); INSERT INTO n VALUES (2); \
SELECT c, count(*) FROM n GROUP BY c HAVING count(*) > 0; SELECT c, count(*) FROM n;",
        "CREATE TABLE\nINSERT 0 1\nc|count\n2|1\n(1 row)\nERROR:  42803: grouping_error\n",
    ),
];

#[test]
fn queries_are_answered(rt: HostRuntime) {
    let alloc = rt.alloc();
    for (script, printed) in QUERIES {
        let told = answer(alloc, &PLAIN, script.as_bytes(), 0);
        assert_eq!(rt; told.text(), printed, "{script}");
    }
}

/// A text of so many bytes, as a value or as a field of a row.
pub fn long(alloc: Global, before: &str, bytes: usize, behind: &str) -> Result<Vec<u8>, Memory> {
    let mut script = Vec::from_slice(alloc, before.as_bytes())?;
    for _ in 0..bytes {
        script.push(b'x')?;
    }
    script.extend_from_slice(behind.as_bytes())?;
    Ok(script)
}

// How many bytes are printed of it, and the status.
fn length_of(alloc: Global, before: &str, bytes: usize, behind: &str) -> Report {
    let mut out = Report::new(alloc);
    match long(alloc, before, bytes, behind) {
        Ok(script) => {
            let told = answer(alloc, &PLAIN, &script, 0);
            out.number(told.text().len() as u64);
        }
        Err(_) => out.spoil(),
    }
    out
}

#[test]
fn a_text_that_is_too_long_is_not_printed(rt: HostRuntime) {
    let alloc = rt.alloc();
    // "?column?", the text and "(1 row)", each with a newline; and the error's line.
    assert_eq!(rt;
        length_of(alloc, "SELECT '", 1_048_576, "'").text(),
        "1048594 "
    );
    assert_eq!(rt; length_of(alloc, "SELECT '", 1_048_577, "'").text(), "38 ");
    // The brackets of a row count.
    assert_eq!(rt;
        length_of(alloc, "SELECT ROW('", 1_048_574, "')").text(),
        "1048589 "
    );
    assert_eq!(rt;
        length_of(alloc, "SELECT ROW('", 1_048_575, "')").text(),
        "38 "
    );
}

// ---- a query commits nothing

const FILLED: &[u8] = b"CREATE TABLE n (c integer);\nINSERT INTO n VALUES (1);\n";

const ASKED: &[u8] = b"CREATE TABLE n (c integer);\nSELECT c FROM n;\nINSERT INTO n VALUES (1);\n";

// The status of a run, how many calls it makes, how long the store is then, and what is printed.
// Calls that are listed fail, having done so many bytes of their work.
fn store_after(alloc: Global, script: &[u8], fail: &[u64], part: usize) -> Result<Report, Memory> {
    let mut out = Report::new(alloc);
    let (a, b) = (Vec::new(alloc), Vec::new(alloc));
    let mut host = MemoryHost::with_part(alloc, a, b, fail.to_vec(alloc)?, part)?;
    let status = run_over(alloc, &mut host, &PLAIN, script, &[])?;
    out.number(u64::from(status));
    out.number(host.calls());
    out.number(host.area(Area::A).len() as u64);
    out.push(host.printed());
    Ok(out)
}

/// The same, as a text.
pub fn told(alloc: Global, script: &[u8], fail: &[u64], part: usize) -> Report {
    match store_after(alloc, script, fail, part) {
        Ok(out) => out,
        Err(_) => Report::lacking(alloc),
    }
}

#[test]
fn a_query_makes_one_call_and_no_commit(rt: HostRuntime) {
    let alloc = rt.alloc();
    assert_eq!(rt;
        told(alloc, FILLED, &[], 0).text(),
        "0 23 84 CREATE TABLE\nINSERT 0 1\n"
    );
    assert_eq!(rt;
        told(alloc, ASKED, &[], 0).text(),
        "0 24 84 CREATE TABLE\nc\n(0 rows)\nINSERT 0 1\n"
    );
}

#[test]
fn a_grid_that_is_cut_off_ends_with_6(rt: HostRuntime) {
    let alloc = rt.alloc();
    // Call 18 prints the rows. What was committed before stays, and nothing more is done.
    assert_eq!(rt;
        told(alloc, ASKED, &[18], 6).text(),
        "6 19 58 CREATE TABLE\nc\n(0 r"
    );
    assert_eq!(rt;
        told(alloc, ASKED, &[18], 0).text(),
        "6 19 58 CREATE TABLE\n"
    );
}

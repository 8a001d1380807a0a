//! Tables with types and rules, and the changes of their rows.

use crate::queries::{long, told};
use crate::report::Report;
use crate::runs::{PLAIN, answer, printed, run_fresh, run_on};
use pl_disk::Area;
use std::alloc::Global;

/// Scripts over new stores that end with 0, and what they print, as a PostgreSQL server answers
/// them.
const TABLES: [(&str, &str); 12] = [
    // The four types, with NOT NULL, DEFAULT, a key and a CHECK.
    (
        "CREATE TABLE item (id integer PRIMARY KEY, name text NOT NULL, price bigint DEFAULT 10, \
sold boolean, CHECK (price > 0)); INSERT INTO item VALUES (1, 'cup', 250, false), \
(2, 'pan', 3000000000, true); INSERT INTO item (id, name) VALUES (3, 'lid') \
RETURNING id, price, sold; SELECT * FROM item ORDER BY name;",
        "CREATE TABLE\nINSERT 0 2\nid|price|sold\n3|10|\n(1 row)\nINSERT 0 1\n\
id|name|price|sold\n1|cup|250|f\n3|lid|10|\n2|pan|3000000000|t\n(3 rows)\n",
    ),
    // A row that fails takes back those before it.
    (
        "CREATE TABLE n (c integer UNIQUE, CHECK (c < 10)); INSERT INTO n VALUES (1), (2); \
INSERT INTO n VALUES (3), (4), (1); INSERT INTO n VALUES (5), (12), (6); \
INSERT INTO n VALUES (7), (1 / 0); SELECT c FROM n; INSERT INTO n VALUES (3); SELECT c FROM n;",
        "CREATE TABLE\nINSERT 0 2\nERROR:  23505: unique_violation\n\
ERROR:  23514: check_violation\nERROR:  22012: division_by_zero\nc\n1\n2\n(2 rows)\n\
INSERT 0 1\nc\n1\n2\n3\n(3 rows)\n",
    ),
    (
        "CREATE TABLE n (c integer PRIMARY KEY); INSERT INTO n VALUES (1), (2), (5); \
UPDATE n SET c = c + 1; SELECT c FROM n; UPDATE n SET c = c - 1; SELECT c FROM n;",
        "CREATE TABLE\nINSERT 0 3\nERROR:  23505: unique_violation\nc\n1\n2\n5\n(3 rows)\n\
UPDATE 3\nc\n0\n1\n4\n(3 rows)\n",
    ),
    // RETURNING shows each row that was written or, of DELETE, that was there.
    (
        "CREATE TABLE n (c integer, t text); INSERT INTO n VALUES (1, 'a'), (2, 'b'), (3, NULL); \
UPDATE n SET c = c * 10 WHERE c > 1 RETURNING c, t; DELETE FROM n WHERE t IS NULL RETURNING *; \
UPDATE n SET c = 0 WHERE c = 7; DELETE FROM n WHERE c = 7 RETURNING c; DELETE FROM n; \
SELECT * FROM n;",
        "CREATE TABLE\nINSERT 0 3\nc|t\n20|b\n30|\n(2 rows)\nUPDATE 2\nc|t\n30|\n(1 row)\n\
DELETE 1\nUPDATE 0\nc\n(0 rows)\nDELETE 0\nDELETE 2\nc|t\n(0 rows)\n",
    ),
    // What is there already, and what isn't.
    (
        "DROP TABLE IF EXISTS n; CREATE TABLE IF NOT EXISTS n (c integer); \
CREATE TABLE IF NOT EXISTS n (d text); INSERT INTO n VALUES (1); DROP TABLE n; DROP TABLE n; \
CREATE TABLE n (d text); SELECT * FROM n;",
        "NOTICE:  undefined_table\nDROP TABLE\nCREATE TABLE\nNOTICE:  duplicate_table\n\
CREATE TABLE\nINSERT 0 1\nDROP TABLE\nERROR:  42P01: undefined_table\nCREATE TABLE\nd\n(0 rows)\n",
    ),
    // Types and NOT NULL.
    (
        "CREATE TABLE n (c integer NOT NULL, b boolean); INSERT INTO n VALUES (NULL, true); \
INSERT INTO n VALUES ('x', true); INSERT INTO n VALUES (1, 2); INSERT INTO n VALUES (1, true, 3); \
INSERT INTO n VALUES (2147483648); INSERT INTO n VALUES ('7'), (8); SELECT * FROM n;",
        "CREATE TABLE\nERROR:  23502: not_null_violation\n\
ERROR:  22P02: invalid_text_representation\nERROR:  42804: datatype_mismatch\n\
ERROR:  42601: syntax_error\nERROR:  22003: numeric_value_out_of_range\nINSERT 0 2\n\
c|b\n7|\n8|\n(2 rows)\n",
    ),
    // A query inside sees the table as it was when the command began.
    (
        "CREATE TABLE n (c integer); INSERT INTO n VALUES (1), (2); \
INSERT INTO n SELECT c + 10 FROM n RETURNING c; \
UPDATE n SET c = (SELECT max(c) FROM n) WHERE c < 3; DELETE FROM n WHERE c = (SELECT max(c) FROM n); \
SELECT c FROM n;",
        "CREATE TABLE\nINSERT 0 2\nc\n11\n12\n(2 rows)\nINSERT 0 2\nUPDATE 2\nDELETE 3\n\
c\n11\n(1 row)\n",
    ),
    // Names are resolved before a row is read.
    (
        "CREATE TABLE n (c integer); UPDATE n SET c = d WHERE c / 0 = 1; \
DELETE FROM n WHERE c / 0 = 1; INSERT INTO n VALUES (1); DELETE FROM n WHERE c / 0 = 1; \
UPDATE n SET c = 2 RETURNING d; INSERT INTO n DEFAULT VALUES RETURNING c; SELECT count(*) FROM n;",
        "CREATE TABLE\nERROR:  42703: undefined_column\nDELETE 0\nINSERT 0 1\n\
ERROR:  22012: division_by_zero\nERROR:  42703: undefined_column\nc\n\n(1 row)\nINSERT 0 1\n\
count\n2\n(1 row)\n",
    ),
    // A row that RETURNING can't show takes the whole command back.
    (
        "CREATE TABLE n (c integer); INSERT INTO n VALUES (1), (0) RETURNING 1 / c; SELECT c FROM n; \
INSERT INTO n VALUES (2), (1) RETURNING 2 / c AS half;",
        "CREATE TABLE\nERROR:  22012: division_by_zero\nc\n(0 rows)\nhalf\n1\n2\n(2 rows)\n\
INSERT 0 2\n",
    ),
    // A table keeps its rules where others come and go.
    (
        "CREATE TABLE a (c integer UNIQUE); CREATE TABLE b (d text PRIMARY KEY); \
INSERT INTO a VALUES (1), (NULL), (NULL); INSERT INTO b VALUES ('x'), (NULL); \
DROP TABLE a; INSERT INTO b VALUES ('x'), ('y'); INSERT INTO b VALUES ('y'); \
INSERT INTO a VALUES (1); CREATE TABLE a (c integer); INSERT INTO a VALUES (1), (1); \
SELECT d, c FROM a, b;",
        "CREATE TABLE\nCREATE TABLE\nINSERT 0 3\nERROR:  23502: not_null_violation\nDROP TABLE\n\
INSERT 0 2\nERROR:  23505: unique_violation\nERROR:  42P01: undefined_table\nCREATE TABLE\n\
INSERT 0 2\nd|c\nx|1\ny|1\nx|1\ny|1\n(4 rows)\n",
    ),
    // Definitions that are refused.
    (
        "CREATE TABLE n (c integer, c text); CREATE TABLE n (c thing); \
CREATE TABLE n (c integer DEFAULT true); CREATE TABLE n (c integer PRIMARY KEY, PRIMARY KEY (c)); \
CREATE TABLE n (c integer, CHECK (d > 1)); SELECT * FROM n;",
        "ERROR:  42701: duplicate_column\nERROR:  42704: undefined_object\n\
ERROR:  42804: datatype_mismatch\nERROR:  42P16: invalid_table_definition\n\
ERROR:  42703: undefined_column\nERROR:  42P01: undefined_table\n",
    ),
    // Values of the greatest and the least numbers.
    (
        "CREATE TABLE n (a integer, b bigint); INSERT INTO n VALUES \
(-2147483648, -9223372036854775808), (2147483647, 9223372036854775807) RETURNING b; \
UPDATE n SET a = a + 1; SELECT a FROM n;",
        "CREATE TABLE\nb\n-9223372036854775808\n9223372036854775807\n(2 rows)\nINSERT 0 2\n\
ERROR:  22003: numeric_value_out_of_range\na\n-2147483648\n2147483647\n(2 rows)\n",
    ),
];

#[test]
fn tables_are_changed(rt: HostRuntime) {
    let alloc = rt.alloc();
    for (script, printed) in TABLES {
        let told = answer(alloc, &PLAIN, script.as_bytes(), 0);
        assert_eq!(rt; told.text(), printed, "{script}");
    }
}

// ---- the store is opened again

/// Leaves two tables, of which one has lost its middle row.
const BEFORE: &[u8] = b"CREATE TABLE item (id integer PRIMARY KEY, name text NOT NULL, \
price bigint DEFAULT 10, sold boolean, CHECK (price > 0)); CREATE TABLE gone (c integer); \
INSERT INTO item VALUES (1, 'cup', 250, false), (2, '', DEFAULT, NULL), (3, 'pan', 3000000000, true); \
INSERT INTO gone VALUES (1); INSERT INTO item VALUES (4, 'lid', 1, true), (1, 'jug', 1, true); \
UPDATE item SET price = price + 1 WHERE id = 2; DELETE FROM item WHERE id = 1; DROP TABLE gone; \
CREATE TABLE log (t text UNIQUE); INSERT INTO log VALUES ('a'), (NULL);";

const BEFORE_TEXT: &str = "CREATE TABLE\nCREATE TABLE\nINSERT 0 3\nINSERT 0 1\n\
ERROR:  23505: unique_violation\nUPDATE 1\nDELETE 1\nDROP TABLE\nCREATE TABLE\nINSERT 0 2\n";

const AFTER: &[u8] = b"SELECT * FROM item; SELECT * FROM log; SELECT * FROM gone; \
INSERT INTO item VALUES (3, 'mug', 1, true); INSERT INTO item VALUES (1, 'mug', 0, true); \
INSERT INTO item (id, name) VALUES (1, 'mug') RETURNING *; INSERT INTO log VALUES ('b'), ('a'); \
SELECT count(*) FROM log; DROP TABLE IF EXISTS gone;";

const AFTER_TEXT: &str =
    "id|name|price|sold\n2||11|\n3|pan|3000000000|t\n(2 rows)\nt\na\n\n(2 rows)\n\
ERROR:  42P01: undefined_table\nERROR:  23505: unique_violation\nERROR:  23514: check_violation\n\
id|name|price|sold\n1|mug|10|\n(1 row)\nINSERT 0 1\nERROR:  23505: unique_violation\n\
count\n2\n(1 row)\nNOTICE:  undefined_table\nDROP TABLE\n";

/// What the second script prints over what the first one leaves.
pub(crate) fn again(alloc: Global, first: &[u8], second: &[u8]) -> Report {
    match run_fresh(alloc, &PLAIN, first) {
        Ok(ran) => {
            let (a, b) = (ran.host.area(Area::A), ran.host.area(Area::B));
            printed(alloc, run_on(alloc, a, b, &PLAIN, second, &[]), 0)
        }
        Err(_) => Report::lacking(alloc),
    }
}

#[test]
fn a_store_that_is_opened_again_has_its_tables(rt: HostRuntime) {
    let alloc = rt.alloc();
    assert_eq!(rt; answer(alloc, &PLAIN, BEFORE, 0).text(), BEFORE_TEXT);
    assert_eq!(rt; again(alloc, BEFORE, AFTER).text(), AFTER_TEXT);
}

// ---- what is written

const CREATE: &[u8] = b"CREATE TABLE n (c integer);\n";

/// No row passes.
const NONE: &[u8] = b"CREATE TABLE n (c integer);\nUPDATE n SET c = 1;\n";

/// The second row fails.
const FAILS: &[u8] = b"CREATE TABLE n (c integer);\nINSERT INTO n VALUES (1), (1 / 0);\n";

/// It stays as it is.
const NOTICED: &[u8] = b"CREATE TABLE n (c integer);\nCREATE TABLE IF NOT EXISTS n (c text);\n";

#[test]
fn what_changes_nothing_prints_and_makes_no_commit(rt: HostRuntime) {
    let alloc = rt.alloc();
    // One call attaches, twelve make a store, and CREATE TABLE makes five. A notice is a call of its
    // own.
    assert_eq!(rt;
        told(alloc, CREATE, &[], 0).text(),
        "0 18 58 CREATE TABLE\n"
    );
    assert_eq!(rt;
        told(alloc, NONE, &[], 0).text(),
        "0 19 58 CREATE TABLE\nUPDATE 0\n"
    );
    assert_eq!(rt;
        told(alloc, FAILS, &[], 0).text(),
        "0 19 58 CREATE TABLE\nERROR:  22012: division_by_zero\n"
    );
    assert_eq!(rt;
        told(alloc, NOTICED, &[], 0).text(),
        "0 20 58 CREATE TABLE\nNOTICE:  duplicate_table\nCREATE TABLE\n"
    );
}

// Puts a row and returns a text of so many bytes in a row value.
fn returned(alloc: Global, bytes: usize) -> Report {
    let before = "CREATE TABLE n (c integer); INSERT INTO n VALUES (1) RETURNING ROW('";
    let behind = "') AS r; SELECT c FROM n;";
    match long(alloc, before, bytes, behind) {
        Ok(script) => answer(alloc, &PLAIN, &script, 0),
        Err(_) => Report::lacking(alloc),
    }
}

#[test]
fn what_is_too_long_to_be_returned_is_undone(rt: HostRuntime) {
    let alloc = rt.alloc();
    assert_eq!(rt;
        returned(alloc, 1_048_575).text(),
        "CREATE TABLE\nERROR:  54000: program_limit_exceeded\nc\n(0 rows)\n"
    );
    // "CREATE TABLE", "r", the row and "(1 row)", "INSERT 0 1", "c", "1" and "(1 row)", each with a
    // newline.
    assert_eq!(rt; returned(alloc, 1_048_574).text().len(), 1_048_623);
}

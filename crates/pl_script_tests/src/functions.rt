//! Functions that are made, put in the place of others, and dropped.

use crate::runs::{PLAIN, answer};
use crate::tables::again;

const MADE: &str = "CREATE FUNCTION\n";

const SYNTAX: &str = "ERROR:  42601: syntax_error\n";

const LEFT_OUT: &str = "ERROR:  0A000: feature_not_supported\n";

/// Scripts over new stores that end with 0, and what they print. A PostgreSQL server answers all
/// but the last three so.
const FUNCTIONS: [(&str, &str); 11] = [
    (
        "CREATE FUNCTION f(a integer) RETURNS integer LANGUAGE plpgsql AS $$ BEGIN RETURN a; END $$",
        MADE,
    ),
    (
        "CREATE FUNCTION f() RETURNS void LANGUAGE plpgsql AS 'BEGIN END'; \
CREATE FUNCTION f() RETURNS void LANGUAGE plpgsql AS 'BEGIN NULL; END'; \
CREATE OR REPLACE FUNCTION f() RETURNS void LANGUAGE plpgsql AS 'BEGIN NULL; END'; DROP FUNCTION f; \
DROP FUNCTION f; DROP FUNCTION IF EXISTS f; \
CREATE OR REPLACE FUNCTION f() RETURNS text LANGUAGE plpgsql AS 'BEGIN END'; DROP FUNCTION f();",
        "CREATE FUNCTION\nERROR:  42723: duplicate_function\nCREATE FUNCTION\nDROP FUNCTION\n\
ERROR:  42883: undefined_function\nNOTICE:  undefined_function\nDROP FUNCTION\nCREATE FUNCTION\n\
DROP FUNCTION\n",
    ),
    (
        "CREATE FUNCTION f(a integer) RETURNS integer LANGUAGE plpgsql AS 'BEGIN RETURN 1; END'; \
CREATE OR REPLACE FUNCTION f(a integer) RETURNS text LANGUAGE plpgsql AS 'BEGIN RETURN 1; END'; \
CREATE OR REPLACE FUNCTION f(b integer) RETURNS integer LANGUAGE plpgsql AS 'BEGIN RETURN 1; END'; \
DROP FUNCTION f(text); DROP FUNCTION f(integer);",
        "CREATE FUNCTION\nERROR:  42P13: invalid_function_definition\n\
ERROR:  42P13: invalid_function_definition\nERROR:  42883: undefined_function\nDROP FUNCTION\n",
    ),
    // A table and a function of one name.
    (
        "CREATE TABLE f (c integer); CREATE FUNCTION f() RETURNS integer LANGUAGE plpgsql \
AS 'BEGIN RETURN (SELECT max(c) FROM f); END'; INSERT INTO f VALUES (1); DROP FUNCTION f; \
SELECT c FROM f; DROP TABLE f;",
        "CREATE TABLE\nCREATE FUNCTION\nINSERT 0 1\nDROP FUNCTION\nc\n1\n(1 row)\nDROP TABLE\n",
    ),
    // A body that is none, or breaks a rule, and what is before it.
    (
        "CREATE FUNCTION f() RETURNS integer LANGUAGE plpgsql AS 'BEGIN RETURN 1 END'",
        SYNTAX,
    ),
    (
        "CREATE FUNCTION f() RETURNS integer LANGUAGE plpgsql AS $$ BEGIN RETURN 'x; END $$",
        SYNTAX,
    ),
    (
        "CREATE FUNCTION f() RETURNS void LANGUAGE plpgsql AS 'BEGIN RETURN 1; END'",
        "ERROR:  42804: datatype_mismatch\n",
    ),
    (
        "CREATE FUNCTION f() RETURNS integer AS 'BEGIN RETURN 1 END'",
        "ERROR:  42P13: invalid_function_definition\n",
    ),
    // The body comes before the name.
    (
        "CREATE FUNCTION f() RETURNS void LANGUAGE plpgsql AS 'BEGIN END'; \
CREATE FUNCTION f() RETURNS void LANGUAGE plpgsql AS 'BEGIN EXIT; END';",
        "CREATE FUNCTION\nERROR:  42601: syntax_error\n",
    ),
    // What doesn't run yet.
    (
        "CREATE FUNCTION f() RETURNS void LANGUAGE plpgsql AS $$ BEGIN EXECUTE 'SELECT 1'; END $$",
        LEFT_OUT,
    ),
    (
        "CREATE PROCEDURE p() LANGUAGE plpgsql AS 'BEGIN END'",
        LEFT_OUT,
    ),
];

#[test]
fn functions_are_made_and_dropped(rt: HostRuntime) {
    let alloc = rt.alloc();
    for (script, printed) in FUNCTIONS {
        let told = answer(alloc, &PLAIN, script.as_bytes(), 0);
        assert_eq!(rt; told.text(), printed, "{script}");
    }
}

/// Leaves `f`, which was put in the place of another, between two tables, and not `g`.
const BEFORE: &[u8] = b"CREATE TABLE a (c integer); \
CREATE FUNCTION f(a integer) RETURNS integer LANGUAGE plpgsql AS 'BEGIN RETURN a; END'; \
CREATE FUNCTION g() RETURNS text LANGUAGE plpgsql AS 'BEGIN END'; CREATE TABLE b (c integer); \
CREATE OR REPLACE FUNCTION f(a integer) RETURNS integer LANGUAGE plpgsql AS 'BEGIN RETURN 2; END'; \
INSERT INTO b VALUES (7); DROP TABLE a; DROP FUNCTION g;";

const AFTER: &[u8] = b"CREATE FUNCTION f() RETURNS text LANGUAGE plpgsql AS 'BEGIN END'; \
CREATE FUNCTION g() RETURNS integer LANGUAGE plpgsql AS 'BEGIN END'; DROP FUNCTION f(text); \
DROP FUNCTION f(integer); SELECT c FROM b; DROP FUNCTION f;";

const AFTER_TEXT: &str = "ERROR:  42723: duplicate_function\nCREATE FUNCTION\n\
ERROR:  42883: undefined_function\nDROP FUNCTION\nc\n7\n(1 row)\n\
ERROR:  42883: undefined_function\n";

#[test]
fn a_store_that_is_opened_again_has_its_functions(rt: HostRuntime) {
    assert_eq!(rt; again(rt.alloc(), BEFORE, AFTER).text(), AFTER_TEXT);
}

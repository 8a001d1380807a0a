//! Bodies that run: those of DO, and those of functions that expressions call.

use crate::runs::{PLAIN, answer};

/// Scripts over new stores that end with 0, and what they print.
const BODIES: [(&str, &str); 15] = [
    ("DO 'BEGIN END'", "DO\n"),
    (
        "DO $$ BEGIN RAISE NOTICE '%', 1 + 1; END $$",
        "NOTICE:  2\nDO\n",
    ),
    (
        "CREATE FUNCTION twice(a integer) RETURNS integer LANGUAGE plpgsql \
AS 'BEGIN RETURN a * 2; END'; SELECT twice(twice(2)) AS r;",
        "CREATE FUNCTION\nr\n8\n(1 row)\n",
    ),
    // A handler goes back to the database of its block's entry, and keeps the variables.
    (
        "CREATE TABLE mytab (firstname text, lastname text); \
INSERT INTO mytab VALUES ('Tom', 'Jones'); CREATE FUNCTION f() RETURNS integer LANGUAGE plpgsql \
AS $$ DECLARE x integer := 0; y integer; BEGIN BEGIN \
UPDATE mytab SET firstname = 'Joe' WHERE lastname = 'Jones'; x := x + 1; y := x / 0; \
EXCEPTION WHEN division_by_zero THEN RAISE NOTICE 'caught division_by_zero'; RETURN x; END; END $$; \
SELECT f(); SELECT firstname FROM mytab;",
        "CREATE TABLE\nINSERT 0 1\nCREATE FUNCTION\nNOTICE:  caught division_by_zero\n\
f\n1\n(1 row)\nfirstname\nTom\n(1 row)\n",
    ),
    (
        "CREATE TABLE t (v integer); DO $$ DECLARE n integer := 0; BEGIN BEGIN \
INSERT INTO t VALUES (1); n := n + 1; BEGIN INSERT INTO t VALUES (2); n := n + 1; BEGIN \
INSERT INTO t VALUES (3); n := n + 1; RAISE EXCEPTION 'deep'; \
EXCEPTION WHEN raise_exception THEN RAISE; END; \
EXCEPTION WHEN division_by_zero THEN n := 100; END; \
EXCEPTION WHEN OTHERS THEN RAISE NOTICE '% %', n, SQLERRM; END; END $$; SELECT count(*) FROM t;",
        "CREATE TABLE\nNOTICE:  3 deep\nDO\ncount\n0\n(1 row)\n",
    ),
    (
        "DO $$ BEGIN ASSERT false; EXCEPTION WHEN OTHERS THEN RAISE NOTICE 'no'; END $$; \
DO $$ BEGIN ASSERT false; EXCEPTION WHEN assert_failure THEN RAISE NOTICE '%', SQLSTATE; END $$;",
        "ERROR:  P0004: assertion failed\nNOTICE:  P0004\nDO\n",
    ),
    // INTO takes the first row, and STRICT just one.
    (
        "CREATE TABLE p (v integer); INSERT INTO p VALUES (5), (6); \
DO $$ DECLARE x integer; BEGIN SELECT v INTO STRICT x FROM p WHERE v > 6; END $$; \
DO $$ DECLARE x integer; BEGIN SELECT v INTO STRICT x FROM p; END $$; \
DO $$ DECLARE x integer; BEGIN SELECT v INTO x FROM p; RAISE NOTICE '%', x; END $$;",
        "CREATE TABLE\nINSERT 0 2\nERROR:  P0002: no_data_found\n\
ERROR:  P0003: too_many_rows\nNOTICE:  5\nDO\n",
    ),
    // COMMIT keeps what a DO did before, also where it fails later; ROLLBACK keeps nothing.
    (
        "CREATE TABLE t (v integer); DO $$ BEGIN FOR i IN 0..3 LOOP INSERT INTO t VALUES (i); \
IF i % 2 = 0 THEN COMMIT; ELSE ROLLBACK; END IF; END LOOP; RAISE EXCEPTION 'late'; END $$; \
SELECT v FROM t;",
        "CREATE TABLE\nERROR:  P0001: late\nv\n0\n2\n(2 rows)\n",
    ),
    (
        "CREATE FUNCTION c() RETURNS void LANGUAGE plpgsql AS $$ BEGIN COMMIT; END $$; SELECT c(); \
DO $$ BEGIN BEGIN COMMIT; EXCEPTION WHEN division_by_zero THEN NULL; END; END $$; \
DO $$ BEGIN BEGIN PERFORM 1 / 0; EXCEPTION WHEN division_by_zero THEN COMMIT; END; END $$;",
        "CREATE FUNCTION\nERROR:  2D000: invalid_transaction_termination\n\
ERROR:  2D000: invalid_transaction_termination\nDO\n",
    ),
    (
        "CREATE TABLE u (k integer PRIMARY KEY); INSERT INTO u VALUES (1); \
DO $$ BEGIN BEGIN DELETE FROM u WHERE k = 1; INSERT INTO u VALUES (1); RAISE EXCEPTION 'undo'; \
EXCEPTION WHEN raise_exception THEN NULL; END; INSERT INTO u VALUES (1); END $$; \
SELECT count(*) FROM u;",
        "CREATE TABLE\nINSERT 0 1\nERROR:  23505: unique_violation\ncount\n1\n(1 row)\n",
    ),
    // A loop ends at the greatest integer.
    (
        "DO $$ BEGIN FOR i IN 2147483646..2147483647 LOOP RAISE NOTICE '%', i; END LOOP; END $$; \
DO $$ BEGIN FOR i IN 1..3 BY 0 LOOP NULL; END LOOP; END $$;",
        "NOTICE:  2147483646\nNOTICE:  2147483647\nDO\nERROR:  22023: invalid_parameter_value\n",
    ),
    // 64 calls run at the most.
    (
        "CREATE FUNCTION d(n integer) RETURNS integer LANGUAGE plpgsql \
AS $$ BEGIN IF n = 1 THEN RETURN 1; END IF; RETURN d(n - 1) + 1; END $$; \
SELECT d(64) AS r; SELECT d(65) AS r;",
        "CREATE FUNCTION\nr\n64\n(1 row)\nERROR:  54001: statement_too_complex\n",
    ),
    // What was printed before an error stays, and what was changed doesn't.
    (
        "CREATE TABLE t (v integer); DO $$ BEGIN INSERT INTO t VALUES (1); RAISE NOTICE 'one'; \
PERFORM 1 / 0; END $$; SELECT count(*) FROM t;",
        "CREATE TABLE\nNOTICE:  one\nERROR:  22012: division_by_zero\ncount\n0\n(1 row)\n",
    ),
    // A table is made in a body, and seen by the statement behind it.
    (
        "DO $$ BEGIN CREATE TABLE t (v integer); INSERT INTO t VALUES (7); END $$; SELECT v FROM t;",
        "DO\nv\n7\n(1 row)\n",
    ),
    ("CALL p()", "ERROR:  42883: undefined_function\n"),
];

#[test]
fn bodies_run(rt: HostRuntime) {
    let alloc = rt.alloc();
    for (script, printed) in BODIES {
        let told = answer(alloc, &PLAIN, script.as_bytes(), 0);
        assert_eq!(rt; told.text(), printed, "{script}");
    }
}

const FEW: [&str; 5] = ["plpg", "shop.store", "first.sql", "--steps", "1000"];

/// Each command has its own steps, and no handler catches that there are none left.
const ENDLESS: &[u8] = b"DO $$ BEGIN LOOP NULL; END LOOP; \
EXCEPTION WHEN query_canceled THEN RAISE NOTICE 'caught'; END $$; \
DO $$ BEGIN FOR i IN 1..400 LOOP NULL; END LOOP; END $$; \
DO $$ BEGIN FOR i IN 1..400 LOOP NULL; END LOOP; END $$;";

#[test]
fn a_command_has_so_many_steps(rt: HostRuntime) {
    let told = answer(rt.alloc(), &FEW, ENDLESS, 0);
    assert_eq!(rt; told.text(), "ERROR:  57014: query_canceled\nDO\nDO\n");
}

//! Bodies of whole scripts.

/// Lines of which each is a body that is read, behind the head of its routine, a line that begins
/// with `= `. `¶` is a newline.
pub(crate) const SCRIPT_BODIES: &str = r#"
= FUNCTION c() RETURNS void
BEGIN COMMIT; END
= FUNCTION d(n integer, m integer) RETURNS integer
BEGIN IF n = m THEN RETURN n; END IF; RETURN d(n + 1, m); END
= FUNCTION evens(n integer) RETURNS SETOF integer
DECLARE r record; BEGIN FOR r IN SELECT c FROM m ORDER BY c LOOP IF r.c % 2 = 0 AND r.c <= n THEN RETURN NEXT r.c; END IF; END LOOP; RETURN QUERY SELECT 100; END
= FUNCTION f() RETURNS integer
¶BEGIN¶RAISE NOTICE 'x';¶UPDATE t SET d = 1;¶END¶
DECLARE x integer := 0; y integer; BEGIN BEGIN UPDATE mytab SET firstname = 'Joe' WHERE lastname = 'Jones'; x := x + 1; y := x / 0; EXCEPTION WHEN division_by_zero THEN RAISE NOTICE 'caught division_by_zero'; RETURN x; END; END
= FUNCTION fa() RETURNS trigger
BEGIN NEW.v := NEW.v + 1; RETURN NEW; END
= FUNCTION fb() RETURNS trigger
BEGIN NEW.v := NEW.v * 2; RETURN NEW; END
= FUNCTION fc() RETURNS trigger
BEGIN DROP TABLE q; RETURN NULL; END
= FUNCTION g() RETURNS void
¶DECLARE r record;¶BEGIN¶IF true THEN SELECT 1 AS a INTO r; END IF;¶RAISE NOTICE '%', r.a;¶END¶
= FUNCTION gone() RETURNS trigger
BEGIN DELETE FROM w WHERE k = OLD.k; RETURN NEW; END
= FUNCTION log_change() RETURNS trigger
BEGIN INSERT INTO audit VALUES (NEW.id, OLD.balance, NEW.balance); RETURN NULL; END
= FUNCTION odd(n integer) RETURNS integer
DECLARE s integer := 0; BEGIN FOR i IN 1..n LOOP CONTINUE WHEN i % 2 = 0; s := s + i; END LOOP; RETURN s; END
= FUNCTION skip_row() RETURNS trigger
BEGIN RETURN NULL; END
= FUNCTION told() RETURNS trigger
BEGIN RAISE NOTICE 'after'; RETURN NULL; END
= PROCEDURE transaction_test1()
BEGIN FOR i IN 0..9 LOOP INSERT INTO test1 (a) VALUES (i); IF i % 2 = 0 THEN COMMIT; ELSE ROLLBACK; END IF; END LOOP; END;
= PROCEDURE transfer(a integer, b integer, amount bigint)
BEGIN BEGIN UPDATE account SET balance = balance + amount WHERE id = b; UPDATE account SET balance = balance - amount WHERE id = a; INSERT INTO done VALUES (a, true); EXCEPTION WHEN check_violation THEN INSERT INTO done VALUES (a, false); END; END
BEGIN BEGIN UPDATE account SET balance = balance + amount WHERE id = b; UPDATE account SET balance = balance - amount WHERE id = a; EXCEPTION WHEN check_violation THEN RAISE NOTICE 'refused %', amount; END; END
= PROCEDURE twice(INOUT n integer)
BEGIN n := n * 2; END
= DO
BEGIN ASSERT false; EXCEPTION WHEN assert_failure THEN RAISE NOTICE '%', SQLSTATE; END
BEGIN ASSERT false; EXCEPTION WHEN OTHERS THEN RAISE NOTICE 'no'; END
BEGIN BEGIN PERFORM 1 / 0; EXCEPTION WHEN division_by_zero THEN COMMIT; END; END
BEGIN BEGIN COMMIT; EXCEPTION WHEN division_by_zero THEN NULL; END; END
DECLARE c CURSOR FOR SELECT v FROM k ORDER BY v; d refcursor; x integer; BEGIN OPEN c; BEGIN FETCH c INTO x; FETCH c INTO x; OPEN d FOR SELECT v FROM k; RAISE EXCEPTION 'back'; EXCEPTION WHEN raise_exception THEN NULL; END; FETCH c INTO x; RAISE NOTICE '%', x; FETCH d INTO x; END
BEGIN EXECUTE 'COMMIT'; END
BEGIN EXECUTE NULL; END
BEGIN FOR i IN 1..2 LOOP NULL; END LOOP; END
BEGIN CREATE TABLE z (c integer); RAISE EXCEPTION 'x'; EXCEPTION WHEN OTHERS THEN NULL; END
DECLARE v integer := 4; BEGIN CALL twice(v); CALL twice(v); RAISE NOTICE '%', v; EXECUTE 'SELECT $1 + 1' INTO v USING v; RAISE NOTICE '%', v; END
BEGIN FOR i IN 1..3 BY 0 LOOP NULL; END LOOP; END
BEGIN FOR i IN 2147483646..2147483647 LOOP RAISE NOTICE '%', i; END LOOP; END
BEGIN BEGIN DELETE FROM u WHERE k = 1; INSERT INTO u VALUES (1); RAISE EXCEPTION 'undo'; EXCEPTION WHEN raise_exception THEN NULL; END; INSERT INTO u VALUES (1); END
DECLARE x integer; n integer := 0; BEGIN FOR i IN 1..100000 LOOP BEGIN INSERT INTO big VALUES (i); SELECT k INTO x FROM big WHERE k = i; n := n + x % 2; EXCEPTION WHEN unique_violation THEN NULL; END; END LOOP; RAISE NOTICE '%', n; END
BEGIN FOR i IN 1..100 LOOP INSERT INTO account VALUES (i, 1000); END LOOP; END
DECLARE n integer := 0; BEGIN BEGIN INSERT INTO t VALUES (1); n := n + 1; BEGIN INSERT INTO t VALUES (2); n := n + 1; BEGIN INSERT INTO t VALUES (3); n := n + 1; RAISE EXCEPTION 'deep'; EXCEPTION WHEN raise_exception THEN RAISE; END; EXCEPTION WHEN division_by_zero THEN n := 100; END; EXCEPTION WHEN OTHERS THEN RAISE NOTICE '% %', n, SQLERRM; END; END
BEGIN RAISE EXCEPTION 'a % b %%', NULL USING ERRCODE = '23505', DETAIL = 'd', HINT = 'h'; END
BEGIN FOR i IN 1..199 LOOP CALL transfer(1, 2, 5); END LOOP; END
DECLARE x integer; BEGIN SELECT v INTO x FROM p; RAISE NOTICE '%', x; END
DECLARE x integer; BEGIN SELECT v INTO STRICT x FROM p; END
DECLARE x integer; BEGIN SELECT v INTO STRICT x FROM p WHERE v > 6; END
BEGIN INSERT INTO o (v) VALUES (2); RAISE EXCEPTION 'no'; EXCEPTION WHEN raise_exception THEN NULL; END
DECLARE r record; BEGIN FOR r IN UPDATE m SET c = c RETURNING c LOOP COMMIT; END LOOP; END
DECLARE a text; b text; BEGIN PERFORM 1 / 0; EXCEPTION WHEN data_exception THEN GET STACKED DIAGNOSTICS a = RETURNED_SQLSTATE, b = MESSAGE_TEXT; RAISE NOTICE '% %', a, b; END
BEGIN LOOP NULL; END LOOP; EXCEPTION WHEN query_canceled THEN RAISE NOTICE 'caught'; END
DECLARE id integer := 1; BEGIN DELETE FROM a WHERE id = 1; END
¶DECLARE s bigint := 1; n integer := 0;¶BEGIN¶  FOR i IN 1..1000000 LOOP¶    s := (s * 31 + i) % 1000003;¶    IF s % 2 = 0 THEN¶      n := n + 1;¶    END IF;¶  END LOOP;¶  RAISE NOTICE '% %', s, n;¶END
BEGIN FOR i IN 1..10000 LOOP INSERT INTO t VALUES (i, 'row ' || i); COMMIT; END LOOP; END
BEGIN FOR i IN 1..2000 LOOP INSERT INTO a VALUES (i, i % 40, i * 7 % 1000); END LOOP; END
DECLARE n bigint; t bigint := 0; BEGIN FOR i IN 1..200 LOOP SELECT sum(v) INTO n FROM a WHERE g = i % 40 AND k > i; t := t + coalesce(n, 0); END LOOP; RAISE NOTICE '%', t; END
BEGIN FOR i IN 1..1000 LOOP INSERT INTO account VALUES (i, 1000); END LOOP; END
BEGIN FOR i IN 1..20000 LOOP CALL transfer(1 + i * 7 % 1000, 1 + i * 13 % 1000, i % 50); END LOOP; END
BEGIN FOR i IN 1..2000 LOOP CALL transfer(1, 2, 5); END LOOP; END
"#;

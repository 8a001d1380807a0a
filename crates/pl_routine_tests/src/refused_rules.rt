//! Bodies that break a rule.

/// Lines `body  ->  why`, each behind the head of its routine, a line that begins with
/// `= `. One that begins with `--` says what follows, and with one behind `!` the server does
/// otherwise. `¶` is a newline.
pub(crate) const REFUSED_RULES: &str = r#"
= FUNCTION f(x integer, y text, z boolean) RETURNS void
-- A target that is no variable.
BEGIN a := 1; END  ->  42601 line 1
BEGIN¶NULL;¶a := 1;¶END  ->  42601 line 3
¶BEGIN¶a¶:=¶1;¶END  ->  42601 line 3
BEGIN f.a := 1; END  ->  42601 line 1
BEGIN a.b := 1; END  ->  42601 line 1
BEGIN x.a := 1; END  ->  42601 line 1
BEGIN "X" := 1; END  ->  42601 line 1
BEGIN t := 1; END  ->  42601 line 1
BEGIN f := 1; END  ->  42601 line 1
BEGIN DECLARE a integer; BEGIN END;¶a := 1; END  ->  42601 line 2
BEGIN <<l>> DECLARE a integer; BEGIN END; l.a := 1; END  ->  42601 line 1
<<l>> DECLARE a integer; BEGIN DECLARE b integer; BEGIN l.b := 1; END; END  ->  42601 line 1
<<l>> BEGIN l.x := 1; END  ->  42601 line 1
BEGIN FOR i IN 1..2 LOOP NULL; END LOOP; i := 1; END  ->  42601 line 1
DECLARE c CURSOR FOR SELECT 1 AS v; BEGIN FOR r IN c LOOP END LOOP;¶r.v := 1; END  ->  42601 line 2
BEGIN sqlerrm := 'a'; END  ->  42601 line 1
BEGIN BEGIN EXCEPTION WHEN others THEN END; sqlstate := 'a'; END  ->  42601 line 1
BEGIN NEW.a := 1; END  ->  42601 line 1
BEGIN tg_op := 'a'; END  ->  42601 line 1
BEGIN SELECT 1 INTO a; END  ->  42601 line 1
BEGIN SELECT 1, 2¶INTO x, a; END  ->  42601 line 1
BEGIN SELECT INTO STRICT f.a 1; END  ->  42601 line 1
BEGIN INSERT INTO t VALUES (1) RETURNING a INTO a; END  ->  42601 line 1
BEGIN¶UPDATE t SET a = 1 RETURNING a INTO x, b; END  ->  42601 line 2
BEGIN DELETE FROM t RETURNING a INTO STRICT a; END  ->  42601 line 1
BEGIN EXECUTE y INTO a; END  ->  42601 line 1
DECLARE c refcursor; BEGIN¶FETCH c INTO x, a; END  ->  42601 line 2
BEGIN GET DIAGNOSTICS a = ROW_COUNT; END  ->  42601 line 1
BEGIN GET DIAGNOSTICS x = ROW_COUNT, a = ROW_COUNT; END  ->  42601 line 1
BEGIN GET STACKED DIAGNOSTICS a = MESSAGE_TEXT; END  ->  42601 line 1
BEGIN FOR r IN SELECT 1 LOOP END LOOP; END  ->  42601 line 1
BEGIN FOR x, a IN SELECT 1, 2 LOOP END LOOP; END  ->  42601 line 1
BEGIN FOR a IN DELETE FROM t RETURNING a LOOP END LOOP; END  ->  42601 line 1
! BEGIN FOR a IN EXECUTE 'SELECT 1' LOOP END LOOP; END  ->  42601 line 1
-- What a body may not know of a later part of it.
BEGIN a := 1; DECLARE a integer; BEGIN END; END  ->  42601 line 1
-- A CONSTANT.
DECLARE a CONSTANT integer := 1; BEGIN a := 2; END  ->  22005 line 1
DECLARE a CONSTANT integer := 1;¶BEGIN¶a = 2; END  ->  22005 line 3
DECLARE a CONSTANT integer := 1; BEGIN SELECT 1 INTO a; END  ->  22005 line 1
DECLARE a CONSTANT integer := 1; BEGIN SELECT 1, 2 INTO x, a; END  ->  22005 line 1
DECLARE a CONSTANT integer := 1; BEGIN INSERT INTO t VALUES (1) RETURNING a INTO a; END  ->  22005 line 1
DECLARE a CONSTANT integer := 1; BEGIN UPDATE t SET a = 1 RETURNING a INTO a; END  ->  22005 line 1
DECLARE a CONSTANT integer := 1; BEGIN DELETE FROM t RETURNING a INTO a; END  ->  22005 line 1
DECLARE a CONSTANT integer := 1; BEGIN EXECUTE y INTO a; END  ->  22005 line 1
DECLARE a CONSTANT integer := 1; c refcursor; BEGIN FETCH c INTO a; END  ->  22005 line 1
DECLARE a CONSTANT integer := 1; BEGIN GET DIAGNOSTICS a = ROW_COUNT; END  ->  22005 line 1
DECLARE a CONSTANT text := 'a'; BEGIN GET STACKED DIAGNOSTICS y = MESSAGE_TEXT, a = MESSAGE_TEXT; END  ->  22005 line 1
DECLARE a CONSTANT integer := 1; BEGIN FOR a IN SELECT 1 LOOP END LOOP; END  ->  22005 line 1
DECLARE a CONSTANT integer := 1; BEGIN FOR a IN EXECUTE y LOOP END LOOP; END  ->  22005 line 1
DECLARE a CONSTANT integer := 1; BEGIN BEGIN a := 2; END; END  ->  22005 line 1
<<l>> DECLARE a CONSTANT integer := 1; BEGIN DECLARE a integer; BEGIN a := 1; l.a := 2; END; END  ->  22005 line 1
DECLARE a CONSTANT t := ROW(1, 'a'); BEGIN a.b := 'b'; END  ->  22005 line 1
BEGIN EXCEPTION WHEN others THEN sqlerrm := 'a'; END  ->  22005 line 1
BEGIN EXCEPTION WHEN others THEN NULL;¶sqlstate := 'a'; END  ->  22005 line 2
-- A variable that is NOT NULL and has no default.
DECLARE a integer NOT NULL; BEGIN END  ->  22004 line 1
DECLARE¶a integer;¶b CONSTANT¶integer NOT NULL; BEGIN END  ->  22004 line 3
BEGIN DECLARE a text NOT NULL; BEGIN END; END  ->  22004 line 1
-- Two declarations of one name in a block.
DECLARE a integer; a integer; BEGIN END  ->  42601 line 1
DECLARE a integer;¶b integer;¶A text; BEGIN END  ->  42601 line 3
DECLARE a integer; a CURSOR FOR SELECT 1; BEGIN END  ->  42601 line 1
DECLARE a integer; a integer NOT NULL; BEGIN END  ->  42601 line 1
BEGIN DECLARE a integer; BEGIN END; DECLARE b integer;¶b integer; BEGIN END; END  ->  42601 line 2
-- A label that isn't there.
BEGIN LOOP EXIT a; END LOOP; END  ->  42601 line 1
BEGIN LOOP¶CONTINUE a; END LOOP; END  ->  42601 line 2
BEGIN EXIT a; END  ->  42601 line 1
BEGIN <<l>> LOOP EXIT "L"; END LOOP; END  ->  42601 line 1
BEGIN <<l>> LOOP END LOOP;¶EXIT l; END  ->  42601 line 2
BEGIN <<l>> BEGIN END; LOOP EXIT l; END LOOP; END  ->  42601 line 1
! BEGIN EXIT f; END  ->  42601 line 1
BEGIN FOR i IN 1..2 LOOP EXIT i; END LOOP; END  ->  42601 line 1
<<l>> BEGIN LOOP CONTINUE l; END LOOP; END  ->  42601 line 1
BEGIN <<l>> BEGIN LOOP CONTINUE l WHEN z; END LOOP; END; END  ->  42601 line 1
BEGIN <<l>> LOOP <<l>> BEGIN CONTINUE l; END; END LOOP; END  ->  42601 line 1
-- EXIT and CONTINUE without a label, outside of a loop.
BEGIN EXIT; END  ->  42601 line 1
BEGIN¶EXIT WHEN z; END  ->  42601 line 2
BEGIN CONTINUE; END  ->  42601 line 1
BEGIN CONTINUE WHEN z; END  ->  42601 line 1
<<l>> BEGIN EXIT; END  ->  42601 line 1
BEGIN LOOP END LOOP; EXIT; END  ->  42601 line 1
BEGIN IF z THEN EXIT; END IF; END  ->  42601 line 1
BEGIN CASE WHEN z THEN NULL; ELSE¶CONTINUE; END CASE; END  ->  42601 line 2
BEGIN EXCEPTION WHEN others THEN EXIT; END  ->  42601 line 1
-- Names behind END.
BEGIN END a  ->  42601 line 1
<<l>> BEGIN END a  ->  42601 line 1
<<l>> BEGIN END "L"  ->  42601 line 1
¶<<l>>¶BEGIN¶NULL;¶END a  ->  42601 line 3
BEGIN¶BEGIN¶NULL;¶END a;¶END  ->  42601 line 2
BEGIN LOOP END LOOP a; END  ->  42601 line 1
BEGIN <<l>>¶LOOP¶END LOOP a; END  ->  42601 line 2
BEGIN <<l>> FOR i IN 1..2 LOOP END LOOP i; END  ->  42601 line 1
<<l>> BEGIN <<m>> BEGIN END l; END m  ->  42601 line 1
BEGIN END f  ->  42601 line 1
-- Cursors' names that are no variables.
BEGIN OPEN c; END  ->  42601 line 1
BEGIN OPEN c FOR SELECT 1; END  ->  42601 line 1
BEGIN OPEN c(1); END  ->  42601 line 1
BEGIN¶FETCH c INTO x; END  ->  42601 line 2
BEGIN MOVE c; END  ->  42601 line 1
BEGIN MOVE FORWARD 2 FROM c; END  ->  42601 line 1
BEGIN CLOSE c; END  ->  42601 line 1
BEGIN FOR r IN c LOOP END LOOP; END  ->  42601 line 1
BEGIN FOR r IN c(1) LOOP END LOOP; END  ->  42601 line 1
-- Variables that are no cursors.
BEGIN OPEN x; END  ->  42804 line 1
BEGIN OPEN x FOR SELECT 1; END  ->  42804 line 1
BEGIN OPEN x(1, 2); END  ->  42804 line 1
BEGIN¶FETCH x INTO y; END  ->  42804 line 2
BEGIN FETCH FIRST FROM x INTO x; END  ->  42804 line 1
BEGIN MOVE y; END  ->  42804 line 1
BEGIN CLOSE z; END  ->  42804 line 1
DECLARE r record; BEGIN CLOSE r; END  ->  42804 line 1
DECLARE r t; BEGIN MOVE LAST IN r; END  ->  42804 line 1
-- Bound cursors and others.
DECLARE c refcursor; BEGIN OPEN c; END  ->  42601 line 1
DECLARE c refcursor; BEGIN OPEN c(1); END  ->  42601 line 1
DECLARE c CURSOR FOR SELECT 1; d c%TYPE; BEGIN OPEN d; END  ->  42601 line 1
DECLARE c CURSOR FOR SELECT 1; BEGIN OPEN c FOR SELECT 1; END  ->  42601 line 1
DECLARE c CURSOR FOR SELECT 1; BEGIN¶OPEN c FOR EXECUTE y; END  ->  42601 line 2
DECLARE c CURSOR (a integer) FOR SELECT 1; BEGIN OPEN c SCROLL FOR SELECT 1; END  ->  42601 line 1
BEGIN FOR r IN x LOOP END LOOP; END  ->  42601 line 1
DECLARE c refcursor; BEGIN FOR r IN c LOOP END LOOP; END  ->  42601 line 1
DECLARE c refcursor; BEGIN FOR r IN c(1) LOOP END LOOP; END  ->  42601 line 1
DECLARE c CURSOR FOR SELECT 1; BEGIN FOR r IN c LOOP FOR s IN r LOOP END LOOP; END LOOP; END  ->  42601 line 1
-- The number of a cursor's arguments.
DECLARE c CURSOR FOR SELECT 1; BEGIN OPEN c(1); END  ->  42601 line 1
DECLARE c CURSOR (a integer) FOR SELECT 1; BEGIN OPEN c; END  ->  42601 line 1
DECLARE c CURSOR (a integer) FOR SELECT 1; BEGIN OPEN c(1, 2); END  ->  42601 line 1
DECLARE c CURSOR (a integer, b text) FOR SELECT 1; BEGIN OPEN c(1); END  ->  42601 line 1
DECLARE c CURSOR FOR SELECT 1; BEGIN FOR r IN c(1) LOOP END LOOP; END  ->  42601 line 1
DECLARE c CURSOR (a integer) FOR SELECT 1; BEGIN FOR r IN c LOOP END LOOP; END  ->  42601 line 1
DECLARE c CURSOR (a integer, b text) FOR SELECT 1; BEGIN¶FOR r IN c(1) LOOP END LOOP; END  ->  42601 line 2
-- The arguments of RAISE.
BEGIN RAISE '%'; END  ->  42601 line 1
BEGIN¶RAISE NOTICE '% %', x; END  ->  42601 line 2
BEGIN RAISE 'a', x; END  ->  42601 line 1
BEGIN RAISE '%', x, y; END  ->  42601 line 1
BEGIN RAISE '%%', x; END  ->  42601 line 1
BEGIN RAISE '%%%'; END  ->  42601 line 1
BEGIN RAISE 'a%' USING HINT = 'b'; END  ->  42601 line 1
-- Its options.
! BEGIN RAISE 'a' USING HINT = 'a', HINT = 'b'; END  ->  42601 line 1
! BEGIN RAISE USING MESSAGE = 'a', DETAIL = 'b', MESSAGE = 'c'; END  ->  42601 line 1
! BEGIN RAISE 'a' USING MESSAGE = 'b'; END  ->  42601 line 1
! BEGIN¶RAISE NOTICE '%', x USING DETAIL = 'a', MESSAGE = 'b'; END  ->  42601 line 2
! BEGIN RAISE division_by_zero USING ERRCODE = '22012'; END  ->  42601 line 1
! BEGIN RAISE SQLSTATE '22012' USING ERRCODE = '22012'; END  ->  42601 line 1
-- Its condition.
BEGIN RAISE nosuch; END  ->  42704 line 1
BEGIN¶RAISE NOTICE nosuch USING HINT = 'a'; END  ->  42704 line 2
BEGIN RAISE "Division_by_zero"; END  ->  42704 line 1
BEGIN RAISE others; END  ->  42704 line 1
! BEGIN RAISE x; END  ->  42704 line 1
! BEGIN RAISE SQLSTATE '00000'; END  ->  42704 line 1
! BEGIN RAISE SQLSTATE '2201'; END  ->  42704 line 1
! BEGIN RAISE SQLSTATE '22012 '; END  ->  42704 line 1
! BEGIN RAISE SQLSTATE 'abcde'; END  ->  42704 line 1
! BEGIN RAISE NOTICE; END  ->  42704 line 1
! BEGIN RAISE EXCEPTION; END  ->  42704 line 1
! BEGIN RAISE SQLSTATE; END  ->  42704 line 1
! BEGIN RAISE nosuch USING ERRCODE = 'a'; END  ->  42601 line 1
-- The conditions of handlers.
BEGIN EXCEPTION WHEN nosuch THEN END  ->  42704 line 1
¶BEGIN¶NULL; EXCEPTION¶WHEN others OR nosuch THEN END  ->  42704 line 2
BEGIN EXCEPTION WHEN division_by_zero THEN WHEN nosuch THEN END  ->  42704 line 1
BEGIN¶BEGIN¶EXCEPTION WHEN nosuch THEN END; END  ->  42704 line 2
! BEGIN EXCEPTION WHEN "others" THEN END  ->  42704 line 1
! BEGIN EXCEPTION WHEN SQLSTATE THEN END  ->  42704 line 1
! BEGIN EXCEPTION WHEN SQLSTATE '00000' THEN END  ->  42704 line 1
! BEGIN EXCEPTION WHEN SQLSTATE '2201' THEN END  ->  42704 line 1
! BEGIN EXCEPTION WHEN SQLSTATE 'abcde' THEN END  ->  42704 line 1
-- RETURN.
BEGIN RETURN 1; END  ->  42804 line 1
BEGIN¶RETURN NULL; END  ->  42804 line 2
BEGIN RETURN NEXT; END  ->  42804 line 1
BEGIN RETURN NEXT 1; END  ->  42804 line 1
BEGIN RETURN QUERY SELECT 1; END  ->  42804 line 1
BEGIN RETURN QUERY EXECUTE y; END  ->  42804 line 1
-- Of several rules that are broken the first in reading order counts.
BEGIN a := 1;¶EXIT; END  ->  42601 line 1
BEGIN¶RETURN 1;¶a := 1; END  ->  42804 line 2
DECLARE a integer NOT NULL; BEGIN EXIT; END  ->  22004 line 1
BEGIN IF z THEN¶RAISE nosuch;¶ELSE¶EXIT;¶END IF; END  ->  42704 line 2
BEGIN IF z THEN NULL; ELSIF z THEN¶RAISE nosuch;¶ELSE¶EXIT;¶END IF; END  ->  42704 line 2
BEGIN CASE x WHEN 1 THEN NULL; WHEN 2 THEN¶RETURN 1;¶ELSE¶EXIT;¶END CASE; END  ->  42804 line 2
BEGIN LOOP¶a := 1;¶END LOOP b; END  ->  42601 line 2
BEGIN FOR r IN SELECT 1 LOOP¶RAISE nosuch;¶END LOOP; END  ->  42601 line 1
BEGIN¶RETURN 1;¶EXCEPTION WHEN nosuch THEN END  ->  42804 line 2
BEGIN EXCEPTION WHEN nosuch THEN¶RETURN 1; END  ->  42704 line 1
BEGIN EXCEPTION WHEN others THEN¶RETURN 1;¶WHEN nosuch THEN END  ->  42804 line 2
BEGIN¶RETURN 1;¶END a  ->  42804 line 2
BEGIN NULL;¶BEGIN¶RAISE nosuch;¶END a;¶END b  ->  42704 line 3
-- And of those that one statement breaks the first SQLSTATE of 42601, 42704, 22004, 22005, 42804.
! DECLARE a CONSTANT integer := 1; BEGIN SELECT 1, 2 INTO a, b; END  ->  42601 line 1
DECLARE a CONSTANT integer := 1; BEGIN SELECT 1, 2 INTO b, a; END  ->  42601 line 1
! BEGIN FETCH x INTO a; END  ->  42601 line 1
! DECLARE a CONSTANT integer := 1; BEGIN FETCH x INTO a; END  ->  22005 line 1
BEGIN FETCH c INTO x; END  ->  42601 line 1
= FUNCTION f(x integer, y text) RETURNS integer
BEGIN RETURN; END  ->  42601 line 1
BEGIN IF x = 1 THEN RETURN x; END IF;¶RETURN; END  ->  42601 line 2
BEGIN RETURN NEXT 1; END  ->  42804 line 1
BEGIN RETURN NEXT; END  ->  42804 line 1
BEGIN RETURN QUERY SELECT 1; END  ->  42804 line 1
BEGIN RETURN QUERY EXECUTE y; END  ->  42804 line 1
= FUNCTION f() RETURNS trigger
BEGIN RETURN; END  ->  42601 line 1
BEGIN RETURN NEXT NEW; END  ->  42804 line 1
BEGIN tg_nosuch := 1; END  ->  42601 line 1
! BEGIN tg_nargs := 1; END  ->  42601 line 1
! BEGIN tg_table_schema := 'a'; END  ->  42601 line 1
= FUNCTION f() RETURNS SETOF integer
BEGIN RETURN 1; END  ->  42804 line 1
! BEGIN RETURN QUERY; END  ->  42804 line 1
BEGIN RETURN NEXT; END  ->  42601 line 1
= FUNCTION f() RETURNS TABLE (a integer, b text)
BEGIN RETURN 1; END  ->  42804 line 1
BEGIN RETURN NEXT 1; END  ->  42804 line 1
BEGIN c := 1; END  ->  42601 line 1
= FUNCTION f(OUT a integer, OUT b integer)
BEGIN RETURN 1; END  ->  42804 line 1
BEGIN RETURN NEXT; END  ->  42804 line 1
BEGIN RETURN QUERY SELECT 1, 2; END  ->  42804 line 1
= FUNCTION f(INOUT a integer)
BEGIN RETURN a; END  ->  42804 line 1
= FUNCTION f(OUT a integer) RETURNS SETOF integer
BEGIN RETURN 1; END  ->  42804 line 1
BEGIN RETURN NEXT 1; END  ->  42804 line 1
= FUNCTION f(integer) RETURNS void
BEGIN integer := 1; END  ->  42601 line 1
= PROCEDURE p(x integer, INOUT b integer)
BEGIN RETURN 1; END  ->  42804 line 1
BEGIN RETURN NEXT 1; END  ->  42804 line 1
BEGIN RETURN QUERY SELECT 1; END  ->  42804 line 1
BEGIN END p  ->  42601 line 1
BEGIN p.c := 1; END  ->  42601 line 1
= PROCEDURE p(x integer)
! BEGIN RETURN 1; END  ->  42804 line 1
= DO
BEGIN RETURN 1; END  ->  42804 line 1
BEGIN¶RETURN NEXT 1; END  ->  42804 line 2
BEGIN x := 1; END  ->  42601 line 1
BEGIN EXIT; END  ->  42601 line 1
"#;

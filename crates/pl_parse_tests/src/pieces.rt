//! Texts that are a piece of a body, and texts that are none.

use pl_base::Held;
use pl_body_pieces::block_piece;
use pl_grammar::Tokens;
use pl_lex::{Token, lex};
use std::alloc::Global;

/// Each line is one piece, as it stands in a block.
const PIECES: &str = "<<l>>
DECLARE
BEGIN
ELSE
END;
END l;
END IF;
END CASE;
END LOOP;
END LOOP l;
LOOP
EXCEPTION WHEN others OR division_by_zero OR SQLSTATE '22012' THEN
WHEN unique_violation THEN
IF a > 1 THEN
ELSIF b THEN
ELSEIF c THEN
CASE WHEN a THEN
CASE a WHEN 1, 2 THEN
WHILE a < 10 LOOP
FOR i IN 1..10 LOOP
FOR i IN REVERSE 10..1 BY 2 LOOP
FOR r IN SELECT a FROM t WHERE b LOOP
FOR a, b.c IN DELETE FROM t RETURNING x, y LOOP
FOR r IN EXECUTE 'SELECT 1' USING a LOOP
FOR r IN c LOOP
FOR r IN c(1, 2) LOOP
NULL;
a := 1;
a.b = 1;
raise := 1;
EXIT;
EXIT l WHEN a;
CONTINUE WHEN a;
RETURN;
RETURN a + 1;
RETURN NEXT;
RETURN NEXT a;
RETURN next;
RETURN QUERY SELECT a FROM t;
RETURN QUERY EXECUTE a USING b, c;
RAISE;
RAISE NOTICE 'a %', b;
RAISE division_by_zero USING MESSAGE = 'a', HINT := b;
RAISE EXCEPTION SQLSTATE '22012';
RAISE USING ERRCODE = '22012';
ASSERT a, 'b';
GET DIAGNOSTICS a = ROW_COUNT;
GET STACKED DIAGNOSTICS a = MESSAGE_TEXT, b := RETURNED_SQLSTATE;
OPEN c;
OPEN c(1);
OPEN c NO SCROLL FOR SELECT 1;
OPEN c FOR EXECUTE a USING b;
FETCH c INTO a;
FETCH ABSOLUTE 2 FROM c INTO a, b;
FETCH next INTO a;
MOVE c;
MOVE FORWARD ALL IN c;
MOVE BACKWARD 2 FROM c;
CLOSE c;
SELECT a INTO STRICT b FROM t;
SELECT INTO a b FROM t;
PERFORM f(1);
EXECUTE a INTO b USING c;
INSERT INTO t VALUES (1) RETURNING a INTO b;
UPDATE t SET a = 1;
COMMIT;
ROLLBACK;
CALL p(1);
DO 'x';
START TRANSACTION;
SAVEPOINT a;
RELEASE SAVEPOINT a;
CREATE TABLE t (a integer);
DROP TABLE t;";

/// No line is one piece of a block.
const NO_PIECES: &str = "
a
;
a := 1
END IF
IF a
IF THEN
CASE THEN
WHEN a > 1 THEN
FOR a, b IN 1..2 LOOP
FOR a.b IN c LOOP
FOR r IN 1 LOOP
WHILE LOOP
RETURN NEXT QUERY SELECT 1;
RAISE 1;
RAISE 'a' USING a = 1;
ASSERT a, b, c;
GET DIAGNOSTICS a = b;
OPEN c FOR a;
FETCH c;
MOVE c INTO a;
SELECT a INTO b INTO c;
PERFORM;
UPDATE t SET a = 1 INTO b;
BEGIN TRANSACTION;
ABORT;
VACUUM;
NULL; NULL;";

fn is_one_piece(alloc: Global, tokens: &[Token]) -> bool {
    let mut rest = Tokens::new(tokens);
    block_piece(alloc, &mut rest).map(Held::new).is_ok() && rest.left() == 0
}

fn is_piece(alloc: Global, text: &str) -> bool {
    match lex(alloc, text) {
        Ok(tokens) => is_one_piece(alloc, tokens.as_slice()),
        Err(_) => false,
    }
}

/// The first line that is no piece, or one where none is to be.
fn other(alloc: Global, lines: &'static str, want: bool) -> Option<&'static str> {
    for line in lines.lines() {
        if is_piece(alloc, line) != want {
            return Some(line);
        }
    }
    None
}

#[test]
fn pieces_are_read_and_others_are_not(rt: HostRuntime) {
    assert_eq!(rt; other(rt.alloc(), PIECES, true), None);
    assert_eq!(rt; other(rt.alloc(), NO_PIECES, false), None);
}

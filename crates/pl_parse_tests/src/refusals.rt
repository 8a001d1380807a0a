//! Texts that no tree spells.

/// Lines that are no expressions. One that begins with `--` says what follows.
pub(crate) const NO_EXPRESSIONS: &str = r#"
-- Nothing, too much, and brackets that don't match.
a b
1 2
'a' 'b'
a 1
a,b
a;
a =
= a
* a
a *
a + * b
a ||
|| a
(
)
()
(a
a)
((a)
(a))
(a, b)
f(
f(a
f(a,)
f(,a)
f(a b)
f a
a.
.a
t.a.b
t.*
*
t.f(a)
a.$1
$1 $2
-- Reserved words are no names.
select
from
t.select
select.a
where(a)
order
end
row
in
all
-- Levels that don't chain and operands that are too loose.
a < b < c
a = b = c
a <> b > c
a = b IS NULL = c
a IS NULL = b
a IS NULL IS NULL
a IS NOT NULL IS TRUE
a IS DISTINCT FROM b IS NULL
a IS DISTINCT FROM b IS DISTINCT FROM c
a LIKE b LIKE c
a LIKE b IN (c)
a IN (b) IN (c)
a BETWEEN 1 AND 2 BETWEEN 3 AND 4
a BETWEEN b LIKE c AND d
a BETWEEN b = c AND d
a BETWEEN 1 OR 2 AND 3
a BETWEEN 1
a BETWEEN 1 AND
a BETWEEN 1, 2
a BETWEEN NOT b AND c
a NOT
a NOT b
a NOT = b
a NOT NOT LIKE b
a NOT IS NULL
a LIKE NOT b
a = NOT b
a + NOT b
- NOT a
a || NOT b
a IS DISTINCT FROM NOT b
NOT
a AND
AND a
a OR
a OR OR b
a AND OR b
-- IN, IS, casts.
a IN
a IN ()
a IN b
a IN (b
a IN (SELECT 1
a IN (SELECT 1, (b)
a IN (SELECT 1) (SELECT 2)
a IN (b, SELECT 1)
a IS
a IS NOT
a IS b
a IS NOT b
a IS "unknown"
a IS DISTINCT b
a IS DISTINCT FROM
a IS NOT NOT NULL
a IS DISTINCT NULL
a::
a::1
a::select
a::text(5)
a::-b
::text
CAST(a)
CAST(a, text)
CAST(a AS)
CAST(a AS 'text')
CAST a AS text
CAST(a AS text
-- Words with brackets of their own.
COALESCE()
COALESCE
COALESCE a
COALESCE(a,)
COALESCE(*)
GREATEST()
LEAST()
GREATEST(SELECT 1)
NULLIF(a)
NULLIF(a, b, c)
NULLIF()
ROW
ROW(a,)
ROW(*)
EXISTS
EXISTS ()
EXISTS (a)
EXISTS SELECT 1
EXISTS ((SELECT 1))
SELECT 1
(SELECT 1
((SELECT 1)
(SELECT)
f(SELECT 1)
-- CASE.
CASE
CASE END
CASE a END
CASE WHEN a THEN b
CASE WHEN a END
CASE WHEN THEN b END
CASE WHEN a THEN END
CASE a THEN b END
CASE ELSE a END
CASE a ELSE b END
CASE WHEN a THEN b ELSE END
CASE WHEN a THEN b ELSE c ELSE d END
CASE WHEN a THEN b ELSE c WHEN d THEN e END
CASE WHEN a, b THEN c END
CASE a WHEN b THEN c END CASE
-- Calls.
sum(*)
f(*)
"Count"(*)
count(* )+
count(*, a)
count(a, *)
count(DISTINCT a)
count(ALL a)
f(fatal_errors => false)
f(a, fatal_errors => false)
sum(fatal_errors => a)
plpgsql_check_function(fatal_errors => false, 'f()')
plpgsql_check_function('f()', fatal_errors => false, fatal_errors => true)
plpgsql_check_function('f()', fatal_errors => false, 1)
plpgsql_check_function('f()', other => false)
plpgsql_check_function('f()', "fatal_errors" => false)
plpgsql_check_function('f()', fatal_errors =>)
plpgsql_check_function('f()', fatal_errors := false)
plpgsql_check_function('f()', (fatal_errors => false))
"PLPGSQL_CHECK_FUNCTION"('f()', fatal_errors => false)
-- What PostgreSQL or other grammars would read further.
(a).b
f(a).b
$1.a
(a)(b)
(a, b) = (c, d)
a::t.b
a IS NOT DISTINCT b
a NOT DISTINCT FROM b
a IS LIKE b
a IS IN (b)
a LIKE b ESCAPE c
a ILIKE b
a ISNULL
a BETWEEN SYMMETRIC 1 AND 2
a = ALL (SELECT 1)
a == b
a < = b
a ** b
a % % b
a || || b
- * a
e 'a'
NOT ()
ROW (SELECT 1)
COALESCE(SELECT 1)
-- Signs of other places.
a := b
a => b
a << b
a >> b
a .. b
a : b
+
-
- -
"#;

/// Lines that are no queries, likewise.
pub(crate) const NO_QUERIES: &str = r#"
-- Nothing, other commands, and too much.
SELECT
SELECT ;
SELECT 1;
(SELECT 1)
1
a
VALUES (1)
WITH q AS (SELECT 1) SELECT 1
SELECT 1 SELECT 2
SELECT 1 UNION SELECT 2
SELECT 1)
SELECT (1
-- Items.
SELECT ,
SELECT a,
SELECT ,a
SELECT a,,b
SELECT FROM t
SELECT DISTINCT
SELECT ALL
SELECT DISTINCT ALL a
SELECT ALL DISTINCT a
SELECT DISTINCT DISTINCT a
SELECT DISTINCT ON (a) b
SELECT a AS
SELECT a AS 1
SELECT a AS 'b'
SELECT a b c
SELECT a AS b c
SELECT a order
SELECT a left
SELECT a from
SELECT a and
SELECT * AS a
SELECT * a
SELECT t.* AS a
SELECT t.* a
SELECT t.*.a
SELECT t.u.*
SELECT * * a
SELECT *.a
SELECT select
SELECT from.a
SELECT row.*
-- Clauses out of order, twice, or without what belongs to them.
SELECT a FROM
SELECT a WHERE
SELECT a FROM t WHERE
SELECT a FROM t WHERE b WHERE c
SELECT a WHERE b FROM t
SELECT a FROM t GROUP a
SELECT a right
SELECT a full FROM t
SELECT a, b natural
SELECT a isnull
SELECT 1 + a NOTNULL
SELECT a FROM t GROUP BY
SELECT a FROM t GROUP BY ()
SELECT a FROM t GROUP BY a,
SELECT a FROM t GROUP BY a AS b
SELECT a FROM t HAVING
SELECT a FROM t HAVING b GROUP BY a
SELECT a FROM t GROUP BY a WHERE b
SELECT a FROM t ORDER a
SELECT a FROM t ORDER BY
SELECT a FROM t ORDER BY a,
SELECT a FROM t ORDER BY a ASC DESC
SELECT a FROM t ORDER BY ASC
SELECT a FROM t ORDER BY a NULLS
SELECT a FROM t ORDER BY a NULLS b
SELECT a FROM t ORDER BY a NULLS "first"
SELECT a FROM t ORDER BY a "nulls" FIRST
SELECT a FROM t ORDER BY a FIRST
SELECT a FROM t ORDER BY a NULLS FIRST DESC
SELECT a FROM t ORDER BY a NULLS FIRST LAST
SELECT a FROM t ORDER BY a NULLS FIRST NULLS LAST
SELECT a FROM t ORDER BY a b
SELECT a FROM t ORDER BY *
SELECT a FROM t ORDER BY a WHERE b
SELECT a LIMIT
SELECT a OFFSET
SELECT a LIMIT OFFSET 1
SELECT a LIMIT 1 LIMIT 2
SELECT a OFFSET 1 OFFSET 2
SELECT a LIMIT 1 OFFSET 2 LIMIT 3
SELECT a OFFSET 1 LIMIT 2 OFFSET 3
SELECT a LIMIT ALL ALL
SELECT a LIMIT 1, 2
SELECT a OFFSET ALL
SELECT a OFFSET 1 ROWS
SELECT a LIMIT 1 ORDER BY a
SELECT a FROM t LIMIT 1 WHERE b
-- FROM.
SELECT a FROM ,
SELECT a FROM t,
SELECT a FROM t AS
SELECT a FROM t AS select
SELECT a FROM t where
SELECT a FROM t x y
SELECT a FROM t AS x y
SELECT a FROM select
SELECT a FROM 1
SELECT a FROM 't'
SELECT a FROM $1
SELECT a FROM t.u
SELECT a FROM t.*
SELECT a FROM ()
SELECT a FROM (t
SELECT a FROM t)
SELECT a FROM (t) x
SELECT a FROM (t) AS x
SELECT a FROM (t, u)
SELECT a FROM (SELECT 1
SELECT a FROM (SELECT 1) AS
SELECT a FROM (SELECT 1) x y
SELECT a FROM ((SELECT 1)) x
SELECT a FROM SELECT 1
SELECT a FROM t x (b, c)
SELECT a FROM f(
SELECT a FROM f(*)
SELECT a FROM count(*)
SELECT a FROM f() x (b)
SELECT a FROM f(fatal_errors => true)
SELECT a FROM plpgsql_check_function(fatal_errors => true, 'f()')
SELECT a FROM (f()) x
SELECT a FROM COALESCE(a)
SELECT a FROM f() + 1
SELECT a FROM only
SELECT a FROM only t
SELECT a FROM ONLY AS t
SELECT a FROM t, only
SELECT a FROM t CROSS JOIN only
SELECT a FROM t right
SELECT a FROM t full
SELECT a FROM t natural, u
SELECT a FROM (SELECT 1) isnull
SELECT a FROM f() notnull
-- Joins.
SELECT * FROM t JOIN u
SELECT * FROM t INNER JOIN u
SELECT * FROM t LEFT JOIN u
SELECT * FROM t JOIN u ON
SELECT * FROM t JOIN ON a
SELECT * FROM JOIN u ON a
SELECT * FROM t LEFT u ON a
SELECT * FROM t OUTER JOIN u
SELECT * FROM t INNER u ON a
SELECT * FROM t INNER OUTER JOIN u ON a
SELECT * FROM t LEFT "outer" JOIN u ON a
SELECT * FROM t LEFT INNER JOIN u ON a
SELECT * FROM t LEFT OUTER OUTER JOIN u ON a
SELECT * FROM t CROSS u
SELECT * FROM t CROSS JOIN u ON a
SELECT * FROM t CROSS OUTER JOIN u
SELECT * FROM t JOIN u USING (a)
SELECT * FROM t RIGHT JOIN u ON a
SELECT * FROM t FULL JOIN u ON a
SELECT * FROM t NATURAL JOIN u ON a
SELECT * FROM t CROSS JOIN u right
SELECT * FROM t RIGHT OUTER JOIN u ON a
SELECT * FROM t NATURAL INNER JOIN u ON a ON b
SELECT * FROM t JOIN u ON a ON b
SELECT * FROM t JOIN u JOIN v ON a ON b
SELECT * FROM t, JOIN u ON a
SELECT * FROM t JOIN u, v ON a
SELECT * FROM (t JOIN u) ON a
SELECT * FROM (t JOIN u ON a) x
SELECT * FROM (t JOIN u ON a
SELECT * FROM t JOIN (u ON a)
"#;

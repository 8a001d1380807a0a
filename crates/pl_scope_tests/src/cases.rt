//! Queries, and what a PostgreSQL server says of them; made by tools/resolution-cases.

/// Lines `query  ->  columns`, or in place of the columns the SQLSTATE of the first failing node.
pub(crate) const CASES: &str = r#"
SELECT 1  ->  ?column? integer
SELECT 2147483648  ->  ?column? bigint
SELECT -2147483648  ->  ?column? integer
SELECT -2147483649  ->  ?column? bigint
SELECT 'x'  ->  ?column? text
SELECT NULL  ->  ?column? text
SELECT true  ->  ?column? boolean
SELECT a FROM t  ->  a integer
SELECT t.a FROM t  ->  a integer
SELECT t.a, b, s, f FROM t  ->  a integer,b bigint,s text,f boolean
SELECT * FROM t  ->  a integer,b bigint,s text,f boolean
SELECT t.* FROM t  ->  a integer,b bigint,s text,f boolean
SELECT * FROM t, n  ->  a integer,b bigint,s text,f boolean,c integer
SELECT * FROM t a, t b  ->  a integer,b bigint,s text,f boolean,a integer,b bigint,s text,f boolean
SELECT a.*, b.a FROM t a, t b  ->  a integer,b bigint,s text,f boolean,a integer
SELECT b.* FROM t a  ->  42P01
SELECT x FROM t  ->  42703
SELECT t.x FROM t  ->  42703
SELECT x.a FROM t  ->  42P01
SELECT t.a FROM t x  ->  42P01
SELECT a FROM t, u  ->  42702
SELECT t.a FROM t, u  ->  a integer
SELECT c FROM t, n  ->  c integer
SELECT c FROM u, n  ->  42702
SELECT a FROM missing  ->  42P01
SELECT a FROM t, t  ->  42712
SELECT a FROM t x, u x  ->  42712
SELECT a FROM t JOIN t ON true  ->  42712
SELECT 1 FROM t, (u JOIN t ON true)  ->  42712
SELECT 1 FROM (SELECT 1) x, t x  ->  42712
SELECT a AS x FROM t  ->  x integer
SELECT a + b FROM t  ->  ?column? bigint
SELECT a + 1 FROM t  ->  ?column? integer
SELECT b + 1 FROM t  ->  ?column? bigint
SELECT a + s FROM t  ->  42883
SELECT a + '1' FROM t  ->  ?column? integer
SELECT a + f FROM t  ->  42883
SELECT s + s FROM t  ->  42883
SELECT a - b * 2 FROM t  ->  ?column? bigint
SELECT a / 2 % 3 FROM t  ->  ?column? integer
SELECT f * 2 FROM t  ->  42883
SELECT s || a FROM t  ->  ?column? text
SELECT a || s FROM t  ->  ?column? text
SELECT a || a FROM t  ->  42883
SELECT s || f FROM t  ->  ?column? text
SELECT 'x' || 'y'  ->  ?column? text
SELECT 'x' || a FROM t  ->  ?column? text
SELECT a = b FROM t  ->  ?column? boolean
SELECT a = s FROM t  ->  42883
SELECT a = '1' FROM t  ->  ?column? boolean
SELECT s = 'x' FROM t  ->  ?column? boolean
SELECT f = true FROM t  ->  ?column? boolean
SELECT f = a FROM t  ->  42883
SELECT s < 'x' FROM t  ->  ?column? boolean
SELECT 'x' = 'y'  ->  ?column? boolean
SELECT NULL = 1  ->  ?column? boolean
SELECT a = NULL FROM t  ->  ?column? boolean
SELECT NOT f FROM t  ->  ?column? boolean
SELECT NOT a FROM t  ->  42804
SELECT NOT NULL  ->  ?column? boolean
SELECT NOT s FROM t  ->  42804
SELECT NOT NOT f FROM t  ->  ?column? boolean
SELECT f AND a = 1 FROM t  ->  ?column? boolean
SELECT f OR NULL FROM t  ->  ?column? boolean
SELECT a AND f FROM t  ->  42804
SELECT f OR s FROM t  ->  42804
SELECT f AND s = 'x' OR NOT f FROM t  ->  ?column? boolean
SELECT -a FROM t  ->  ?column? integer
SELECT -b FROM t  ->  ?column? bigint
SELECT +a FROM t  ->  ?column? integer
SELECT -s FROM t  ->  42883
SELECT -f FROM t  ->  42883
SELECT - - a FROM t  ->  ?column? integer
SELECT a IS NULL FROM t  ->  ?column? boolean
SELECT a IS NOT NULL FROM t  ->  ?column? boolean
SELECT f IS TRUE FROM t  ->  ?column? boolean
SELECT f IS NOT UNKNOWN FROM t  ->  ?column? boolean
SELECT a IS TRUE FROM t  ->  42804
SELECT s IS FALSE FROM t  ->  42804
SELECT NULL IS TRUE  ->  ?column? boolean
SELECT a IS DISTINCT FROM b FROM t  ->  ?column? boolean
SELECT a IS DISTINCT FROM s FROM t  ->  42883
SELECT a IS NOT DISTINCT FROM NULL FROM t  ->  ?column? boolean
SELECT s LIKE 'x%' FROM t  ->  ?column? boolean
SELECT a LIKE 'x' FROM t  ->  42883
SELECT s NOT LIKE s FROM t  ->  ?column? boolean
SELECT 'x' LIKE 'y'  ->  ?column? boolean
SELECT a BETWEEN 1 AND 2 FROM t  ->  ?column? boolean
SELECT a BETWEEN b AND 2 FROM t  ->  ?column? boolean
SELECT a BETWEEN s AND 2 FROM t  ->  42883
SELECT a NOT BETWEEN 1 AND b FROM t  ->  ?column? boolean
SELECT s BETWEEN 'a' AND 'b' FROM t  ->  ?column? boolean
SELECT f BETWEEN 1 AND 2 FROM t  ->  42883
SELECT a IN (1, 2) FROM t  ->  ?column? boolean
SELECT a IN (b, 2) FROM t  ->  ?column? boolean
SELECT a IN (s) FROM t  ->  42883
SELECT a IN ('1', 2) FROM t  ->  ?column? boolean
SELECT s IN ('x') FROM t  ->  ?column? boolean
SELECT f IN (true, NULL) FROM t  ->  ?column? boolean
SELECT a NOT IN (1, f) FROM t  ->  42883
SELECT a IN (SELECT c FROM n) FROM t  ->  ?column? boolean
SELECT a IN (SELECT b FROM t) FROM t  ->  ?column? boolean
SELECT a IN (SELECT c FROM u) FROM t  ->  42883
SELECT a IN (SELECT a, c FROM u) FROM t  ->  42601
SELECT a NOT IN (SELECT c FROM n) FROM t  ->  ?column? boolean
SELECT EXISTS (SELECT 1 FROM n)  ->  exists boolean
SELECT EXISTS (SELECT x FROM n)  ->  42703
SELECT EXISTS (SELECT * FROM n WHERE n.c = t.a) FROM t  ->  exists boolean
SELECT (SELECT c FROM n)  ->  c integer
SELECT (SELECT c AS x FROM n)  ->  x integer
SELECT (SELECT 1)  ->  ?column? integer
SELECT (SELECT a, b FROM t)  ->  42601
SELECT (SELECT * FROM n)  ->  c integer
SELECT (SELECT * FROM t)  ->  42601
SELECT (SELECT t.a) FROM t  ->  a integer
SELECT (SELECT a FROM n) FROM t  ->  a integer
SELECT (SELECT c FROM n WHERE a = c) FROM t  ->  c integer
SELECT (SELECT t.c FROM n t) FROM t  ->  c integer
SELECT (SELECT t.a FROM n t) FROM t  ->  42703
SELECT (SELECT a FROM u) FROM t  ->  a integer
SELECT (SELECT x FROM n) FROM t  ->  42703
SELECT CASE WHEN f THEN 1 END FROM t  ->  case integer
SELECT CASE WHEN f THEN 1 ELSE b END AS x FROM t  ->  x bigint
SELECT CASE WHEN f THEN 1 ELSE s END FROM t  ->  42804
SELECT CASE WHEN f THEN 'x' ELSE s END AS x FROM t  ->  x text
SELECT CASE WHEN f THEN NULL END FROM t  ->  case text
SELECT CASE WHEN a THEN 1 END FROM t  ->  42804
SELECT CASE a WHEN 1 THEN 'x' WHEN 2 THEN 'y' END FROM t  ->  case text
SELECT CASE a WHEN s THEN 1 END FROM t  ->  42883
SELECT CASE s WHEN 'x' THEN 1 END FROM t  ->  case integer
SELECT CASE a WHEN '1' THEN 1 END FROM t  ->  case integer
SELECT coalesce(a, b) FROM t  ->  coalesce bigint
SELECT coalesce(a, s) FROM t  ->  42804
SELECT coalesce(NULL, NULL)  ->  coalesce text
SELECT coalesce(a, 1) AS x FROM t  ->  x integer
SELECT greatest(a, b, 3) FROM t  ->  greatest bigint
SELECT least(s, 'x') FROM t  ->  least text
SELECT greatest(a, f) FROM t  ->  42804
SELECT least(f, f) FROM t  ->  least boolean
SELECT nullif(a, 1) FROM t  ->  nullif integer
SELECT nullif(a, b) FROM t  ->  nullif integer
SELECT nullif(a, s) FROM t  ->  42883
SELECT nullif('x', s) FROM t  ->  nullif text
SELECT a::text FROM t  ->  a text
SELECT a::bigint::text FROM t  ->  a text
SELECT '5'::integer  ->  int4 integer
SELECT 5::bigint  ->  int8 bigint
SELECT a::boolean FROM t  ->  a boolean
SELECT b::boolean FROM t  ->  42846
SELECT f::integer FROM t  ->  f integer
SELECT f::bigint FROM t  ->  42846
SELECT s::integer FROM t  ->  s integer
SELECT CAST(s AS boolean) FROM t  ->  s boolean
SELECT NULL::integer  ->  int4 integer
SELECT length(s) FROM t  ->  length integer
SELECT length(a) FROM t  ->  42883
SELECT length('x')  ->  length integer
SELECT length(s, s) FROM t  ->  42883
SELECT abs(a), abs(b) FROM t  ->  abs integer,abs bigint
SELECT abs(s) FROM t  ->  42883
SELECT mod(a, b) FROM t  ->  mod bigint
SELECT mod(a, 2) FROM t  ->  mod integer
SELECT upper(s), lower(s), btrim(s) FROM t  ->  upper text,lower text,btrim text
SELECT substr(s, 1), substr(s, 1, 2) FROM t  ->  substr text,substr text
SELECT substr(s, b) FROM t  ->  42883
SELECT strpos(s, 'x') FROM t  ->  strpos integer
SELECT replace(s, 'x', 'y') FROM t  ->  replace text
SELECT repeat(s, 3) FROM t  ->  repeat text
SELECT repeat(s, b) FROM t  ->  42883
SELECT nosuch(a) FROM t  ->  42883
SELECT nosuch(x) FROM t  ->  42703
SELECT count(*) FROM t  ->  count bigint
SELECT count(a) FROM t  ->  count bigint
SELECT count(a), sum(a), sum(a + 1), min(s), max(b) FROM t  ->  count bigint,sum bigint,sum bigint,min text,max bigint
SELECT sum(s) FROM t  ->  42883
SELECT sum(f) FROM t  ->  42883
SELECT bool_and(f), bool_or(f) FROM t  ->  bool_and boolean,bool_or boolean
SELECT bool_and(a) FROM t  ->  42883
SELECT string_agg(s, ',') FROM t  ->  string_agg text
SELECT string_agg(a, ',') FROM t  ->  42883
SELECT min(f) FROM t  ->  42883
SELECT sum(count(*)) FROM t  ->  42803
SELECT sum(sum(a)) FROM t  ->  42803
SELECT count(*) + 1 FROM t  ->  ?column? bigint
SELECT a FROM t WHERE count(*) > 1  ->  42803
SELECT a FROM t WHERE f  ->  a integer
SELECT a FROM t WHERE a  ->  42804
SELECT a FROM t WHERE NULL  ->  a integer
SELECT a FROM t WHERE 'true'  ->  a integer
SELECT a FROM t WHERE s  ->  42804
SELECT 1 FROM t JOIN u ON t.a = u.a  ->  ?column? integer
SELECT 1 FROM t JOIN u ON a = 1  ->  42702
SELECT 1 FROM t JOIN u ON t.a  ->  42804
SELECT 1 FROM t JOIN u ON x  ->  42703
SELECT 1 FROM t JOIN u ON count(*) = 1  ->  42803
SELECT 1 FROM n, t JOIN u ON n.c = 1  ->  42P01
SELECT 1 FROM t JOIN u ON t.a = u.a JOIN n ON n.c = t.a  ->  ?column? integer
SELECT 1 FROM t LEFT JOIN (u JOIN n ON u.a = n.c) ON t.a = n.c  ->  ?column? integer
SELECT 1 FROM t LEFT JOIN (u JOIN n ON u.a = t.a) ON true  ->  42P01
SELECT 1 FROM t CROSS JOIN u  ->  ?column? integer
SELECT * FROM t LEFT JOIN n ON true  ->  a integer,b bigint,s text,f boolean,c integer
SELECT x.a FROM (SELECT a FROM t) x  ->  a integer
SELECT x.b FROM (SELECT a FROM t) x  ->  42703
SELECT x.y FROM (SELECT a AS y FROM t) x  ->  y integer
SELECT * FROM (SELECT a, count(*) FROM t GROUP BY a) x  ->  a integer,count bigint
SELECT 1 FROM t, (SELECT t.a) x  ->  42P01
SELECT 1 FROM t, (SELECT a FROM t) x  ->  ?column? integer
SELECT a, count(*) FROM t GROUP BY a  ->  a integer,count bigint
SELECT a, b FROM t GROUP BY a  ->  42803
SELECT a + 1 FROM t GROUP BY a  ->  ?column? integer
SELECT a + 1 FROM t GROUP BY a + 1  ->  ?column? integer
SELECT a + 2 FROM t GROUP BY a + 1  ->  42803
SELECT a FROM t GROUP BY 1  ->  a integer
SELECT a FROM t GROUP BY 2  ->  42P10
SELECT a FROM t GROUP BY 0  ->  42P10
SELECT a AS x FROM t GROUP BY x  ->  x integer
SELECT a AS b FROM t GROUP BY b  ->  42803
SELECT b AS x, a AS x FROM t GROUP BY x  ->  42702
SELECT count(*) FROM t GROUP BY 1  ->  42803
SELECT sum(a) AS x FROM t GROUP BY x  ->  42803
SELECT count(*) FROM t GROUP BY count(*)  ->  42803
SELECT a FROM t GROUP BY x  ->  42703
SELECT a, count(*) FROM t  ->  42803
SELECT a FROM t HAVING true  ->  42803
SELECT 1 FROM t HAVING true  ->  ?column? integer
SELECT 1 FROM t HAVING a = 1  ->  42803
SELECT count(*) FROM t HAVING count(*) > 1  ->  count bigint
SELECT a FROM t GROUP BY a HAVING sum(b) > 1  ->  a integer
SELECT a FROM t GROUP BY a HAVING b > 1  ->  42803
SELECT a FROM t GROUP BY a HAVING a  ->  42804
SELECT a FROM t GROUP BY a ORDER BY b  ->  42803
SELECT a FROM t GROUP BY a ORDER BY count(*)  ->  a integer
SELECT a FROM t ORDER BY count(*)  ->  42803
SELECT (SELECT t.b) FROM t GROUP BY a  ->  42803
SELECT (SELECT t.a) FROM t GROUP BY a  ->  a integer
SELECT (SELECT count(*) FROM n) FROM t  ->  count bigint
SELECT a, (SELECT count(*) FROM n WHERE n.c = t.a) FROM t  ->  a integer,count bigint
SELECT a FROM t ORDER BY 1  ->  a integer
SELECT a FROM t ORDER BY 2  ->  42P10
SELECT a FROM t ORDER BY -1  ->  42P10
SELECT a FROM t ORDER BY b  ->  a integer
SELECT a AS x FROM t ORDER BY x  ->  x integer
SELECT a AS b FROM t ORDER BY b  ->  b integer
SELECT a AS x, b AS x FROM t ORDER BY x  ->  42702
SELECT a AS x, a AS x FROM t ORDER BY x  ->  x integer,x integer
SELECT a FROM t ORDER BY x  ->  42703
SELECT a AS x FROM t ORDER BY x + 1  ->  42703
SELECT a FROM t ORDER BY a + 1 DESC NULLS LAST, s  ->  a integer
SELECT DISTINCT a FROM t ORDER BY a  ->  a integer
SELECT DISTINCT a FROM t ORDER BY b  ->  42P10
SELECT DISTINCT a + 1 FROM t ORDER BY a + 1  ->  ?column? integer
SELECT DISTINCT a FROM t ORDER BY a + 1  ->  42P10
SELECT DISTINCT count(*) FROM t ORDER BY count(*)  ->  count bigint
SELECT a FROM t LIMIT 1  ->  a integer
SELECT a FROM t LIMIT '1'  ->  a integer
SELECT a FROM t LIMIT NULL  ->  a integer
SELECT a FROM t LIMIT 'x'::text  ->  42804
SELECT a FROM t LIMIT true  ->  42804
SELECT a FROM t LIMIT a  ->  42P10
SELECT a FROM t LIMIT (SELECT t.a)  ->  42P10
SELECT a FROM t LIMIT (SELECT x.a FROM (SELECT t.*) x)  ->  42P10
SELECT a FROM t OFFSET (SELECT max(x.a) FROM (SELECT t.* FROM t) x)  ->  a integer
SELECT (SELECT c FROM n) FROM u  ->  c integer
SELECT (SELECT c FROM u) FROM n  ->  c text
SELECT 1 FROM t JOIN u ON n.c = 1 JOIN n ON true  ->  42P01
SELECT a AS c FROM u ORDER BY c  ->  c integer
SELECT a AS c FROM u ORDER BY c + 1  ->  42883
SELECT a AS s, b AS s FROM t ORDER BY s  ->  42702
SELECT a AS s FROM t GROUP BY s  ->  42803
SELECT a FROM t LIMIT (SELECT c FROM n)  ->  a integer
SELECT a FROM t OFFSET a  ->  42P10
SELECT a FROM t OFFSET 1  ->  a integer
SELECT a FROM t LIMIT count(*)  ->  42803
SELECT *  ->  42601
SELECT * FROM length('x')  ->  length integer
SELECT * FROM length('x') AS y  ->  y integer
SELECT y FROM length('x') AS y  ->  y integer
SELECT 1 FROM length(a)  ->  42703
SELECT 1 FROM t, length(x)  ->  42703
SELECT a FROM t ORDER BY 'x'  ->  42601
SELECT a FROM t ORDER BY NULL  ->  42601
SELECT a FROM t ORDER BY true  ->  42601
SELECT a FROM t ORDER BY 2147483647  ->  42P10
SELECT a FROM t ORDER BY 2147483648  ->  42601
SELECT a FROM t ORDER BY -2147483648  ->  42601
SELECT a FROM t ORDER BY +1  ->  a integer
SELECT a FROM t ORDER BY ('x')  ->  42601
SELECT a FROM t ORDER BY 'x'::text  ->  a integer
SELECT DISTINCT a FROM t ORDER BY 'x'  ->  42601
SELECT a FROM t GROUP BY a, NULL  ->  42601
SELECT a FROM t GROUP BY false, a  ->  42601
SELECT a FROM t GROUP BY 2147483647  ->  42P10
SELECT a FROM t GROUP BY 3000000000  ->  42601
SELECT a FROM t ORDER BY 'x', nope  ->  42601
SELECT a FROM t ORDER BY nope, 'x'  ->  42703
SELECT nope FROM t ORDER BY 'x'  ->  42703
SELECT a FROM t ORDER BY 'x' LIMIT nope  ->  42601
SELECT a FROM t WHERE nope GROUP BY 'x'  ->  42703
SELECT a + b + 1 FROM t GROUP BY a + b  ->  ?column? bigint
SELECT a + 1 - 1 FROM t GROUP BY a + 1  ->  ?column? integer
SELECT s || 'x' || 'y' FROM t GROUP BY s || 'x'  ->  ?column? text
SELECT s || 'x' || a FROM t GROUP BY s || 'x'  ->  42803
SELECT s || 'x' || a FROM t GROUP BY s || 'x', a  ->  ?column? text
SELECT a::text::integer FROM t GROUP BY a::text  ->  a integer
SELECT a::text::integer + 1 FROM t GROUP BY a::text  ->  ?column? integer
SELECT a::text FROM t GROUP BY a::text::integer  ->  42803
SELECT a::bigint::text FROM t GROUP BY a::text  ->  42803
SELECT - -a FROM t GROUP BY -a  ->  ?column? integer
SELECT -a FROM t GROUP BY - -a  ->  42803
SELECT NOT NOT NOT f FROM t GROUP BY NOT NOT f  ->  ?column? boolean
SELECT NOT f FROM t GROUP BY NOT NOT f  ->  42803
SELECT a + 1 FROM t GROUP BY a + 1 - 1  ->  42803
SELECT a - 1 + 2 FROM t GROUP BY a + 1  ->  42803
SELECT a + b - b FROM t GROUP BY a + b  ->  42803
SELECT a + b + b FROM t GROUP BY a + b, b  ->  ?column? bigint
SELECT 1 FROM t GROUP BY a + b HAVING a + b - 1 = 0  ->  ?column? integer
SELECT 1 FROM t GROUP BY a + b ORDER BY a + b + 1  ->  ?column? integer
SELECT a + 1 + 2 + b FROM t GROUP BY a + 1 + 2, a + 1  ->  42803
SELECT a + 1 + 2 + 3 FROM t GROUP BY a + 1 + 2, a + 1  ->  ?column? integer
SELECT a * 2 + 3 FROM t GROUP BY a * 2  ->  ?column? integer
SELECT a + 1 * 3 FROM t GROUP BY a + 1  ->  42803
SELECT (a + 1) * 3 FROM t GROUP BY a + 1  ->  ?column? integer
SELECT a + (1 + 3) FROM t GROUP BY a + 1  ->  42803
SELECT f AND a = 1 AND b = 1 FROM t GROUP BY f AND a = 1, b  ->  42803
SELECT f OR a = 1 FROM t GROUP BY f AND a = 1  ->  42803
SELECT DISTINCT a + 1 FROM t ORDER BY a + 1 + 1  ->  42P10
SELECT (SELECT count(*) FROM n) FROM t GROUP BY a  ->  count bigint
SELECT (SELECT count(*) FROM n) FROM t GROUP BY a HAVING (SELECT max(c) FROM n) > a  ->  count bigint
SELECT (SELECT 1), (SELECT max(c) + b FROM n) FROM t GROUP BY a  ->  42803
SELECT (SELECT 1), (SELECT max(c) + a FROM n) FROM t GROUP BY a  ->  ?column? integer,?column? integer
SELECT (SELECT 1), max((SELECT c + a FROM n)) FROM t GROUP BY b  ->  ?column? integer,max integer
SELECT (SELECT 1 FROM n) AS x, (SELECT t.a FROM n) AS y FROM t GROUP BY x, y  ->  x integer,y integer
SELECT (SELECT 1 FROM n), count(*) FROM t GROUP BY 1  ->  ?column? integer,count bigint
SELECT 1 FROM t JOIN u ON n.c = 1, n  ->  42P01
SELECT 1 FROM (t JOIN u ON n.c = 1) JOIN n ON true  ->  42P01
SELECT 1 FROM t, (SELECT t.a) x  ->  42P01
SELECT 1 FROM (SELECT u.a) x, u  ->  42P01
SELECT x, q.a FROM t  ->  42703
SELECT x, a + s FROM t  ->  42703
SELECT x, nosuch(1) FROM t  ->  42703
SELECT x, (SELECT 1, 2) FROM t  ->  42703
SELECT x, (SELECT x FROM n) FROM t  ->  42703
SELECT q.a, x FROM t  ->  42P01
SELECT q.a, a + s FROM t  ->  42P01
SELECT q.a, nosuch(1) FROM t  ->  42P01
SELECT q.a, (SELECT 1, 2) FROM t  ->  42P01
SELECT q.a, (SELECT x FROM n) FROM t  ->  42P01
SELECT a + s, x FROM t  ->  42883
SELECT a + s, q.a FROM t  ->  42883
SELECT a + s, nosuch(1) FROM t  ->  42883
SELECT a + s, (SELECT 1, 2) FROM t  ->  42883
SELECT a + s, (SELECT x FROM n) FROM t  ->  42883
SELECT nosuch(1), x FROM t  ->  42883
SELECT nosuch(1), q.a FROM t  ->  42883
SELECT nosuch(1), a + s FROM t  ->  42883
SELECT nosuch(1), (SELECT 1, 2) FROM t  ->  42883
SELECT nosuch(1), (SELECT x FROM n) FROM t  ->  42883
SELECT (SELECT 1, 2), x FROM t  ->  42601
SELECT (SELECT 1, 2), q.a FROM t  ->  42601
SELECT (SELECT 1, 2), a + s FROM t  ->  42601
SELECT (SELECT 1, 2), nosuch(1) FROM t  ->  42601
SELECT (SELECT 1, 2), (SELECT x FROM n) FROM t  ->  42601
SELECT (SELECT x FROM n), x FROM t  ->  42703
SELECT (SELECT x FROM n), q.a FROM t  ->  42703
SELECT (SELECT x FROM n), a + s FROM t  ->  42703
SELECT (SELECT x FROM n), nosuch(1) FROM t  ->  42703
SELECT (SELECT x FROM n), (SELECT 1, 2) FROM t  ->  42703
SELECT x + q.a FROM t  ->  42703
SELECT x = q.a FROM t  ->  42703
SELECT CASE WHEN x THEN q.a END FROM t  ->  42703
SELECT coalesce(x, q.a) FROM t  ->  42703
SELECT x IN (1, q.a) FROM t  ->  42703
SELECT nosuch(x, q.a) FROM t  ->  42703
SELECT x BETWEEN 1 AND q.a FROM t  ->  42703
SELECT x AND q.a FROM t  ->  42703
SELECT x FROM t WHERE q.a  ->  42703
SELECT 1 FROM t WHERE x GROUP BY q.a  ->  42703
SELECT x FROM missing WHERE q.a  ->  42P01
SELECT x FROM t JOIN u ON q.a  ->  42P01
SELECT x FROM t ORDER BY q.a  ->  42703
SELECT x FROM t LIMIT q.a  ->  42703
SELECT q.a + x FROM t  ->  42P01
SELECT q.a = x FROM t  ->  42P01
SELECT CASE WHEN q.a THEN x END FROM t  ->  42P01
SELECT coalesce(q.a, x) FROM t  ->  42P01
SELECT q.a IN (1, x) FROM t  ->  42P01
SELECT nosuch(q.a, x) FROM t  ->  42P01
SELECT q.a BETWEEN 1 AND x FROM t  ->  42P01
SELECT q.a AND x FROM t  ->  42P01
SELECT q.a FROM t WHERE x  ->  42P01
SELECT 1 FROM t WHERE q.a GROUP BY x  ->  42P01
SELECT q.a FROM missing WHERE x  ->  42P01
SELECT q.a FROM t JOIN u ON x  ->  42703
SELECT q.a FROM t ORDER BY x  ->  42P01
SELECT q.a FROM t LIMIT x  ->  42P01
SELECT nosuch(1) + x FROM t  ->  42883
SELECT nosuch(1) = x FROM t  ->  42883
SELECT CASE WHEN nosuch(1) THEN x END FROM t  ->  42883
SELECT coalesce(nosuch(1), x) FROM t  ->  42883
SELECT nosuch(1) IN (1, x) FROM t  ->  42883
SELECT nosuch(nosuch(1), x) FROM t  ->  42883
SELECT nosuch(1) BETWEEN 1 AND x FROM t  ->  42883
SELECT nosuch(1) AND x FROM t  ->  42883
SELECT nosuch(1) FROM t WHERE x  ->  42883
SELECT 1 FROM t WHERE nosuch(1) GROUP BY x  ->  42883
SELECT nosuch(1) FROM missing WHERE x  ->  42P01
SELECT nosuch(1) FROM t JOIN u ON x  ->  42703
SELECT nosuch(1) FROM t ORDER BY x  ->  42883
SELECT nosuch(1) FROM t LIMIT x  ->  42883
SELECT x + nosuch(1) FROM t  ->  42703
SELECT x = nosuch(1) FROM t  ->  42703
SELECT CASE WHEN x THEN nosuch(1) END FROM t  ->  42703
SELECT coalesce(x, nosuch(1)) FROM t  ->  42703
SELECT x IN (1, nosuch(1)) FROM t  ->  42703
SELECT nosuch(x, nosuch(1)) FROM t  ->  42703
SELECT x BETWEEN 1 AND nosuch(1) FROM t  ->  42703
SELECT x AND nosuch(1) FROM t  ->  42703
SELECT x FROM t WHERE nosuch(1)  ->  42703
SELECT 1 FROM t WHERE x GROUP BY nosuch(1)  ->  42703
SELECT x FROM missing WHERE nosuch(1)  ->  42P01
SELECT x FROM t JOIN u ON nosuch(1)  ->  42883
SELECT x FROM t ORDER BY nosuch(1)  ->  42703
SELECT x FROM t LIMIT nosuch(1)  ->  42703
SELECT (SELECT 1, 2) + q.a FROM t  ->  42601
SELECT (SELECT 1, 2) = q.a FROM t  ->  42601
SELECT CASE WHEN (SELECT 1, 2) THEN q.a END FROM t  ->  42601
SELECT coalesce((SELECT 1, 2), q.a) FROM t  ->  42601
SELECT (SELECT 1, 2) IN (1, q.a) FROM t  ->  42601
SELECT nosuch((SELECT 1, 2), q.a) FROM t  ->  42601
SELECT (SELECT 1, 2) BETWEEN 1 AND q.a FROM t  ->  42601
SELECT (SELECT 1, 2) AND q.a FROM t  ->  42601
SELECT (SELECT 1, 2) FROM t WHERE q.a  ->  42601
SELECT 1 FROM t WHERE (SELECT 1, 2) GROUP BY q.a  ->  42601
SELECT (SELECT 1, 2) FROM missing WHERE q.a  ->  42P01
SELECT (SELECT 1, 2) FROM t JOIN u ON q.a  ->  42P01
SELECT (SELECT 1, 2) FROM t ORDER BY q.a  ->  42601
SELECT (SELECT 1, 2) FROM t LIMIT q.a  ->  42601
SELECT q.a + (SELECT 1, 2) FROM t  ->  42P01
SELECT q.a = (SELECT 1, 2) FROM t  ->  42P01
SELECT CASE WHEN q.a THEN (SELECT 1, 2) END FROM t  ->  42P01
SELECT coalesce(q.a, (SELECT 1, 2)) FROM t  ->  42P01
SELECT q.a IN (1, (SELECT 1, 2)) FROM t  ->  42P01
SELECT nosuch(q.a, (SELECT 1, 2)) FROM t  ->  42P01
SELECT q.a BETWEEN 1 AND (SELECT 1, 2) FROM t  ->  42P01
SELECT q.a AND (SELECT 1, 2) FROM t  ->  42P01
SELECT q.a FROM t WHERE (SELECT 1, 2)  ->  42P01
SELECT 1 FROM t WHERE q.a GROUP BY (SELECT 1, 2)  ->  42P01
SELECT q.a FROM missing WHERE (SELECT 1, 2)  ->  42P01
SELECT q.a FROM t JOIN u ON (SELECT 1, 2)  ->  42601
SELECT q.a FROM t ORDER BY (SELECT 1, 2)  ->  42P01
SELECT q.a FROM t LIMIT (SELECT 1, 2)  ->  42P01
SELECT a AND x FROM t  ->  42804
SELECT x AND a FROM t  ->  42703
SELECT NOT (a + s) FROM t  ->  42883
SELECT a AND s FROM t  ->  42804
SELECT (a + s) + x FROM t  ->  42883
SELECT (x + a) + s FROM t  ->  42703
SELECT a, x FROM t GROUP BY s  ->  42703
SELECT a FROM t GROUP BY s ORDER BY x  ->  42703
SELECT a FROM t GROUP BY s LIMIT x  ->  42703
SELECT sum(x), a FROM t  ->  42703
SELECT sum(a), x FROM t  ->  42703
SELECT 1 FROM missing, t x, u x  ->  42P01
SELECT 1 FROM t x, u x, missing  ->  42712
SELECT 1 FROM t x JOIN u x ON y  ->  42712
SELECT 1 FROM (SELECT x FROM t) q, missing  ->  42703
SELECT 1 FROM missing, (SELECT x FROM t) q  ->  42P01
"#;

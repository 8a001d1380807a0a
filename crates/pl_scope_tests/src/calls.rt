//! Calls of routines, and what a PostgreSQL server says of them; made by tools/resolution-cases.

/// Lines `query  ->  columns`, or in place of the columns the SQLSTATE of the first failing node.
pub(crate) const CALLS: &str = r#"
SELECT nil()  ->  nil integer
SELECT nil(1)  ->  42883
SELECT nil(NULL)  ->  42883
SELECT one(1)  ->  one integer
SELECT one()  ->  42883
SELECT one(1, 2)  ->  42883
SELECT one('1')  ->  one integer
SELECT one(NULL)  ->  one integer
SELECT one('1'::text)  ->  42883
SELECT one(true)  ->  42883
SELECT one(2147483648)  ->  42883
SELECT one(1) AS x  ->  x integer
SELECT one(a) FROM t  ->  one integer
SELECT one(b) FROM t  ->  42883
SELECT one(s) FROM t  ->  42883
SELECT big(1)  ->  big bigint
SELECT big(2147483648)  ->  big bigint
SELECT big('1')  ->  big bigint
SELECT big(a), big(b) FROM t  ->  big bigint,big bigint
SELECT big(s) FROM t  ->  42883
SELECT big(f) FROM t  ->  42883
SELECT said('x')  ->  said text
SELECT said(NULL)  ->  said text
SELECT said(1)  ->  42883
SELECT said(true)  ->  42883
SELECT said(s) FROM t  ->  said text
SELECT said(a) FROM t  ->  42883
SELECT said(a::text) FROM t  ->  said text
SELECT holds(true)  ->  holds boolean
SELECT holds('true')  ->  holds boolean
SELECT holds(1)  ->  42883
SELECT holds(f), holds(a = 1) FROM t  ->  holds boolean,holds boolean
SELECT holds(s) FROM t  ->  42883
SELECT mixed(1, 2, 'x', true)  ->  mixed text
SELECT mixed(a, a, s, f) FROM t  ->  mixed text
SELECT mixed(a, b, s, f) FROM t  ->  mixed text
SELECT mixed(b, a, s, f) FROM t  ->  42883
SELECT mixed(a, b, f, s) FROM t  ->  42883
SELECT mixed('1', '2', 'x', 'true')  ->  mixed text
SELECT mixed(NULL, NULL, NULL, NULL)  ->  mixed text
SELECT mixed(1, 2, 'x')  ->  42883
SELECT nothing(1)  ->  nothing void
SELECT nothing('x'::text)  ->  42883
SELECT nothing(1) + 1  ->  42883
SELECT nothing(1) = nothing(1)  ->  42883
SELECT coalesce(nothing(1), 1)  ->  42804
SELECT CASE WHEN nothing(1) THEN 1 END  ->  42804
SELECT nothing(1) IS NULL  ->  ?column? boolean
SELECT one(nothing(1))  ->  42883
SELECT does(1)  ->  42809
SELECT does('1')  ->  42809
SELECT does(a) FROM t  ->  42809
SELECT does(b) FROM t  ->  42883
SELECT does()  ->  42883
SELECT does('x'::text)  ->  42883
SELECT 1 + does(1)  ->  42809
SELECT absent(1)  ->  42883
SELECT one(one(one(1)))  ->  one integer
SELECT big(one(1))  ->  big bigint
SELECT one(big(1))  ->  42883
SELECT said(said('x') || one(1))  ->  said text
SELECT said(one(1))  ->  42883
SELECT abs(one(1)), mod(big(1), one(2))  ->  abs integer,mod bigint
SELECT one(abs(a)), one(mod(a, 2)), one(length(s)) FROM t  ->  one integer,one integer,one integer
SELECT upper(said('x')), length(one(1))  ->  42883
SELECT one(does(1))  ->  42809
SELECT one(absent(1))  ->  42883
SELECT one(1) + big(2)  ->  ?column? bigint
SELECT one(1) || said('x')  ->  ?column? text
SELECT said('x') = 'x', one(1) = '1', one(1) < big(1)  ->  ?column? boolean,?column? boolean,?column? boolean
SELECT one(1) = said('1')  ->  42883
SELECT -one(1), NOT holds(true)  ->  ?column? integer,?column? boolean
SELECT one(1) BETWEEN 0 AND big(2)  ->  ?column? boolean
SELECT one(1) IN (1, big(2))  ->  ?column? boolean
SELECT one(1) IN (SELECT b FROM t)  ->  ?column? boolean
SELECT coalesce(one(1), big(1)), greatest(one(1), 2)  ->  coalesce bigint,greatest integer
SELECT nullif(one(1), '1')  ->  nullif integer
SELECT CASE WHEN holds(f) THEN one(a) ELSE big(b) END AS x FROM t  ->  x bigint
SELECT CASE one(a) WHEN '1' THEN said(s) END FROM t  ->  case text
SELECT one(1)::text, said('1')::integer  ->  one text,said integer
SELECT ROW(one(1), said('x'))  ->  row record
SELECT 1 FROM t WHERE holds(f)  ->  ?column? integer
SELECT 1 FROM t WHERE one(a)  ->  42804
SELECT 1 FROM t WHERE one(a) = 1 AND holds('true')  ->  ?column? integer
SELECT 1 FROM t WHERE said(s) LIKE 'x'  ->  ?column? integer
SELECT 1 FROM t WHERE does(a)  ->  42809
SELECT 1 FROM t WHERE nothing(a)  ->  42804
SELECT 1 FROM t JOIN u ON holds(g)  ->  ?column? integer
SELECT 1 FROM t JOIN u ON one(t.a) = u.a  ->  ?column? integer
SELECT 1 FROM t JOIN u ON does(t.a) = u.a  ->  42809
SELECT one(a) FROM t GROUP BY one(a)  ->  one integer
SELECT one(a) FROM t GROUP BY a  ->  one integer
SELECT one(a) FROM t GROUP BY b  ->  42803
SELECT one(a) FROM t GROUP BY one(a + 1)  ->  42803
SELECT one(a) AS x FROM t GROUP BY x  ->  x integer
SELECT a FROM t GROUP BY a HAVING holds(count(*) = 1)  ->  a integer
SELECT 1 FROM t HAVING one(count(*)) = 1  ->  42883
SELECT one(a) FROM t ORDER BY one(a)  ->  one integer
SELECT DISTINCT one(a) FROM t ORDER BY one(a)  ->  one integer
SELECT DISTINCT one(a) FROM t ORDER BY a  ->  42P10
SELECT a FROM t ORDER BY one  ->  42703
SELECT one(a) FROM t ORDER BY one  ->  one integer
SELECT a FROM t LIMIT one(1) OFFSET big(1)  ->  a integer
SELECT a FROM t LIMIT said('1')  ->  42804
SELECT a FROM t LIMIT does(1)  ->  42809
SELECT sum(one(a)), max(said(s)), count(holds(f)) FROM t  ->  sum bigint,max text,count bigint
SELECT one(max(a)), big(sum(a)), big(count(*)) FROM t  ->  one integer,big bigint,big bigint
SELECT one(sum(a)) FROM t  ->  42883
SELECT max(one(a)), b FROM t  ->  42803
SELECT sum(said(s)) FROM t  ->  42883
SELECT 1 FROM t WHERE big(count(*)) = 1  ->  42803
SELECT sum(big(sum(a))) FROM t  ->  42803
SELECT one((SELECT c FROM n))  ->  one integer
SELECT one((SELECT b FROM t))  ->  42883
SELECT one((SELECT 1, 2))  ->  42601
SELECT (SELECT one(t.a) FROM n) FROM t  ->  one integer
SELECT EXISTS (SELECT one(c) FROM n)  ->  exists boolean
SELECT EXISTS (SELECT does(c) FROM n)  ->  42809
SELECT * FROM nil()  ->  nil integer
SELECT * FROM one(1)  ->  one integer
SELECT * FROM big(1) x  ->  x bigint
SELECT x.x FROM said('y') x  ->  x text
SELECT one FROM one(1)  ->  one integer
SELECT one.one + 1 FROM one(1)  ->  ?column? integer
SELECT * FROM one(1), big(1)  ->  one integer,big bigint
SELECT * FROM one(1), one(2)  ->  42712
SELECT * FROM one(1) x JOIN t ON x.x = t.a  ->  x integer,a integer,b bigint,s text,f boolean
SELECT * FROM one('x'::text)  ->  42883
SELECT * FROM one(1, 2)  ->  42883
SELECT * FROM does(1)  ->  42809
SELECT * FROM absent(1)  ->  42883
SELECT * FROM one(a), t  ->  42703
SELECT * FROM one((SELECT max(a) FROM t))  ->  one integer
SELECT q.one FROM (SELECT one(a) FROM t) q  ->  one integer
SELECT x + one(s) FROM t  ->  42703
SELECT one(s) + x FROM t  ->  42883
SELECT one(x) + does(1) FROM t  ->  42703
SELECT does(1) + x FROM t  ->  42809
SELECT does(x) FROM t  ->  42703
SELECT does(s), x FROM t  ->  42883
SELECT one(x), one(s) FROM t  ->  42703
SELECT mixed(a, x, s, absent(1)) FROM t  ->  42703
SELECT mixed(a, absent(1), x, f) FROM t  ->  42883
SELECT mixed(f, x, s, f) FROM t  ->  42703
SELECT absent(does(1)) FROM t  ->  42809
SELECT does(absent(1)) FROM t  ->  42883
SELECT x FROM t WHERE does(1)  ->  42703
SELECT does(1) FROM t WHERE x  ->  42809
SELECT does(1) FROM missing  ->  42P01
SELECT x FROM one(does(1))  ->  42809
SELECT x FROM one(s), t  ->  42703
SELECT CASE WHEN one(1) THEN x END FROM t  ->  42804
SELECT CASE WHEN x THEN one(s) END FROM t  ->  42703
SELECT coalesce(one(s), x) FROM t  ->  42883
SELECT one(s) IN (1, x) FROM t  ->  42883
SELECT x IN (1, one(s)) FROM t  ->  42703
"#;

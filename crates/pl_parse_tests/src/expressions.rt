//! Expressions with their trees, worked out by hand from the levels of operators.

/// Lines `text  ->  tree`. One that begins with `--` says what follows.
pub(crate) const EXPRESSIONS: &str = r#"
-- Level 1: literals, parameters and names.
0  ->  0
9223372036854775808  ->  9223372036854775808
007  ->  7
'a'  ->  'a'
''  ->  ''
'it''s'  ->  'it''s'
'a\b'  ->  'a\b'
E'it\'s'  ->  'it''s'
E'a\\b'  ->  'a\b'
e'x''y'  ->  'x''y'
$$it's$$  ->  'it''s'
$q$a $$ b$q$  ->  'a $$ b'
TRUE  ->  TRUE
false  ->  FALSE
Null  ->  NULL
$1  ->  $1
$65535  ->  $65535
a  ->  a
Balance_Of  ->  balance_of
"a"  ->  a
"A b"  ->  "A b"
"a""b"  ->  "a""b"
"select"  ->  select
"null"  ->  null
"1"  ->  "1"
"true"  ->  true
t.a  ->  t.a
T."A"  ->  t."A"
"T x".a  ->  "T x".a
"from"."where"  ->  from.where
-- Words that are words of a query and no reserved words are names too.
first  ->  first
nulls  ->  nulls
last  ->  last
outer  ->  outer
unknown  ->  unknown
fatal_errors  ->  fatal_errors
count  ->  count
integer  ->  integer
text  ->  text
first.last  ->  first.last
unknown IS UNKNOWN  ->  (is-unknown unknown)
unknown IS NOT UNKNOWN  ->  (is-not-unknown unknown)
nulls + outer  ->  (sum nulls + outer)
-- Calls.
f()  ->  (call f)
f(a)  ->  (call f a)
f(a, b)  ->  (call f a b)
F(1, 'x', g(b + 1))  ->  (call f 1 'x' (call g (sum b + 1)))
"F"(a)  ->  (call "F" a)
f((a))  ->  (call f a)
f(a OR b, NOT c)  ->  (call f (or a b) (not 1 c))
f((SELECT 1))  ->  (call f (subquery (select 1)))
unknown(a)  ->  (call unknown a)
count(*)  ->  (count-rows)
COUNT(*)  ->  (count-rows)
count(*) + 1  ->  (sum (count-rows) + 1)
count(a)  ->  (call count a)
count()  ->  (call count)
sum(a)  ->  (call sum a)
sum(a * b)  ->  (call sum (product a * b))
plpgsql_check_function('f()')  ->  (call plpgsql_check_function 'f()')
plpgsql_check_function('f()', fatal_errors => false)  ->  (call plpgsql_check_function 'f()' (fatal_errors FALSE))
plpgsql_check_function(fatal_errors => a AND b)  ->  (call plpgsql_check_function (fatal_errors (and a b)))
PLPGSQL_CHECK_FUNCTION('f()', FATAL_ERRORS => (NOT a))  ->  (call plpgsql_check_function 'f()' (fatal_errors (not 1 a)))
plpgsql_check_function(fatal_errors)  ->  (call plpgsql_check_function fatal_errors)
f(fatal_errors, 1)  ->  (call f fatal_errors 1)
f(fatal_errors = 1)  ->  (call f (= fatal_errors 1))
-- Brackets leave nothing behind.
(a)  ->  a
((a))  ->  a
(((1)))  ->  1
(a + b)  ->  (sum a + b)
-- Queries as values.
(SELECT 1)  ->  (subquery (select 1))
((SELECT 1))  ->  (subquery (select 1))
(SELECT a FROM t) + 1  ->  (sum (subquery (select a (from t))) + 1)
-(SELECT 1)  ->  (sign - (subquery (select 1)))
(SELECT 1)::text  ->  (cast (subquery (select 1)) text)
EXISTS (SELECT 1)  ->  (exists (select 1))
NOT EXISTS (SELECT * FROM t WHERE a)  ->  (not 1 (exists (select * (from t) (where a))))
EXISTS (SELECT 1) AND a  ->  (and (exists (select 1)) a)
(SELECT (SELECT 1))  ->  (subquery (select (subquery (select 1))))
-- COALESCE and its like, NULLIF, ROW.
COALESCE(a)  ->  (coalesce a)
coalesce(a, b, 1)  ->  (coalesce a b 1)
GREATEST(a, b)  ->  (greatest a b)
LEAST(a, b OR c)  ->  (least a (or b c))
LEAST(GREATEST(a, 1), 9)  ->  (least (greatest a 1) 9)
NULLIF(a, b)  ->  (nullif a b)
NULLIF(a = b, NOT c)  ->  (nullif (= a b) (not 1 c))
ROW()  ->  (row)
ROW(a)  ->  (row a)
ROW(a, b + 1, ROW())  ->  (row a (sum b + 1) (row))
ROW(1, NULL) IS NULL  ->  (is-null (row 1 NULL))
-- CAST and ::.
CAST(a AS integer)  ->  (cast a integer)
CAST(a OR b AS bool)  ->  (cast (or a b) boolean)
CAST(CAST(a AS text) AS int8)  ->  (cast (cast a text) bigint)
CAST(a AS text)::integer  ->  (cast (cast a text) integer)
a::int  ->  (cast a integer)
a::int4::INT8::text::Bool  ->  (cast a integer bigint text boolean)
(a::bigint)::boolean  ->  (cast (cast a bigint) boolean)
a::mytab  ->  (cast a "mytab")
a::"My Tab"  ->  (cast a "My Tab")
a::record  ->  (cast a record)
-- In quotes a type is known by the server's own name for it alone.
a::"int4"::"int8"::"text"::"bool"  ->  (cast a integer bigint text boolean)
a::"integer"::"int"::"bigint"::"boolean"  ->  (cast a "integer" "int" "bigint" "boolean")
CAST(a AS "int4")  ->  (cast a integer)
CAST(a AS "bigint")  ->  (cast a "bigint")
a::"INT4"::"record"  ->  (cast a "INT4" record)
CAST(a AS void)  ->  (cast a void)
a::trigger  ->  (cast a trigger)
CAST(ROW(1) AS unknown)  ->  (cast (row 1) "unknown")
f(a)::text  ->  (cast (call f a) text)
t.a::text  ->  (cast t.a text)
$1::integer  ->  (cast $1 integer)
NULL::text  ->  (cast NULL text)
'yes'::boolean  ->  (cast 'yes' boolean)
-- CASE.
CASE WHEN a THEN b END  ->  (case (when a b))
CASE WHEN a THEN b ELSE c END  ->  (case (when a b) (else c))
CASE WHEN a THEN 1 WHEN b OR c THEN 2 ELSE 3 END  ->  (case (when a 1) (when (or b c) 2) (else 3))
CASE a WHEN 1 THEN b END  ->  (case (of a) (when 1 b))
CASE a + 1 WHEN 1 THEN b WHEN 2 THEN c ELSE d END  ->  (case (of (sum a + 1)) (when 1 b) (when 2 c) (else d))
CASE a OR b WHEN true THEN 1 END  ->  (case (of (or a b)) (when TRUE 1))
CASE CASE a WHEN b THEN c END WHEN d THEN e END  ->  (case (of (case (of a) (when b c))) (when d e))
CASE WHEN CASE WHEN a THEN b ELSE c END THEN d ELSE CASE e WHEN f THEN g END END  ->  (case (when (case (when a b) (else c)) d) (else (case (of e) (when f g))))
CASE WHEN a THEN b END::text  ->  (cast (case (when a b)) text)
CASE WHEN a THEN b END + 1  ->  (sum (case (when a b)) + 1)
CASE (SELECT 1) WHEN 1 THEN 2 END  ->  (case (of (subquery (select 1))) (when 1 2))
-- Signs. A minus before a number makes one literal, and :: is tighter than a sign.
-5  ->  -5
- 5  ->  -5
+5  ->  (sign + 5)
- -5  ->  (sign - -5)
-(-5)  ->  (sign - -5)
- - -5  ->  (sign - - -5)
-(- -5)  ->  (sign - (sign - -5))
+-5  ->  (sign + -5)
-+5  ->  (sign - + 5)
-(5)  ->  -5
(-5)  ->  -5
-((5))  ->  -5
-9223372036854775808  ->  -9223372036854775808
-0  ->  -0
-a  ->  (sign - a)
- + - a  ->  (sign - + - a)
-(-a)  ->  (sign - (sign - a))
-f(5)  ->  (sign - (call f 5))
-'5'  ->  (sign - '5')
-$1  ->  (sign - $1)
-NULL  ->  (sign - NULL)
-5::text  ->  (sign - (cast 5 text))
(-5)::text  ->  (cast -5 text)
- -5::text  ->  (sign - - (cast 5 text))
-a::integer::text  ->  (sign - (cast a integer text))
-CAST(5 AS text)  ->  (sign - (cast 5 text))
-- Levels 3 and 4.
-a * b  ->  (product (sign - a) * b)
-(a * b)  ->  (sign - (product a * b))
a * -b  ->  (product a * (sign - b))
a * -5  ->  (product a * -5)
-5 * a  ->  (product -5 * a)
-7 / 2  ->  (product -7 / 2)
a / - -2 % +b  ->  (product a / (sign - -2) % (sign + b))
a::bigint * b::text  ->  (product (cast a bigint) * (cast b text))
(a * b)::text  ->  (cast (product a * b) text)
-- Level 4, from the left.
a * b  ->  (product a * b)
a * b / c % d  ->  (product a * b / c % d)
(a * b) / c  ->  (product (product a * b) / c)
a * (b / c)  ->  (product a * (product b / c))
a % b % c  ->  (product a % b % c)
-- Levels 4 and 5.
a * b + c  ->  (sum (product a * b) + c)
a + b * c  ->  (sum a + (product b * c))
(a + b) * c  ->  (product (sum a + b) * c)
a * (b + c)  ->  (product a * (sum b + c))
a - b / c - d % e  ->  (sum a - (product b / c) - (product d % e))
-- Level 5, from the left.
a + b  ->  (sum a + b)
a - b - c  ->  (sum a - b - c)
a - (b - c)  ->  (sum a - (sum b - c))
(a - b) - c  ->  (sum (sum a - b) - c)
a + b - c + d  ->  (sum a + b - c + d)
a - -5  ->  (sum a - -5)
a-5  ->  (sum a - 5)
a - - b  ->  (sum a - (sign - b))
1 - 1  ->  (sum 1 - 1)
2147483647 + 1::bigint  ->  (sum 2147483647 + (cast 1 bigint))
-a + b  ->  (sum (sign - a) + b)
-- Levels 5 and 6.
a + b || c  ->  (|| (sum a + b) c)
a || b + c  ->  (|| a (sum b + c))
(a || b) + c  ->  (sum (|| a b) + c)
a + (b || c)  ->  (sum a + (|| b c))
-- Level 6.
a || b  ->  (|| a b)
a || b || c  ->  (|| a b c)
a || (b || c)  ->  (|| a (|| b c))
(a || b) || c  ->  (|| (|| a b) c)
a || -b * c || d  ->  (|| a (product (sign - b) * c) d)
-- Levels 6 and 7.
a || b LIKE c || d  ->  (like (|| a b) (|| c d))
a || (b LIKE c)  ->  (|| a (like b c))
a + 1 BETWEEN b - 1 AND c || d  ->  (between (sum a + 1) (sum b - 1) (|| c d))
a || b IN (c || d, e)  ->  (in (|| a b) (|| c d) e)
-a NOT IN (-1, - -1)  ->  (not-in (sign - a) -1 (sign - -1))
-- Level 7.
a BETWEEN 1 AND 2  ->  (between a 1 2)
a NOT BETWEEN 1 AND 2  ->  (not-between a 1 2)
a BETWEEN 1 AND 2 AND b  ->  (and (between a 1 2) b)
a BETWEEN 1 AND 2 AND b BETWEEN 3 AND 4  ->  (and (between a 1 2) (between b 3 4))
a BETWEEN (b AND c) AND d  ->  (between a (and b c) d)
a BETWEEN b AND (c AND d)  ->  (between a b (and c d))
a BETWEEN (b BETWEEN 1 AND 2) AND 3  ->  (between a (between b 1 2) 3)
a LIKE 'x%'  ->  (like a 'x%')
a NOT LIKE b  ->  (not-like a b)
(a LIKE b) LIKE c  ->  (like (like a b) c)
a LIKE (b LIKE c)  ->  (like a (like b c))
a IN (1)  ->  (in a 1)
a IN (1, 2, b)  ->  (in a 1 2 b)
a NOT IN (1, NULL)  ->  (not-in a 1 NULL)
a IN (b OR c, d IN (e))  ->  (in a (or b c) (in d e))
a IN (SELECT b FROM t)  ->  (in-query a (select b (from t)))
a NOT IN (SELECT 1)  ->  (not-in-query a (select 1))
a IN ((SELECT 1))  ->  (in a (subquery (select 1)))
a IN ((SELECT 1), 2)  ->  (in a (subquery (select 1)) 2)
a IN ((1))  ->  (in a 1)
(a IN (1)) IN (b)  ->  (in (in a 1) b)
-- Levels 7 and 8.
a = b LIKE c  ->  (= a (like b c))
a LIKE b = c  ->  (= (like a b) c)
a LIKE (b = c)  ->  (like a (= b c))
a BETWEEN 1 AND 2 = b  ->  (= (between a 1 2) b)
a = b BETWEEN 1 AND 2  ->  (= a (between b 1 2))
a IN (1) <> b NOT IN (2)  ->  (<> (in a 1) (not-in b 2))
a = b NOT LIKE c  ->  (= a (not-like b c))
-- Level 8.
a = b  ->  (= a b)
a <> b  ->  (<> a b)
a != b  ->  (<> a b)
a < b  ->  (< a b)
a > b  ->  (> a b)
a <= b  ->  (<= a b)
a >= b  ->  (>= a b)
(a < b) < c  ->  (< (< a b) c)
a < (b < c)  ->  (< a (< b c))
a + 1 = b || c  ->  (= (sum a + 1) (|| b c))
a > -5  ->  (> a -5)
a = EXISTS (SELECT 1)  ->  (= a (exists (select 1)))
-- Levels 8 and 9.
a = b IS NULL  ->  (is-null (= a b))
a = (b IS NULL)  ->  (= a (is-null b))
(a IS NULL) = b  ->  (= (is-null a) b)
a < b IS DISTINCT FROM c  ->  (is-distinct (< a b) c)
a IS DISTINCT FROM b = c  ->  (is-distinct a (= b c))
a IN (1) IS TRUE  ->  (is-true (in a 1))
a IS DISTINCT FROM b LIKE c  ->  (is-distinct a (like b c))
-- Level 9.
a IS NULL  ->  (is-null a)
a IS NOT NULL  ->  (is-not-null a)
a IS TRUE  ->  (is-true a)
a IS NOT TRUE  ->  (is-not-true a)
a IS FALSE  ->  (is-false a)
a IS NOT FALSE  ->  (is-not-false a)
a IS UNKNOWN  ->  (is-unknown a)
a IS NOT unknown  ->  (is-not-unknown a)
a IS DISTINCT FROM b  ->  (is-distinct a b)
a IS NOT DISTINCT FROM b  ->  (is-not-distinct a b)
(a IS NULL) IS NOT NULL  ->  (is-not-null (is-null a))
a IS DISTINCT FROM (b IS NULL)  ->  (is-distinct a (is-null b))
(a IS DISTINCT FROM b) IS DISTINCT FROM c  ->  (is-distinct (is-distinct a b) c)
a IS DISTINCT FROM NULL  ->  (is-distinct a NULL)
-- Levels 9 and 10.
NOT a IS NULL  ->  (not 1 (is-null a))
(NOT a) IS NULL  ->  (is-null (not 1 a))
NOT a IS DISTINCT FROM b  ->  (not 1 (is-distinct a b))
-- Level 10.
NOT a  ->  (not 1 a)
NOT NOT a  ->  (not 2 a)
NOT not NOT a  ->  (not 3 a)
NOT (NOT a)  ->  (not 1 (not 1 a))
NOT NOT (NOT a)  ->  (not 2 (not 1 a))
NOT a = b  ->  (not 1 (= a b))
(NOT a) = b  ->  (= (not 1 a) b)
a = (NOT b)  ->  (= a (not 1 b))
NOT a BETWEEN 1 AND 2  ->  (not 1 (between a 1 2))
NOT a NOT IN (1)  ->  (not 1 (not-in a 1))
NOT a LIKE b AND c  ->  (and (not 1 (like a b)) c)
NOT -a  ->  (not 1 (sign - a))
-- Levels 10 and 11.
NOT a AND b  ->  (and (not 1 a) b)
a AND NOT b  ->  (and a (not 1 b))
NOT (a AND b)  ->  (not 1 (and a b))
a AND NOT NOT b AND c  ->  (and a (not 2 b) c)
-- Level 11.
a AND b  ->  (and a b)
a AND b AND c  ->  (and a b c)
a AND (b AND c)  ->  (and a (and b c))
(a AND b) AND c  ->  (and (and a b) c)
a IS NULL AND b = c  ->  (and (is-null a) (= b c))
k = 2 AND 1 / (k - 1) = 1  ->  (and (= k 2) (= (product 1 / (sum k - 1)) 1))
-- Levels 11 and 12.
a AND b OR c  ->  (or (and a b) c)
a OR b AND c  ->  (or a (and b c))
(a OR b) AND c  ->  (and (or a b) c)
a AND (b OR c)  ->  (and a (or b c))
NOT a OR b  ->  (or (not 1 a) b)
a OR NOT b  ->  (or a (not 1 b))
a OR b BETWEEN 1 AND 2 AND c OR d  ->  (or a (and (between b 1 2) c) d)
-- Level 12.
a OR b  ->  (or a b)
a OR b OR c  ->  (or a b c)
a OR (b OR c)  ->  (or a (or b c))
(a OR b) OR c  ->  (or (or a b) c)
-- All levels at once.
NOT -a::integer * b + c || d LIKE e = f IS NOT TRUE AND g OR h  ->  (or (and (not 1 (is-not-true (= (like (|| (sum (product (sign - (cast a integer)) * b) + c) d) e) f))) g) h)
a OR b AND NOT c IS NULL  ->  (or a (and b (not 1 (is-null c))))
a NOT IN (1) AND b NOT LIKE c OR d NOT BETWEEN 1 AND 2  ->  (or (and (not-in a 1) (not-like b c)) (not-between d 1 2))
CASE WHEN a THEN b ELSE c END = CASE d WHEN e THEN f END  ->  (= (case (when a b) (else c)) (case (of d) (when e f)))
GREATEST(a, b) BETWEEN LEAST(c, d) AND COALESCE(e, f) + 1  ->  (between (greatest a b) (least c d) (sum (coalesce e f) + 1))
ROW(a, b) IS NOT DISTINCT FROM ROW(c, NULLIF(d, e)::text)  ->  (is-not-distinct (row a b) (row c (cast (nullif d e) text)))
f(a::text, -b, CASE WHEN c IS NULL THEN d END)  ->  (call f (cast a text) (sign - b) (case (when (is-null c) d)))
(a::text)  ->  (cast a text)
a IN (CASE WHEN b THEN 1 END, (SELECT c FROM t WHERE d IN (SELECT e FROM u)))  ->  (in a (case (when b 1)) (subquery (select c (from t) (where (in-query d (select e (from u)))))))
((SELECT 1) + 1)  ->  (sum (subquery (select 1)) + 1)
a IN ((SELECT 1) + 1)  ->  (in a (sum (subquery (select 1)) + 1))
-- Blanks and comments.
a/* + */*b--c  ->  (product a * b)
"#;

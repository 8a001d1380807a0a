//! Expressions and queries of whole scripts, with their trees by hand.

/// Lines `text  ->  tree` of expressions.
pub(crate) const SCRIPT_EXPRESSIONS: &str = r#"
true  ->  TRUE
false  ->  FALSE
NULL  ->  NULL
0  ->  0
2147483647  ->  2147483647
9223372036854775807  ->  9223372036854775807
'COMMIT'  ->  'COMMIT'
'23505'  ->  '23505'
'SELECT $1 + 1'  ->  'SELECT $1 + 1'
SQLERRM  ->  sqlerrm
SQLSTATE  ->  sqlstate
r.a  ->  r.a
NEW.id  ->  new.id
OLD.balance  ->  old.balance
repeat('x', 1048576)  ->  (call repeat 'x' 1048576)
x + 1  ->  (sum x + 1)
s + i  ->  (sum s + i)
x / 0  ->  (product x / 0)
n * 2  ->  (product n * 2)
NEW.v * 2  ->  (product new.v * 2)
NEW.v + 1  ->  (sum new.v + 1)
n + x % 2  ->  (sum n + (product x % 2))
i % 2 = 0  ->  (= (product i % 2) 0)
balance + amount  ->  (sum balance + amount)
balance - amount  ->  (sum balance - amount)
balance >= 0  ->  (>= balance 0)
b > 0  ->  (> b 0)
lastname = 'Jones'  ->  (= lastname 'Jones')
k = OLD.k  ->  (= k old.k)
n = m  ->  (= n m)
d(n + 1, m)  ->  (call d (sum n + 1) m)
r.c % 2 = 0 AND r.c <= n  ->  (and (= (product r.c % 2) 0) (<= r.c n))
"#;

/// Lines `text  ->  tree` of queries.
pub(crate) const SCRIPT_QUERIES: &str = r#"
SELECT 1  ->  (select 1)
SELECT 100  ->  (select 100)
SELECT 1 AS a  ->  (select (as 1 a))
SELECT 1 / 0  ->  (select (product 1 / 0))
SELECT $1 + 1  ->  (select (sum $1 + 1))
SELECT 2147483647 + 1  ->  (select (sum 2147483647 + 1))
SELECT 2147483647 + 1::bigint  ->  (select (sum 2147483647 + (cast 1 bigint)))
SELECT -7 / 2, -7 % 2  ->  (select (product -7 / 2) (product -7 % 2))
SELECT true, 'yes'::boolean, true::text, NULL  ->  (select TRUE (cast 'yes' boolean) (cast TRUE text) NULL)
SELECT $q$it's $$x$$$q$ AS s, E'a\'b' AS e  ->  (select (as 'it''s $$x$$' s) (as 'a''b' e))
SELECT c()  ->  (select (call c))
SELECT odd(5), odd(0)  ->  (select (call odd 5) (call odd 0))
SELECT d(1, 64)  ->  (select (call d 1 64))
SELECT nextval('s')  ->  (select (call nextval 's'))
SELECT c FROM n  ->  (select c (from n))
SELECT x FROM n  ->  (select x (from n))
SELECT firstname FROM mytab  ->  (select firstname (from mytab))
SELECT * FROM z  ->  (select * (from z))
SELECT * FROM evens(5)  ->  (select * (from (call evens 5)))
SELECT * FROM plpgsql_check_function('f()')  ->  (select * (from (call plpgsql_check_function 'f()')))
SELECT * FROM plpgsql_check_function('f()', fatal_errors => false)  ->  (select * (from (call plpgsql_check_function 'f()' (fatal_errors FALSE))))
SELECT count(*) FROM t  ->  (select (count-rows) (from t))
SELECT count(*), sum(balance) FROM account  ->  (select (count-rows) (call sum balance) (from account))
SELECT v FROM k ORDER BY v  ->  (select v (from k) (order (key v)))
SELECT id, balance FROM account ORDER BY id  ->  (select id balance (from account) (order (key id)))
SELECT c, count(*) FROM n GROUP BY c ORDER BY c  ->  (select c (count-rows) (from n) (group c) (order (key c)))
SELECT v FROM p WHERE v > 6  ->  (select v (from p) (where (> v 6)))
SELECT k FROM big WHERE k = i  ->  (select k (from big) (where (= k i)))
SELECT k FROM h WHERE k = 2  ->  (select k (from h) (where (= k 2)))
SELECT k FROM h WHERE k = 4294967297  ->  (select k (from h) (where (= k 4294967297)))
SELECT k FROM h WHERE k = NULL  ->  (select k (from h) (where (= k NULL)))
SELECT k FROM h WHERE k = 2 AND 1 / (k - 1) = 1  ->  (select k (from h) (where (and (= k 2) (= (product 1 / (sum k - 1)) 1))))
SELECT (SELECT c FROM n)  ->  (select (subquery (select c (from n))))
SELECT a.c, b.c AS d FROM n a LEFT JOIN n b ON b.c < a.c ORDER BY 1, 2  ->  (select a.c (as b.c d) (from (join (as n a) (left (as n b) (< b.c a.c)))) (order (key 1) (key 2)))
"#;

//! Definitions, and what they do where there is a table `u` with the integer `k`.
//! `tools/definition-cases` compares the refusals, the columns and the names and kinds of the rules
//! with a PostgreSQL server's.

/// Lines `definition  ->  what it does`. One that begins with `--` says what follows, and with one
/// behind `!` the server does otherwise.
pub(crate) const CASES: &str = r#"
-- Columns.
CREATE TABLE t (a integer)  ->  t: a integer
CREATE TABLE t (a int4, b int8, c text, d bool)  ->  t: a integer, b bigint, c text, d boolean
CREATE TABLE t (a integer NOT NULL, b text NULL)  ->  t: a integer not-null, b text
CREATE TABLE IF NOT EXISTS t (a integer)  ->  t: a integer
-- Keys.
CREATE TABLE t (a integer PRIMARY KEY)  ->  t: a integer not-null | t_pkey primary 0
CREATE TABLE t (a integer, b text, PRIMARY KEY (b, a))  ->  t: a integer not-null, b text not-null | t_pkey primary 1 0
CREATE TABLE t (a integer UNIQUE, b text, UNIQUE (b, a))  ->  t: a integer, b text | t_a_key unique 0, t_b_a_key unique 1 0
! CREATE TABLE t (a integer CONSTRAINT x UNIQUE, CONSTRAINT y PRIMARY KEY (a))  ->  t: a integer not-null | x unique 0, y primary 0
CREATE TABLE t (UNIQUE (b), a integer, b integer)  ->  t: a integer, b integer | t_b_key unique 1
CREATE TABLE t (a integer, a_b integer, b integer, UNIQUE (a, b), UNIQUE (a_b))  ->  t: a integer, a_b integer, b integer | t_a_b_key unique 0 2, t_a_b_key1 unique 1
-- DEFAULT.
CREATE TABLE t (a integer DEFAULT 1, b bigint DEFAULT 1, c text DEFAULT 1)  ->  t: a integer default 1, b bigint default 1::bigint, c text default 1::text
CREATE TABLE t (a integer DEFAULT '7', b text DEFAULT 'x', c boolean DEFAULT NULL)  ->  t: a integer default '7'::integer, b text default 'x', c boolean default NULL::boolean
CREATE TABLE t (a integer DEFAULT 1::bigint, b text DEFAULT true)  ->  t: a integer default 1::bigint::integer, b text default true::text
-- CHECK.
CREATE TABLE t (a integer CHECK (a > 0))  ->  t: a integer | t_a_check check (0.0 > 0)
CREATE TABLE t (a integer, b integer CHECK (a > 0))  ->  t: a integer, b integer | t_a_check check (0.0 > 0)
CREATE TABLE t (a integer, b integer, CHECK (a > b), CHECK (b < a), CHECK (true))  ->  t: a integer, b integer | t_check check (0.0 > 0.1), t_check1 check (0.1 < 0.0), t_check2 check true
CREATE TABLE t (a integer CHECK (a > 0), CHECK (a < 5), CHECK (t.a < a))  ->  t: a integer | t_a_check check (0.0 > 0), t_a_check1 check (0.0 < 5), t_a_check2 check (0.0 < 0.0)
CREATE TABLE t (a integer, CONSTRAINT t_a_check CHECK (a < 9), CHECK (a > 0))  ->  t: a integer | t_a_check check (0.0 < 9), t_a_check1 check (0.0 > 0)
CREATE TABLE t (a integer CHECK ('yes'), b integer CHECK (NULL))  ->  t: a integer, b integer | t_check check 'yes'::boolean, t_check1 check NULL::boolean
-- The name is taken.
CREATE TABLE u (a integer)  ->  42P07
CREATE TABLE IF NOT EXISTS u (a integer)  ->  nothing 42P07
-- The name is looked at first.
! CREATE TABLE u (a nosuch)  ->  42P07
-- Columns that are refused.
CREATE TABLE t (a nosuch)  ->  42704
CREATE TABLE t (a t)  ->  42704
CREATE TABLE t (a void)  ->  42P16
CREATE TABLE t (a integer NULL NOT NULL)  ->  42601
CREATE TABLE t (a nosuch, a integer)  ->  42704
CREATE TABLE t (a integer, b text, a text)  ->  42701
-- A row type is none of a column, a table has columns, and a key isn't NULL.
! CREATE TABLE t (a u)  ->  0A000
! CREATE TABLE t (CHECK (true))  ->  42601
! CREATE TABLE t (a integer NULL PRIMARY KEY)  ->  42601
-- Keys that are refused.
CREATE TABLE t (a integer PRIMARY KEY, b integer PRIMARY KEY)  ->  42P16
CREATE TABLE t (a integer, UNIQUE (b))  ->  42703
CREATE TABLE t (a integer, UNIQUE (a, a))  ->  42701
-- Foreign keys aren't there yet.
! CREATE TABLE t (a integer REFERENCES u)  ->  0A000
! CREATE TABLE t (a integer, FOREIGN KEY (a) REFERENCES u)  ->  0A000
-- Names that are refused.
CREATE TABLE t (a integer, CONSTRAINT x CHECK (a > 0), CONSTRAINT x UNIQUE (a))  ->  42710
CREATE TABLE t (a integer CHECK (a > 0), CONSTRAINT t_a_check CHECK (a < 9))  ->  42710
-- A name that is too long.
! CREATE TABLE t23456789012345678901234567890123456789012345678901234567890 (a integer PRIMARY KEY)  ->  42622
-- Names before expressions.
! CREATE TABLE t (a integer CHECK (b > 0), CONSTRAINT x CHECK (true), CONSTRAINT x CHECK (true))  ->  42710
-- DEFAULT that is refused.
CREATE TABLE t (a integer, b integer DEFAULT a)  ->  0A000
CREATE TABLE t (a integer, b integer DEFAULT nosuch)  ->  0A000
CREATE TABLE t (a integer, b integer DEFAULT (SELECT 1))  ->  0A000
CREATE TABLE t (a integer DEFAULT true)  ->  42804
CREATE TABLE t (a integer DEFAULT 'x'::text)  ->  42804
CREATE TABLE t (a integer DEFAULT count(*))  ->  42803
CREATE TABLE t (a integer DEFAULT $1)  ->  42P02
-- CHECK that is refused.
CREATE TABLE t (a integer CHECK (a))  ->  42804
CREATE TABLE t (a integer CHECK (b > 0))  ->  42703
CREATE TABLE t (a integer CHECK (x.a > 0))  ->  42P01
CREATE TABLE t (a integer CHECK (t.b > 0))  ->  42703
CREATE TABLE t (a integer CHECK (a IN (SELECT 1)))  ->  0A000
CREATE TABLE t (a integer CHECK (EXISTS (SELECT nosuch)))  ->  0A000
CREATE TABLE t (a integer CHECK (max(a) > 0))  ->  42803
CREATE TABLE t (a integer CHECK (nosuch(a)))  ->  42883
CREATE TABLE t (a integer CHECK (a::nosuch))  ->  42704
-- No object is known in DEFAULT and CHECK.
! CREATE TABLE t (a integer CHECK (NULL::u IS NULL))  ->  42704
! CREATE TABLE t (a text DEFAULT NULL::u)  ->  42704
-- In reading order.
! CREATE TABLE t (a integer CHECK (b > 0), c integer DEFAULT true)  ->  42703
-- DROP.
DROP TABLE u  ->  drop u
DROP TABLE IF EXISTS u  ->  drop u
DROP TABLE t  ->  42P01
DROP TABLE IF EXISTS t  ->  nothing 42P01
"#;

//! Definitions of functions, and what they do where there is a table `u` with the integer `k` and a
//! function `f(a integer, text)` of a bigint; the body of each is read before, and is an empty one.
//! `tools/definition-cases` compares them with a PostgreSQL server's.

/// Lines `definition  ->  what it does`. One that begins with `--` says what follows, and with one
/// behind `!` the server does otherwise.
pub(crate) const ROUTINE_CASES: &str = r#"
-- A function is made.
CREATE FUNCTION g() RETURNS integer LANGUAGE plpgsql AS 'BEGIN END'  ->  g() integer
CREATE FUNCTION g(a integer, b text, c boolean, d bigint) RETURNS void LANGUAGE plpgsql AS 'BEGIN END'  ->  g(a integer, b text, c boolean, d bigint) void
CREATE OR REPLACE FUNCTION g(IN a int4) RETURNS text AS 'BEGIN END' LANGUAGE 'plpgsql'  ->  g(a integer) text
CREATE FUNCTION u() RETURNS integer LANGUAGE plpgsql AS 'BEGIN END'  ->  u() integer
-- Its name is taken.
CREATE FUNCTION f(a integer, text) RETURNS bigint LANGUAGE plpgsql AS 'BEGIN END'  ->  42723
! CREATE FUNCTION f() RETURNS bigint LANGUAGE plpgsql AS 'BEGIN END'  ->  42723
! CREATE FUNCTION length(a text) RETURNS integer LANGUAGE plpgsql AS 'BEGIN END'  ->  42723
! CREATE OR REPLACE FUNCTION sum(a integer) RETURNS integer LANGUAGE plpgsql AS 'BEGIN END'  ->  42723
-- Its types and the names of its parameters.
CREATE FUNCTION g(a nosuch) RETURNS integer LANGUAGE plpgsql AS 'BEGIN END'  ->  42704
CREATE FUNCTION g() RETURNS nosuch LANGUAGE plpgsql AS 'BEGIN END'  ->  42704
! CREATE FUNCTION g(a u) RETURNS integer LANGUAGE plpgsql AS 'BEGIN END'  ->  0A000
CREATE FUNCTION g(a integer, b integer, a text) RETURNS integer LANGUAGE plpgsql AS 'BEGIN END'  ->  42P13
CREATE FUNCTION g(integer, integer) RETURNS integer LANGUAGE plpgsql AS 'BEGIN END'  ->  g(integer, integer) integer
-- One is replaced by one that is called as it was.
CREATE OR REPLACE FUNCTION f(a integer, text) RETURNS bigint LANGUAGE plpgsql AS 'BEGIN END'  ->  replace f(a integer, text) bigint
CREATE OR REPLACE FUNCTION f(a integer, b text) RETURNS bigint LANGUAGE plpgsql AS 'BEGIN END'  ->  replace f(a integer, b text) bigint
CREATE OR REPLACE FUNCTION f(b integer, text) RETURNS bigint LANGUAGE plpgsql AS 'BEGIN END'  ->  42P13
CREATE OR REPLACE FUNCTION f(integer, text) RETURNS bigint LANGUAGE plpgsql AS 'BEGIN END'  ->  42P13
CREATE OR REPLACE FUNCTION f(a integer, text) RETURNS integer LANGUAGE plpgsql AS 'BEGIN END'  ->  42P13
CREATE OR REPLACE FUNCTION f(a integer, text) RETURNS void LANGUAGE plpgsql AS 'BEGIN END'  ->  42P13
! CREATE OR REPLACE FUNCTION f(a integer) RETURNS bigint LANGUAGE plpgsql AS 'BEGIN END'  ->  42P13
! CREATE OR REPLACE FUNCTION f(a bigint, text) RETURNS bigint LANGUAGE plpgsql AS 'BEGIN END'  ->  42P13
-- A function lacks a part.
CREATE FUNCTION g() LANGUAGE plpgsql AS 'BEGIN END'  ->  42P13
CREATE FUNCTION g(a integer) LANGUAGE plpgsql AS 'BEGIN END'  ->  42P13
CREATE FUNCTION g() RETURNS integer LANGUAGE plpgsql  ->  42P13
CREATE FUNCTION g() RETURNS integer AS 'BEGIN END'  ->  42P13
CREATE FUNCTION g() RETURNS integer  ->  42P13
CREATE PROCEDURE g() LANGUAGE plpgsql  ->  42P13
CREATE PROCEDURE g() AS 'BEGIN END'  ->  42P13
CREATE OR REPLACE FUNCTION f(a integer, text) RETURNS bigint LANGUAGE plpgsql  ->  42P13
CREATE FUNCTION f(a integer, text) LANGUAGE plpgsql AS 'BEGIN END'  ->  42P13
-- That is looked at before its language and its types.
! CREATE FUNCTION g(a nosuch) RETURNS integer LANGUAGE plpgsql  ->  42P13
! CREATE FUNCTION g() RETURNS integer LANGUAGE nosuch  ->  42P13
-- No other language.
! CREATE FUNCTION g() RETURNS integer LANGUAGE sql AS 'SELECT 1'  ->  0A000
! CREATE FUNCTION g() RETURNS integer LANGUAGE nosuch AS 'BEGIN END'  ->  0A000
! CREATE FUNCTION g() RETURNS integer LANGUAGE 'PLPGSQL' AS 'BEGIN END'  ->  0A000
-- Procedures, parameters that go out, and sets aren't there yet.
! CREATE PROCEDURE g() LANGUAGE plpgsql AS 'BEGIN END'  ->  0A000
! CREATE FUNCTION g(OUT a integer) LANGUAGE plpgsql AS 'BEGIN END'  ->  0A000
! CREATE FUNCTION g(INOUT a integer) RETURNS integer LANGUAGE plpgsql AS 'BEGIN END'  ->  0A000
! CREATE FUNCTION g() RETURNS SETOF integer LANGUAGE plpgsql AS 'BEGIN END'  ->  0A000
! CREATE FUNCTION g() RETURNS TABLE (a integer) LANGUAGE plpgsql AS 'BEGIN END'  ->  0A000
-- DROP of functions.
DROP FUNCTION f  ->  drop f
DROP FUNCTION f(integer, text)  ->  drop f
DROP FUNCTION IF EXISTS f(int4, text) RESTRICT  ->  drop f
DROP FUNCTION f()  ->  42883
DROP FUNCTION f(integer)  ->  42883
DROP FUNCTION f(text, integer)  ->  42883
DROP FUNCTION f(integer, text, text)  ->  42883
DROP FUNCTION IF EXISTS f(bigint, text)  ->  nothing 42883
DROP FUNCTION g  ->  42883
DROP FUNCTION g(integer)  ->  42883
DROP FUNCTION u  ->  42883
DROP FUNCTION IF EXISTS g  ->  nothing 42883
DROP FUNCTION IF EXISTS g(nosuch)  ->  nothing 42883
DROP PROCEDURE f(integer, text)  ->  42809
DROP PROCEDURE IF EXISTS f(integer, text)  ->  42809
DROP PROCEDURE f(integer)  ->  42883
DROP PROCEDURE g  ->  42883
DROP PROCEDURE IF EXISTS g  ->  nothing 42883
-- Without types it is the one of its name, whatever it is.
! DROP PROCEDURE f  ->  42809
-- A type that there isn't is another type, and no function that is built in goes.
! DROP FUNCTION f(nosuch)  ->  42883
! DROP FUNCTION length(text)  ->  42883
"#;

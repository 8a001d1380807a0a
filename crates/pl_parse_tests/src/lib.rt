//! Tests of the parsers: texts with their trees, and texts that no tree spells.
//!
//! A tree is printed in two forms. The prefix form, of which the tables are made, has the head of
//! each node before its parts:
//!
//! - `NULL`, `TRUE`, `-5`, `'text'`, `$1`, `name`, `"Name"`, `t.a`: what has no parts
//! - `(call f a (fatal_errors b))`: a call, its last argument named
//! - `(case (of a) (when b c) (else d))`: CASE, with its operand and ELSE where there are such
//! - `(cast a integer "t")`: to each type in turn, a row type in quotes
//! - `(sign - + a)`: signs, the outermost first
//! - `(product a * b / c)`, `(sum a + b - c)`: chains from the left
//! - `(in a b c)`, `(in-query a (select b))`: IN with a list, IN with a query
//! - `(not 2 a)`: NOT, twice
//! - `(select a (as b label) (from t (as u alias)) (order (key c desc nulls-last)))`: a query, with
//!   its other clauses likewise
//! - `(join t (left u a) (cross v))`: joins, each with its condition where it has one
//! - `(insert (as t alias) (columns a b) (values (new-row 1 DEFAULT)) (returning *))`: INSERT; in
//!   the place of its values stands a query, or `default-values`
//! - `(update t (set a 1) (set b DEFAULT) (where c))`, `(delete t (where c))`
//! - `(create-table t (column a integer not-null (default 1)) (constraint n (unique a b)))`: columns
//!   with their rules, and rules of the table, each in its constraint where it is named
//! - `(foreign-key a b (references t c d))`: the rule of the table; that of a column has no first
//!   part
//! - `(create-function f (in a integer) (out "t") (returns text) (language 'sql') (body 'text'))`:
//!   a routine, the parameters with their names or without; `(returns-setof integer)` and
//!   `(returns-table (out a integer))` likewise
//! - `(create-trigger g (before insert update) (on t) (execute f))`
//! - `(drop-function-if-exists f (types integer "t"))`, `(drop-trigger g (on t))`
//! - `(do (language sql) 'text')`, `(begin)`, `(rollback-to a)`: other commands likewise. CALL is
//!   written as a call.
//!
//! The other form, of expressions and queries alone, is SQL with each part in brackets, which is to
//! be read as the same tree.
#![tactic(auto)]

#[cfg(test)]
mod answers;
#[cfg(test)]
mod commands;
#[cfg(test)]
mod depths;
#[cfg(test)]
mod expressions;
#[cfg(test)]
mod left_out_commands;
#[cfg(test)]
mod no_commands;
#[cfg(test)]
mod no_definitions;
#[cfg(test)]
mod pieces;
#[cfg(test)]
mod queries;
#[cfg(test)]
mod refusals;
#[cfg(test)]
mod script_commands;
#[cfg(test)]
mod scripts;
#[cfg(test)]
mod sources;
#[cfg(test)]
mod tests;
#[cfg(test)]
mod words;
#[cfg(test)]
mod written_commands;
#[cfg(test)]
mod written_expressions;
#[cfg(test)]
mod written_queries;
#[cfg(test)]
mod written_words;

//! Expressions and queries, read from tokens: PostgreSQL manual, "Value Expressions" and "SELECT".
#![tactic(auto)]

mod grammar;
mod levels;
mod names;
mod operators;
mod parse;
mod parts;
mod primary;
mod queries;
mod readers;
mod steps;
mod trees;

pub use parse::{parse_expr, parse_query};
pub use readers::{
    read_alias, read_arguments, read_condition, read_expression, read_groups, read_having,
    read_items, read_operand, read_order, read_paging, read_query, read_selected, read_sources,
    read_type,
};
pub use trees::{may_have, type_of};

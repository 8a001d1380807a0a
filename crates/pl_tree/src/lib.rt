//! The trees of expressions, queries and commands.
//!
//! Brackets are gone from a tree, and so are words that may be left out, as AS. A chain of operators
//! of one level is one node, and so are repeated signs, repeated NOT and a chain of joins.
#![tactic(auto)]

mod command;
mod tree;

pub use command::{
    Assignment, ColumnRule, ColumnRuleKind, Command, Definition, Delete, Element, Insert,
    NewRoutine, NewRow, NewRows, NewTable, NewTrigger, NewValue, Param, ResultType, RoutineKind,
    TableRule, Timing, TriggerEvent, Update, Way,
};
pub use tree::{
    Argument, Arm, Expr, Factor, From, Item, Join, JoinKind, Key, Literal, Nulls, Pick, Query,
    Sign, Term,
};

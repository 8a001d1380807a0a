//! The trees of bodies: blocks, declarations and statements of PL/pgSQL.
//!
//! Brackets are gone from a tree, and so are words that may be left out. What a statement holds of
//! SQL is a tree of `pl_tree`. A statement that holds no other is a `Simple` one.
#![tactic(auto)]

mod declaration;
mod simple;
mod statement;

pub use declaration::{CursorParameter, Declaration, DeclarationKind, VariableType};
pub use simple::{
    Change, Condition, Direction, Dynamic, IntoClause, Jump, Level, Motion, OpenSource, Raise,
    RaiseOption, RaiseOptionKind, Raised, Simple, StackedItem, StackedTarget, Target,
};
pub use statement::{
    Block, Body, Branch, CaseArm, Caught, Handler, Loop, LoopHead, Otherwise, RowSource, Statement,
    StatementKind,
};

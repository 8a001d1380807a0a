//! Blocks, and statements that hold others: PostgreSQL manual, "PL/pgSQL", "Structure of PL/pgSQL"
//! and "Control Structures".

use crate::{Change, Condition, Declaration, Dynamic, Simple, Target};
use pl_base::{Boxed, List, Name};
use pl_tree::{Expr, Query};

/// The body of a routine.
///
/// Its own place has ordinal 0 and the line of its outermost BEGIN.
#[derive(Drop)]
pub struct Body {
    /// The line of the outermost BEGIN.
    pub line: u32,
    pub block: Block,
}

/// A statement and where it stands.
#[cycle(body)]
#[derive(Drop)]
pub struct Statement {
    /// The line of its first token behind its label and its declarations: a block's is that of its
    /// BEGIN. Line 1 is the rest of the line on which the body's text begins.
    pub line: u32,
    /// Its number in reading order, from 1. The outermost block has none.
    pub ordinal: u32,
    pub kind: StatementKind,
}

/// What a statement does.
#[cycle(body)]
#[derive(Drop)]
pub enum StatementKind {
    /// A block inside another.
    Block(Block),
    If {
        /// IF, and each ELSIF; at least one.
        branches: List<Branch>,
        /// ELSE
        otherwise: Option<Boxed<Otherwise>>,
    },
    Case {
        /// What the values of the arms are compared with; without it they are conditions.
        operand: Option<Boxed<Expr>>,
        /// At least one.
        arms: List<CaseArm>,
        /// ELSE
        otherwise: Option<Boxed<Otherwise>>,
    },
    Loop(Loop),
    /// A statement that holds no other.
    Simple(Simple),
}

/// A block.
#[cycle(body)]
#[derive(Drop)]
pub struct Block {
    pub label: Option<Name>,
    /// DECLARE; empty where there is none.
    pub declarations: List<Declaration>,
    pub statements: List<Statement>,
    /// EXCEPTION; empty where there is none.
    pub handlers: List<Handler>,
    /// The name behind END.
    pub end_label: Option<Name>,
}

/// WHEN and THEN of EXCEPTION.
#[cycle(body)]
#[derive(Drop)]
pub struct Handler {
    /// At least one.
    pub conditions: List<Caught>,
    pub statements: List<Statement>,
}

/// What a handler catches.
#[derive(Drop)]
pub enum Caught {
    /// OTHERS
    Others,
    Condition(Condition),
}

/// IF or ELSIF, and THEN.
#[cycle(body)]
#[derive(Drop)]
pub struct Branch {
    pub condition: Expr,
    pub statements: List<Statement>,
}

/// WHEN and THEN of CASE.
#[cycle(body)]
#[derive(Drop)]
pub struct CaseArm {
    /// At least one.
    pub values: List<Expr>,
    pub statements: List<Statement>,
}

/// ELSE
#[cycle(body)]
#[derive(Drop)]
pub struct Otherwise {
    pub statements: List<Statement>,
}

/// A loop.
#[cycle(body)]
#[derive(Drop)]
pub struct Loop {
    pub label: Option<Name>,
    pub head: LoopHead,
    pub statements: List<Statement>,
    /// The name behind END LOOP.
    pub end_label: Option<Name>,
}

/// What stands before LOOP.
#[derive(Drop)]
pub enum LoopHead {
    /// Nothing.
    Forever,
    /// WHILE
    While(Expr),
    /// FOR with an integer, which is a variable of its own.
    Range {
        variable: Name,
        /// REVERSE
        is_reverse: bool,
        first: Expr,
        last: Expr,
        /// BY
        step: Option<Boxed<Expr>>,
    },
    /// FOR over the rows of a query, or those that a change gives.
    Rows {
        /// At least one.
        targets: List<Target>,
        source: RowSource,
    },
    /// FOR over a bound cursor, with a record that is a variable of its own.
    Cursor {
        variable: Name,
        cursor: Name,
        /// Empty where there are no brackets.
        arguments: List<Expr>,
    },
}

/// Where the rows of a loop come from.
#[derive(Drop)]
pub enum RowSource {
    Query(Query),
    Change(Change),
    /// EXECUTE
    Execute(Dynamic),
}

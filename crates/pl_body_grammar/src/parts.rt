//! What is read before the tree that it becomes a part of is known.

use pl_base::{Boxed, List, Name};
use pl_bodies::{Caught, DeclarationKind, LoopHead, RowSource, Simple};
use pl_tree::{Definition, Expr};

/// A piece of a body: what is read of it at a time. A body is a row of pieces, and a statement that
/// holds others has one before, one behind, and maybe some between them.
#[derive(Drop)]
pub enum Piece {
    /// `<<label>>`
    Label(Name),
    /// DECLARE
    Declare,
    Declaration {
        name: Name,
        kind: DeclarationKind,
    },
    /// BEGIN
    Begin,
    /// EXCEPTION, and WHEN and THEN of the first handler.
    Exception(List<Caught>),
    /// WHEN and THEN of a further handler.
    Handler(List<Caught>),
    /// END of a block, with the name behind it and `;`
    End(Option<Name>),
    /// IF and THEN
    If(Expr),
    /// ELSIF and THEN
    Elsif(Expr),
    /// ELSE
    Else,
    /// END IF and `;`
    EndIf,
    /// CASE, and WHEN and THEN of the first arm.
    Case {
        operand: Option<Boxed<Expr>>,
        values: List<Expr>,
    },
    /// WHEN and THEN of a further arm.
    Arm(List<Expr>),
    /// END CASE and `;`
    EndCase,
    /// LOOP, with what stands before it.
    Loop(LoopHead),
    /// END LOOP, with the name behind it and `;`
    EndLoop(Option<Name>),
    /// A statement that holds no other, and `;`
    Simple(Simple),
    /// CREATE or DROP, and `;`
    Definition(Definition),
}

/// What stands behind the name of a type.
#[derive(Clone, Copy)]
pub enum TypeSuffix {
    Nothing,
    /// `%ROWTYPE`
    RowType,
    /// `%TYPE`
    OfVariable,
    /// `.column%TYPE`
    OfColumn(Name),
}

/// What stands behind IN of a loop.
#[derive(Drop)]
pub enum ForSource {
    Rows(RowSource),
    Range {
        is_reverse: bool,
        first: Expr,
        last: Expr,
        step: Option<Boxed<Expr>>,
    },
    Cursor {
        cursor: Name,
        arguments: List<Expr>,
    },
}

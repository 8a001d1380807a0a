//! Declarations: PostgreSQL manual, "PL/pgSQL", "Declarations" and "Cursors".

use pl_base::{Boxed, List, Name, Ty};
use pl_tree::{Expr, Query};

/// A declaration of a block.
#[derive(Drop)]
pub struct Declaration {
    /// The line on which it begins, counted as a statement's.
    pub line: u32,
    pub name: Name,
    pub kind: DeclarationKind,
}

/// What a declaration declares.
#[derive(Drop)]
pub enum DeclarationKind {
    Variable {
        /// CONSTANT
        is_constant: bool,
        ty: VariableType,
        /// NOT NULL
        is_not_null: bool,
        /// DEFAULT, `:=` or `=`
        default: Option<Boxed<Expr>>,
    },
    /// A cursor that is bound to a query.
    Cursor {
        /// SCROLL. False with NO SCROLL, and where neither is written.
        can_scroll: bool,
        /// Empty where there are no brackets.
        parameters: List<CursorParameter>,
        query: Boxed<Query>,
    },
}

/// The type of a variable.
#[derive(Clone, Copy)]
pub enum VariableType {
    /// A type's or a table's name, `table%ROWTYPE` (which is the table's row type), or RECORD.
    Ty(Ty),
    /// REFCURSOR: a cursor that is bound to no query.
    Cursor,
    /// `name%TYPE`: the type of a variable.
    OfVariable(Name),
    /// `table.column%TYPE`
    OfColumn { table: Name, column: Name },
}

/// A parameter of a bound cursor.
#[derive(Clone, Copy)]
pub struct CursorParameter {
    pub name: Name,
    pub ty: Ty,
}

//! Commands: PostgreSQL manual, "SQL Commands".

use crate::{Argument, Expr, Item, Query};
use pl_base::{Boxed, List, Name, Txt, Ty};

/// A command.
#[derive(Drop)]
pub enum Command {
    Query(Query),
    Insert(Insert),
    Update(Update),
    Delete(Delete),
    /// CREATE or DROP.
    Define {
        definition: Definition,
        /// The command's text, from the first byte of its first token to the last byte of its last.
        source: Txt,
    },
    /// DO
    Do {
        language: Option<Name>,
        body: Txt,
    },
    /// CALL
    Call {
        name: Name,
        arguments: List<Argument>,
    },
    /// BEGIN
    Begin,
    /// START TRANSACTION
    StartTransaction,
    /// COMMIT or END
    Commit,
    /// ROLLBACK or ABORT
    Rollback,
    /// SAVEPOINT
    Savepoint(Name),
    /// RELEASE
    Release(Name),
    /// ROLLBACK TO
    RollbackTo(Name),
}

// ---- rows that are written

/// INSERT
#[derive(Drop)]
pub struct Insert {
    pub table: Name,
    pub alias: Option<Name>,
    /// The columns that are given values; empty where none is named.
    pub columns: List<Name>,
    pub rows: NewRows,
    /// Empty where there is no RETURNING.
    pub returning: List<Item>,
}

/// Where the rows of an INSERT come from.
#[derive(Drop)]
pub enum NewRows {
    /// VALUES; at least one row.
    Values(List<NewRow>),
    Query(Query),
    /// DEFAULT VALUES: one row of defaults.
    Defaults,
}

/// A row of VALUES.
#[derive(Drop)]
pub struct NewRow {
    /// At least one.
    pub values: List<NewValue>,
}

/// What a column is set to.
#[derive(Drop)]
pub enum NewValue {
    Value(Expr),
    /// DEFAULT
    Default,
}

/// UPDATE
#[derive(Drop)]
pub struct Update {
    pub table: Name,
    pub alias: Option<Name>,
    /// SET; at least one.
    pub assignments: List<Assignment>,
    /// WHERE
    pub condition: Option<Boxed<Expr>>,
    /// Empty where there is no RETURNING.
    pub returning: List<Item>,
}

/// A column and what it is set to.
#[derive(Drop)]
pub struct Assignment {
    pub column: Name,
    pub value: NewValue,
}

/// DELETE
#[derive(Drop)]
pub struct Delete {
    pub table: Name,
    pub alias: Option<Name>,
    /// WHERE
    pub condition: Option<Boxed<Expr>>,
    /// Empty where there is no RETURNING.
    pub returning: List<Item>,
}

// ---- definitions

/// What CREATE or DROP says.
#[derive(Drop)]
pub enum Definition {
    CreateTable(NewTable),
    CreateRoutine(NewRoutine),
    CreateTrigger(NewTrigger),
    /// DROP TABLE
    DropTable {
        if_exists: bool,
        name: Name,
    },
    /// DROP FUNCTION or DROP PROCEDURE
    DropRoutine {
        kind: RoutineKind,
        if_exists: bool,
        name: Name,
        /// The types of the parameters, where they are given.
        types: Option<List<Ty>>,
    },
    /// DROP TRIGGER
    DropTrigger {
        if_exists: bool,
        name: Name,
        table: Name,
    },
}

/// CREATE TABLE
#[derive(Drop)]
pub struct NewTable {
    pub if_not_exists: bool,
    pub name: Name,
    /// At least one.
    pub elements: List<Element>,
}

/// A column of a new table, or a rule of the whole table.
#[derive(Drop)]
pub enum Element {
    Column {
        name: Name,
        ty: Ty,
        /// At most one of them is a default.
        rules: List<ColumnRule>,
    },
    Rule {
        /// CONSTRAINT
        name: Option<Name>,
        rule: TableRule,
    },
}

/// A rule that stands behind a column.
#[derive(Drop)]
pub struct ColumnRule {
    /// CONSTRAINT
    pub name: Option<Name>,
    pub rule: ColumnRuleKind,
}

/// What a rule of a column asks.
#[derive(Drop)]
pub enum ColumnRuleKind {
    NotNull,
    Null,
    Default(Expr),
    Check(Expr),
    Unique,
    PrimaryKey,
    References { table: Name, column: Option<Name> },
}

/// A rule of a whole table.
#[derive(Drop)]
pub enum TableRule {
    Check(Expr),
    Unique(List<Name>),
    PrimaryKey(List<Name>),
    ForeignKey {
        columns: List<Name>,
        table: Name,
        /// Empty where none is named.
        referenced: List<Name>,
    },
}

#[derive(Clone, Copy)]
pub enum RoutineKind {
    Function,
    Procedure,
}

/// CREATE FUNCTION or CREATE PROCEDURE
#[derive(Drop)]
pub struct NewRoutine {
    pub or_replace: bool,
    pub kind: RoutineKind,
    pub name: Name,
    pub params: List<Param>,
    pub result: ResultType,
    /// LANGUAGE, as it is spelled: a name in lower case unless it is quoted, or a text.
    pub language: Option<Txt>,
    /// AS
    pub body: Option<Txt>,
}

/// Which way a parameter goes.
#[derive(Clone, Copy)]
pub enum Way {
    In,
    Out,
    InOut,
}

/// A parameter of a routine.
#[derive(Clone, Copy)]
pub struct Param {
    pub way: Way,
    pub name: Option<Name>,
    pub ty: Ty,
}

/// RETURNS
#[derive(Drop)]
pub enum ResultType {
    /// Nothing is said; so with every procedure.
    Absent,
    One(Ty),
    /// SETOF
    Set(Ty),
    /// TABLE: its columns, which go out and have a name. There is at least one.
    Columns(List<Param>),
}

#[derive(Clone, Copy)]
pub enum Timing {
    Before,
    After,
}

#[derive(Clone, Copy)]
pub enum TriggerEvent {
    Insert,
    Update,
    Delete,
}

/// CREATE TRIGGER
#[derive(Drop)]
pub struct NewTrigger {
    pub name: Name,
    pub timing: Timing,
    /// At least one.
    pub events: List<TriggerEvent>,
    pub table: Name,
    pub routine: Name,
}

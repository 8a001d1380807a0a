//! What a CREATE makes.

ghost use Rattle.std.specs.Prelude.{◌≡◌};
ghost use Rattle.pl_catalog.specs.Objects.{is_called, name_of, which_of};

use crate::RoutineBody;
use pl_base::{Boxed, List, Name, Txt, Ty};
use pl_resolved::RExpr;
use pl_tree::{Param, ResultType, RoutineKind};

/// An object of the catalogue.
#[derive(Drop)]
pub enum Object {
    Table(TableDef),
    Routine(Routine),
    Trigger(TriggerDef),
}

/// A table: PostgreSQL manual, "CREATE TABLE".
#[derive(Drop)]
pub struct TableDef {
    pub name: Name,
    /// The command that made it.
    pub text: Txt,
    pub columns: List<Column>,
    /// Those of single columns too, NOT NULL and DEFAULT excepted.
    pub rules: List<Rule>,
}

/// A column of a table.
#[derive(Drop)]
pub struct Column {
    pub name: Name,
    pub ty: Ty,
    pub is_not_null: bool,
    /// DEFAULT; it reads no column.
    pub default: Option<Boxed<RExpr>>,
}

/// A rule that the rows of a table keep.
#[derive(Drop)]
pub struct Rule {
    pub name: Name,
    pub kind: RuleKind,
}

/// What a rule asks. Columns are places in the table's list, from 0.
#[derive(Drop)]
pub enum RuleKind {
    /// CHECK. It reads the row's columns as the places of row 0.
    Check(RExpr),
    /// PRIMARY KEY
    Primary(List<usize>),
    /// UNIQUE
    Unique(List<usize>),
    /// FOREIGN KEY
    Foreign {
        columns: List<usize>,
        /// The table that is referred to.
        table: Name,
        /// The columns that are referred to, by their places in that table.
        targets: List<usize>,
    },
}

/// A function or a procedure: PostgreSQL manual, "CREATE FUNCTION", "CREATE PROCEDURE".
#[derive(Drop)]
pub struct Routine {
    pub name: Name,
    /// The command that made it.
    pub text: Txt,
    pub heading: Heading,
    /// What a call of it does.
    pub body: RoutineBody,
}

/// What a caller has to know of a routine.
#[derive(Drop)]
pub struct Heading {
    pub kind: RoutineKind,
    pub params: List<Param>,
    pub result: ResultType,
}

/// A trigger: PostgreSQL manual, "CREATE TRIGGER".
#[derive(Drop)]
pub struct TriggerDef {
    pub name: Name,
    /// The command that made it.
    pub text: Txt,
    pub table: Name,
    /// Whether it is called before a row is written, or after the command.
    pub is_before: bool,
    pub events: Events,
    /// The function that it calls.
    pub routine: Name,
}

/// The kinds of commands that a trigger is called for; at least one.
#[derive(Clone, Copy)]
pub struct Events {
    pub insert: bool,
    pub update: bool,
    pub delete: bool,
}

/// What an object is found by.
#[derive(Clone, Copy)]
pub enum Which {
    Table(Name),
    Routine(Name),
    /// The triggers of each table have names of their own.
    Trigger { table: Name, name: Name },
}

impl Object {
    /// The object's own name.
    pub fn name(&self) -> Name
        ensures { result ≡ name_of self.now }
    {
        match self {
            Object::Table(table) => table.name,
            Object::Routine(routine) => routine.name,
            Object::Trigger(trigger) => trigger.name,
        }
    }

    /// What it is found by.
    pub fn which(&self) -> Which
        ensures { result ≡ which_of self.now }
    {
        match self {
            Object::Table(table) => Which::Table(table.name),
            Object::Routine(routine) => Which::Routine(routine.name),
            Object::Trigger(trigger) => Which::Trigger {
                table: trigger.table,
                name: trigger.name,
            },
        }
    }

    /// Whether it is found by this.
    pub fn is_called(&self, which: &Which) -> bool
        ensures { result ≡ is_called which.now self.now }
    {
        match (which, self) {
            (Which::Table(name), Object::Table(object)) => object.name == *name,
            (Which::Routine(name), Object::Routine(object)) => object.name == *name,
            (Which::Trigger { table, name }, Object::Trigger(object)) => {
                object.table == *table && object.name == *name
            }
            _ => false,
        }
    }
}

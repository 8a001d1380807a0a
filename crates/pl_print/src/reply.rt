//! What is printed: results, tags and notices.

use pl_base::{Cells, List, Txt, Ty};

/// The result of a query.
#[derive(Drop)]
pub struct Grid {
    /// The headings, one for each column.
    pub heads: List<Txt>,
    /// The types of the columns, which aren't printed.
    pub types: List<Ty>,
    /// The rows, each with one value for each column.
    pub rows: List<Cells>,
}

/// What a command that is done answers. A count is of rows.
#[derive(Clone, Copy, Debug, PartialEq, Eq)]
pub enum Tag {
    Insert(u64),
    Update(u64),
    Delete(u64),
    CreateTable,
    CreateFunction,
    CreateProcedure,
    CreateTrigger,
    DropTable,
    DropFunction,
    DropProcedure,
    DropTrigger,
    Do,
    Call,
    Begin,
    StartTransaction,
    /// Also of END.
    Commit,
    /// Also of ABORT.
    Rollback,
    Savepoint,
    Release,
}

/// How weighty a notice is.
#[derive(Clone, Copy, Debug, PartialEq, Eq)]
pub enum Level {
    Info,
    Notice,
    Warning,
}

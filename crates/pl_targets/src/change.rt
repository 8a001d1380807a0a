//! Resolved changes of tables.

use pl_base::{Boxed, List, Name};
use pl_resolved::{Head, RExpr, RQuery};

/// INSERT, UPDATE or DELETE. Its expressions are evaluated over rows that stand: row 0 has the
/// variables and parameters, row 1 is empty, and row 2 is the one that each part names.
#[derive(Drop)]
pub struct RChange {
    /// The table that is changed.
    pub table: Name,
    /// Each behind those inside it.
    pub queries: List<RQuery>,
    pub what: RWhat,
    /// RETURNING, over the row that was written or, of DELETE, that was deleted. Empty where there
    /// is none.
    pub returning: List<RExpr>,
    /// The columns of what RETURNING gives, from left to right.
    pub heads: List<Head>,
}

/// What is done.
#[derive(Drop)]
pub enum RWhat {
    Insert(RRows),
    Update {
        /// The columns that are set, by their places in the table from 0; no two are the same.
        columns: List<usize>,
        /// The value of each, over the row as it was.
        values: List<RExpr>,
        /// WHERE, over the row as it was.
        condition: Option<Boxed<RExpr>>,
    },
    Delete {
        /// WHERE, over the row.
        condition: Option<Boxed<RExpr>>,
    },
}

/// The rows of an INSERT.
#[derive(Drop)]
pub enum RRows {
    /// One after the other. No row stands as row 2.
    Values(List<RRow>),
    /// One for each row of a query, which stands as row 2.
    Query {
        /// The query's number. It is evaluated over row 0 alone.
        query: usize,
        /// One for each column of the table, in its order.
        values: List<RExpr>,
    },
}

/// A row of VALUES.
#[derive(Drop)]
pub struct RRow {
    /// One for each column of the table, in its order.
    pub values: List<RExpr>,
}

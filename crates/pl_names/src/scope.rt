//! Where an expression stands.

use pl_base::{List, Name, Ty};
use pl_catalog::Catalog;
use pl_resolved::Head;

/// What is known of a variable's fields.
#[derive(Drop)]
pub enum Shape {
    /// It is no record.
    Plain,
    /// A record that has been given nothing.
    Unassigned,
    /// A record whose fields aren't known before it runs.
    Unknown,
    /// A record, and its fields.
    Known(List<Head>),
}

/// A variable.
#[derive(Drop)]
pub struct Seen {
    pub name: Name,
    pub ty: Ty,
    pub shape: Shape,
}

/// The variables of a block or a routine. The label is `Name::NONE` where there is none.
#[derive(Drop)]
pub struct Visible {
    pub label: Name,
    pub variables: List<Seen>,
}

/// The frames in reach, the outermost first, and the types of `$1`, `$2` and so on, which are the
/// first variables of the first frame.
#[derive(Drop)]
pub struct Scope {
    pub frames: List<Visible>,
    pub params: List<Ty>,
}

/// An item of a FROM.
#[derive(Drop)]
pub struct Source {
    /// Its name there, `Name::NONE` where it has none.
    pub name: Name,
    pub columns: List<Head>,
    /// Which of the rows that stand is its own, counted from 0.
    pub row: usize,
}

/// What a query around has in its FROM.
#[derive(Clone, Copy)]
pub struct Level<'a> {
    pub sources: &'a List<Source>,
    /// Whether its columns may not be named here: LIMIT and OFFSET of the query itself.
    pub is_barred: bool,
}

/// All that names are sought in.
#[derive(Clone, Copy)]
pub struct Names<'a> {
    pub catalog: &'a Catalog,
    pub scope: &'a Scope,
    /// Of each query around, the outermost first.
    pub levels: &'a [Level<'a>],
    /// The row that stands behind those of all queries around.
    pub next_row: usize,
    /// The row of the aggregates of the innermost query around.
    pub aggregates_row: usize,
    /// Whether an aggregate may stand here.
    pub may_aggregate: bool,
}

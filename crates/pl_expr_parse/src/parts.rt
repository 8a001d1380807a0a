//! What is read before the tree that it becomes a part of is known.

use pl_base::{Boxed, List, Name, Test};
use pl_tree::{Argument, Expr, From, Key, Query};

/// What may stand inside: in brackets or behind a word.
#[derive(Clone, Copy)]
pub enum Kind {
    Expression,
    Query,
    /// What FROM has.
    Source,
}

/// What stands inside, of each kind.
#[derive(Drop)]
pub enum Inside {
    Expression(Expr),
    Query(Query),
    Source(From),
}

/// What stands behind an operand of level 7.
#[derive(Drop)]
pub enum Range {
    /// BETWEEN the first AND the second
    Between(Expr, Expr),
    Like(Expr),
    InList(List<Expr>),
    InQuery(Query),
}

/// What IS asks.
#[derive(Drop)]
pub enum Question {
    Is(Test),
    DistinctFrom(Expr),
}

/// What stands behind a name.
#[derive(Drop)]
pub enum Suffix {
    Nothing,
    /// `.name`
    Column(Name),
    /// `(*)`
    AllRows,
    /// `(arguments)`
    Call(List<Argument>),
}

/// LIMIT and OFFSET.
pub type Paging = (Option<Boxed<Expr>>, Option<Boxed<Expr>>);

/// ORDER BY, and what stands behind it.
pub type Ordered = (List<Key>, Paging);

/// HAVING, and what stands behind it.
pub type Chosen = (Option<Boxed<Expr>>, Ordered);

/// GROUP BY, and what stands behind it.
pub type Ending = (List<Expr>, Chosen);

/// WHERE, and what stands behind it.
pub type BehindFrom = (Option<Boxed<Expr>>, Ending);

/// FROM, and what stands behind it.
pub type BehindItems = (List<From>, BehindFrom);

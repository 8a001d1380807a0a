//! Resolved queries.

use crate::RExpr;
use pl_base::{Boxed, List, Name, Ty};

/// A query.
#[derive(Drop)]
pub struct RQuery {
    /// The items of FROM, from left to right; empty where there is none.
    pub from: List<RJoin>,
    /// WHERE
    pub condition: Option<Boxed<RExpr>>,
    /// None where there is no GROUP BY, no HAVING and no aggregate.
    pub groups: Option<RGroups>,
    /// The values of a row: the select list, and behind it what rows are ordered by that isn't in
    /// the list.
    pub items: List<RExpr>,
    /// Of the select list, from left to right: the columns of the query's rows.
    pub heads: List<Head>,
    pub is_distinct: bool,
    /// ORDER BY, the key that counts most first.
    pub order: List<RKey>,
    pub limit: Option<Boxed<RExpr>>,
    pub offset: Option<Boxed<RExpr>>,
}

/// The name and the type of a column. The name is `Name::NONE` where it is printed as `?column?`.
#[derive(Clone, Copy)]
pub struct Head {
    pub name: Name,
    pub ty: Ty,
}

/// How the rows are grouped. Items, HAVING and order keys read the first row of a group, and before
/// it the row of its aggregates.
#[derive(Drop)]
pub struct RGroups {
    /// GROUP BY. Without a key all rows are one group, which is there without rows too.
    pub keys: List<RExpr>,
    /// Each one once.
    pub aggregates: List<RAggregate>,
    pub having: Option<Boxed<RExpr>>,
}

/// An aggregate of a group's rows.
#[derive(Drop)]
pub struct RAggregate {
    pub aggregate: Aggregate,
    /// Two of `StringAgg`, none of `CountRows`, one of the others.
    pub arguments: List<RExpr>,
}

/// The aggregates.
#[derive(Clone, Copy)]
pub enum Aggregate {
    /// `count(*)`
    CountRows,
    /// `count`
    Count,
    /// `sum`
    Sum,
    /// `min`
    Min,
    /// `max`
    Max,
    /// `bool_and`
    BoolAnd,
    /// `bool_or`
    BoolOr,
    /// `string_agg`
    StringAgg,
}

/// What rows are ordered by.
#[derive(Clone, Copy)]
pub struct RKey {
    /// The place among the query's items, from 0.
    pub item: usize,
    pub is_descending: bool,
    pub nulls_first: bool,
}

/// An item of FROM, with how it joins those before it.
#[cycle(source)]
#[derive(Drop)]
pub struct RJoin {
    pub source: RSource,
    /// LEFT JOIN: where no row of it passes, the rows before it stand with nulls in its place.
    pub is_left: bool,
    /// ON
    pub condition: Option<Boxed<RExpr>>,
}

/// Where an item of FROM has its rows from.
#[cycle(source)]
#[derive(Drop)]
pub enum RSource {
    /// A table.
    Table(Name),
    /// The query of this number.
    Query(usize),
    /// A function that gives one value: one row of that value.
    Value(Boxed<RExpr>),
    /// Joined items in brackets, of which there are at least two. Each has a row that stands.
    Joined(List<RJoin>),
}

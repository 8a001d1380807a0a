//! Resolved expressions and queries: each name is a place, each operator has operands of types that
//! it takes, and each cast that nobody wrote is written out. So evaluation decides nothing.
//!
//! A statement is a list of queries. An expression names a query inside it by its number in that
//! list, in which each query stands behind those inside it.
//!
//! An expression is evaluated over rows that stand: a place names one of them, counted from 0, and
//! a column of it. Row 0 has the variables, then the parameters. Behind it each query, the
//! outermost first, has one row of its aggregates and then one for each item of its FROM. So an
//! expression means the same, and is the same tree, wherever it stands in its query.
#![tactic(auto)]

mod copies;
mod expression;
mod query;

pub use expression::{Combination, RArm, RCase, RChain, RExpr, RPair, RStep};
pub use query::{Aggregate, Head, RAggregate, RGroups, RJoin, RKey, RQuery, RSource};

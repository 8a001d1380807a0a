//! The end of a query, where all its clauses have been read.

ghost use Rattle.std.specs.Prelude.{◌≡◌, ◌||◌, not, IfOk};
ghost use Rattle.pl_scope.specs.Answers.{Meets};
ghost use Rattle.pl_scope.specs.Steps as spec;

use crate::{Current, Inner, Made, Ordered};
use pl_base::{Boxed, Held, List, State};
use pl_grouping::{reads, reads_any};
use pl_names::Items;
use pl_resolved::{Head, RAggregate, RExpr, RGroups, RJoin, RKey, RQuery};
use pl_typing::ScopeFail;
use std::alloc::{AllocError, Global};
use std::mem;

/// The clauses that say which rows there are, and the columns of each.
#[derive(Drop)]
pub struct Selected {
    pub items: Items,
    /// WHERE
    pub condition: Option<Boxed<RExpr>>,
    /// GROUP BY
    pub keys: List<RExpr>,
    pub having: Option<Boxed<RExpr>>,
}

/// The clauses that say in which order rows come, and how many of them.
#[derive(Drop)]
pub struct Arranged {
    pub ordered: Ordered,
    pub limit: Option<Boxed<RExpr>>,
    pub offset: Option<Boxed<RExpr>>,
}

/// The clauses of a query.
#[derive(Drop)]
pub struct Clauses {
    pub from: List<RJoin>,
    /// WHERE
    pub condition: Option<Boxed<RExpr>>,
    /// GROUP BY
    pub keys: List<RExpr>,
    pub having: Option<Boxed<RExpr>>,
    pub heads: List<Head>,
    pub is_distinct: bool,
    /// The select list, and behind it what else rows are ordered by.
    pub values: List<RExpr>,
    pub order: List<RKey>,
    pub limit: Option<Boxed<RExpr>>,
    pub offset: Option<Boxed<RExpr>>,
}

fn has_groups(keys: &[RExpr], has_having: bool, aggregates: &[RAggregate]) -> bool
    ensures { result ≡ (not (spec.is_empty keys.now) || has_having
        || not (spec.is_empty aggregates.now)) }
{
    !keys.is_empty() || has_having || !aggregates.is_empty()
}

fn is_grouped(clauses: &Clauses, aggregates: &[RAggregate]) -> bool
    ensures { result ≡ spec.is_grouped clauses.now aggregates.now }
{
    has_groups(
        clauses.keys.as_slice(),
        clauses.having.is_some(),
        aggregates,
    )
}

fn reads_maybe(
    alloc: Global,
    keys: &[RExpr],
    queries: &[RQuery],
    since: usize,
    first: usize,
    end: usize,
    tree: &Option<Boxed<RExpr>>,
) -> Result<bool, AllocError>
    ensures { IfOk result (λ does. does ≡ spec.reads_maybe keys.now queries.now since first end
        tree.now) }
{
    match tree {
        None => Ok(false),
        Some(tree) => reads(alloc, keys, queries, since, first, end, tree.get()),
    }
}

fn is_ungrouped(
    alloc: Global,
    clauses: &Clauses,
    made: &Made,
    first: usize,
    end: usize,
) -> Result<bool, AllocError>
    ensures { IfOk result (λ is. is ≡ spec.is_ungrouped clauses.now made.now first end) }
{
    let keys = clauses.keys.as_slice();
    let queries = made.queries.as_slice();
    let since = made.current.since;
    let values = clauses.values.as_slice();
    let reads_column = reads_any(alloc, keys, queries, since, first, end, values)?;
    if reads_column {
        return Ok(true);
    }
    reads_maybe(alloc, keys, queries, since, first, end, &clauses.having)
}

fn query_of(clauses: Clauses, aggregates: List<RAggregate>) -> RQuery
    ensures { result ≡ spec.query_of clauses aggregates }
{
    let is_grouped = is_grouped(&clauses, aggregates.as_slice());
    let Clauses {
        from,
        condition,
        keys,
        having,
        heads,
        is_distinct,
        values,
        order,
        limit,
        offset,
    } = clauses;
    let groups = if is_grouped {
        Some(RGroups {
            keys,
            aggregates,
            having,
        })
    } else {
        None
    };
    RQuery {
        from,
        condition,
        groups,
        items: values,
        heads,
        is_distinct,
        order,
        limit,
        offset,
    }
}

fn closed_as(
    alloc: Global,
    query: Held<RQuery>,
    outer: Current,
    made: &mut Made,
) -> Result<Inner, ScopeFail>
    ensures { Meets (spec.closed_as query outer made.old) result made.new }
{
    let heads = List::from_slice(alloc, query.get().heads.as_slice())?;
    let number = made.queries.len();
    made.queries.push(query.into_inner())?;
    made.current = outer;
    Ok(Inner { number, heads })
}

/// Puts the query behind those inside it, and what was known of the one around back. 42803 where a
/// column of its own rows, which begin at `first` and end before `end`, stands outside the groups.
#[tactic(auto, unfolding(crate::specs::Steps::closed))]
pub fn close(
    alloc: Global,
    clauses: Clauses,
    outer: Current,
    first: usize,
    end: usize,
    made: &mut Made,
) -> Result<Inner, ScopeFail>
    ensures { Meets (spec.closed clauses outer first end made.old) result made.new }
{
    let clauses = Held::new(clauses);
    let is_grouped = is_grouped(clauses.get(), made.current.aggregates.as_slice());
    if is_grouped && is_ungrouped(alloc, clauses.get(), &*made, first, end)? {
        return Err(ScopeFail::State(State::GROUPING_ERROR));
    }
    let aggregates = mem::replace(&mut made.current.aggregates, List::new(alloc));
    let query = Held::new(query_of(clauses.into_inner(), aggregates));
    closed_as(alloc, query, outer, made)
}

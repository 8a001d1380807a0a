//! What queries read of the rows around them.

ghost use Rattle.std.specs.Prelude.{◌≡◌, [], drop, IfOk};
ghost use Rattle.pl_grouping.specs.Queries as spec;
ghost use Rattle.pl_grouping.specs.Reading as reading;
ghost use Rattle.pl_grouping.specs.Columns.{asking};

use crate::ungrouped::{Asked, any_reads, query_reads, reads_if_any, tree_reads};
use pl_resolved::{RAggregate, RExpr, RGroups, RJoin, RQuery, RSource};
use std::alloc::{AllocError, Global};

#[cycle(sources)]
#[tactic(auto, using(crate::proofs::SourceEquations::equations))]
fn source_reads(source: &RSource, of: &Asked<'_>) -> bool
    ensures { result ≡ spec.source_reads (asking of.now) source.now }
{
    match source {
        RSource::Table(_) => false,
        RSource::Query(query) => query_reads(*query, of),
        RSource::Value(value) => tree_reads(value.get(), of),
        RSource::Joined(joins) => any_join_reads(joins.as_slice(), of),
    }
}

#[cycle(sources)]
fn any_join_reads(joins: &[RJoin], of: &Asked<'_>) -> bool
    ensures { result ≡ spec.any_join_reads (asking of.now) joins.now }
{
    for join in joins {
        if source_reads(&join.source, of) || reads_if_any(&join.condition, of) {
            return true;
        }
    }
    false
}

fn any_aggregate_reads(mut aggregates: &[RAggregate], of: &Asked<'_>) -> bool
    ensures { result ≡ spec.any_aggregate_reads (asking of.now) aggregates.entry.now }
{
    while let [aggregate, rest @ ..] = aggregates {
        if any_reads(aggregate.arguments.as_slice(), of) {
            return true;
        }
        aggregates = rest;
    }
    false
}

fn groups_read(groups: &Option<RGroups>, of: &Asked<'_>) -> bool
    ensures { result ≡ spec.groups_read (asking of.now) groups.now }
{
    match groups {
        None => false,
        Some(groups) => {
            any_reads(groups.keys.as_slice(), of)
                || any_aggregate_reads(groups.aggregates.as_slice(), of)
                || reads_if_any(&groups.having, of)
        }
    }
}

fn reads_within(query: &RQuery, of: &Asked<'_>) -> bool
    ensures { result ≡ spec.reads_within (asking of.now) query.now }
{
    any_join_reads(query.from.as_slice(), of)
        || reads_if_any(&query.condition, of)
        || groups_read(&query.groups, of)
        || any_reads(query.items.as_slice(), of)
        || reads_if_any(&query.limit, of)
        || reads_if_any(&query.offset, of)
}

// The queries from this number on.
fn queries_since(queries: &[RQuery], since: usize) -> &[RQuery]
    ensures { result.now ≡ drop since queries.now }
{
    if since < queries.len() {
        &queries[since..]
    } else {
        &queries[queries.len()..]
    }
}

// Of each query, whether it does. The first one has the number `since`.
fn queries_read(
    alloc: Global,
    keys: &[RExpr],
    queries: &[RQuery],
    since: usize,
    first: usize,
    end: usize,
) -> Result<Vec<bool>, AllocError>
    ensures { IfOk result (λ all. all.items ≡
        spec.queries_read keys.now first end since [] queries.now) }
{
    let mut done = Vec::new(alloc);
    let mut rest = queries;
    while let [query, more @ ..] = rest {
        let does = reads_within(query, &asked_of(keys, first, end, since, done.as_slice()));
        done.push(does)?;
        rest = more;
    }
    Ok(done)
}

fn asked_of<'a>(
    keys: &'a [RExpr],
    first: usize,
    end: usize,
    since: usize,
    queries: &'a [bool],
) -> Asked<'a>
    ensures { asking result ≡ spec.asked_of keys.now first end since queries.now }
{
    Asked {
        keys,
        first,
        end,
        since,
        queries,
    }
}

/// Whether the expression reads a row from `first` on and before `end` outside of each part that
/// equals a key. The queries inside are looked into, too: an expression names one by its place in
/// `queries`, where it stands behind those inside it. What isn't in the list, or stands there
/// before the place `since`, reads nothing.
#[tactic(auto, unfolding(crate::specs::Reading::reads))]
pub fn reads(
    alloc: Global,
    keys: &[RExpr],
    queries: &[RQuery],
    since: usize,
    first: usize,
    end: usize,
    tree: &RExpr,
) -> Result<bool, AllocError>
    ensures { IfOk result (λ does.
        does ≡ reading.reads keys.now queries.now since first end tree.now) }
{
    let queries = queries_since(queries, since);
    let queries = queries_read(alloc, keys, queries, since, first, end)?;
    let asked = asked_of(keys, first, end, since, queries.as_slice());
    Ok(tree_reads(tree, &asked))
}

/// Whether one of the expressions does.
#[tactic(auto, unfolding(crate::specs::Reading::reads_any))]
pub fn reads_any(
    alloc: Global,
    keys: &[RExpr],
    queries: &[RQuery],
    since: usize,
    first: usize,
    end: usize,
    list: &[RExpr],
) -> Result<bool, AllocError>
    ensures { IfOk result (λ does.
        does ≡ reading.reads_any keys.now queries.now since first end list.now) }
{
    let queries = queries_since(queries, since);
    let queries = queries_read(alloc, keys, queries, since, first, end)?;
    let asked = asked_of(keys, first, end, since, queries.as_slice());
    Ok(any_reads(list, &asked))
}

//! Queries, clause by clause.

ghost use Rattle.std.specs.Prelude.{◌≡◌, ◌+◌, [], length, map, Ok};
ghost use Rattle.std.specs.Option.{option_map};
ghost use Rattle.pl_names.specs.Names.{around};
ghost use Rattle.pl_names.specs.Sources as sources;
ghost use Rattle.pl_names.specs.Sources.{no_items};
ghost use Rattle.pl_scope.specs.Answers.{Meets};
ghost use Rattle.pl_scope.specs.Expressions as spec;
ghost use Rattle.pl_scope.specs.Following.{Follows};
ghost use Rattle.pl_scope.specs.Queries as queries;
ghost use Rattle.pl_scope.specs.Resolution as tree;
ghost use Rattle.pl_scope.specs.Steps as steps;
ghost use Rattle.pl_typing.specs.Resolved.{Gives};
ghost use Rattle.pl_typing.specs.Typing as typing;

use crate::closing::{Arranged, Clauses, Selected, close};
use crate::entering::{behind, beside, both_of, entered, inside, joined_on, without_aggregates};
use crate::expressions::{call, expr, maybe, maybe_condition};
use crate::operands::limit_if;
use crate::ordering::{Ordered, by_item, by_value, item_key, output_of};
use crate::written::{as_written, group_written};
use crate::{Inner, Made};
use pl_base::{Boxed, List, Name};
use pl_names::{
    Items, Names, Source, Sourced, columns_of, derived, every_column, table, together, valued,
};
use pl_resolved::{Head, RExpr};
use pl_tree::{Expr, From, Item, Join, Key, Query};
use pl_typing::{ScopeFail, Typed, head_of};
use std::alloc::Global;

/// A query, which is made behind those inside it.
#[cycle(resolving)]
#[tactic(auto, using(crate::proofs::Equations::query_out))]
pub fn query(
    alloc: Global,
    q: &Query,
    names: &Names<'_>,
    made: &mut Made,
) -> Result<Inner, ScopeFail>
    ensures { Meets (tree.query_part q.now (around names.now) made.old) result made.new }
{
    let outer = made.begin(alloc);
    let first = behind(names.next_row, 1)?;
    let plain = without_aggregates(names);
    let Sourced { joins, sources } = froms_on(alloc, q.from.as_slice(), first, &plain, made)?;
    let end = behind(first, sources.len())?;
    let Selected {
        items: Items { values, heads },
        condition,
        keys,
        having,
    } = select(alloc, q, &sources, end, names, made)?;
    let Arranged {
        ordered,
        limit,
        offset,
    } = arrange(
        alloc,
        q,
        &sources,
        end,
        heads.as_slice(),
        values,
        names,
        made,
    )?;
    let clauses = Clauses {
        from: joins,
        condition,
        keys,
        having,
        heads,
        is_distinct: q.is_distinct,
        values: ordered.values,
        order: ordered.keys,
        limit,
        offset,
    };
    close(alloc, clauses, outer, first, end, made)
}

#[cycle(resolving)]
fn select(
    alloc: Global,
    q: &Query,
    sources: &List<Source>,
    end: usize,
    names: &Names<'_>,
    made: &mut Made,
) -> Result<Selected, ScopeFail>
    requires { end ≡ steps.first_row (around names.now) + length sources.now }
    ensures { Meets (queries.selected (tree.query_view q.now) sources.now (around names.now)
        made.old) result made.new }
{
    let levels = entered(alloc, names.levels, &*sources, false)?;
    let grouped = inside(
        names.catalog,
        names.scope,
        levels.as_slice(),
        end,
        names.next_row,
        true,
    );
    let plain = without_aggregates(&grouped);
    let sources = sources.as_slice();
    let items = items_on(alloc, q.items.as_slice(), sources, &grouped, made)?;
    let condition = maybe_condition(alloc, &q.condition, &plain, made)?;
    let keys = groups_on(alloc, q.groups.as_slice(), sources, &items, &plain, made)?;
    let having = maybe_condition(alloc, &q.having, &grouped, made)?;
    Ok(Selected {
        items,
        condition,
        keys,
        having,
    })
}

// The order of the rows and how many of them; most queries say neither.
#[cycle(resolving)]
fn arrange(
    alloc: Global,
    q: &Query,
    sources: &List<Source>,
    end: usize,
    heads: &[Head],
    values: List<RExpr>,
    names: &Names<'_>,
    made: &mut Made,
) -> Result<Arranged, ScopeFail>
    requires { end ≡ steps.first_row (around names.now) + length sources.now }
    ensures { Meets (queries.arranged (tree.query_view q.now) sources.now heads.now values (around
        names.now) made.old) result made.new }
{
    let ordered = Ordered::new(alloc, values);
    let keys = q.order.as_slice();
    if keys.is_empty() && q.limit.is_none() && q.offset.is_none() {
        return Ok(Arranged {
            ordered,
            limit: None,
            offset: None,
        });
    }
    let levels = entered(alloc, names.levels, &*sources, false)?;
    let grouped = inside(
        names.catalog,
        names.scope,
        levels.as_slice(),
        end,
        names.next_row,
        true,
    );
    let ordered = keys_on(alloc, keys, q.is_distinct, heads, ordered, &grouped, made)?;
    let levels = entered(alloc, names.levels, &*sources, true)?;
    let outside = inside(
        names.catalog,
        names.scope,
        levels.as_slice(),
        names.next_row,
        names.next_row,
        false,
    );
    let limit = maybe_limit(alloc, &q.limit, &outside, made)?;
    let offset = maybe_limit(alloc, &q.offset, &outside, made)?;
    Ok(Arranged {
        ordered,
        limit,
        offset,
    })
}

// ---- FROM

#[cycle(resolving)]
fn froms_on(
    alloc: Global,
    list: &[From],
    row: usize,
    names: &Names<'_>,
    made: &mut Made,
) -> Result<Sourced, ScopeFail>
    ensures { Meets (queries.froms_on (map tree.from_part list.now) row steps.no_froms (around
        names.now) made.old) result made.new }
{
    let mut done = Sourced {
        joins: List::new(alloc),
        sources: List::new(alloc),
    };
    for part in list {
        let at = behind(row, done.sources.len())?;
        let more = from(alloc, part, at, names, made);
        done = put_beside(done, more)?;
    }
    Ok(done)
}

fn put_beside(done: Sourced, more: Result<Sourced, ScopeFail>) -> Result<Sourced, ScopeFail>
    ensures { Follows more (steps.put_beside done) result }
{
    match more {
        Ok(more) => put_both(done, more),
        Err(fail) => {
            drop(done);
            Err(fail)
        }
    }
}

fn put_both(done: Sourced, more: Sourced) -> Result<Sourced, ScopeFail>
    ensures { Gives result (steps.put_beside done more) }
{
    let Sourced { joins, sources } = done;
    let Sourced {
        joins: more_joins,
        sources: more_sources,
    } = more;
    match together(sources, more_sources) {
        Ok(sources) => Ok(beside(joins, more_joins, sources)?),
        Err(fail) => Err(fail),
    }
}

fn valued_at(
    alloc: Global,
    value: Typed,
    name: Name,
    alias: Option<Name>,
    row: usize,
) -> Result<Sourced, ScopeFail>
    ensures { Gives result (Ok (sources.valued value name alias row)) }
{
    Ok(valued(alloc, value, name, alias, row)?)
}

// A call as an item, where it could be read.
fn valued_of(
    alloc: Global,
    value: Result<Typed, ScopeFail>,
    name: Name,
    alias: Option<Name>,
    row: usize,
) -> Result<Sourced, ScopeFail>
    ensures { Follows value (λ x. Ok (sources.valued x name alias row)) result }
{
    match value {
        Ok(value) => valued_at(alloc, value, name, alias, row),
        Err(fail) => Err(fail),
    }
}

fn derived_at(
    alloc: Global,
    inner: Inner,
    alias: Option<Name>,
    row: usize,
) -> Result<Sourced, ScopeFail>
    ensures { Gives result (Ok (sources.derived inner.number inner.heads alias row)) }
{
    Ok(derived(alloc, inner.number, inner.heads, alias, row)?)
}

// A query as an item, where it could be read.
fn derived_of(
    alloc: Global,
    inner: Result<Inner, ScopeFail>,
    alias: Option<Name>,
    row: usize,
) -> Result<Sourced, ScopeFail>
    ensures { Follows inner (λ q. Ok (sources.derived q.number q.heads alias row)) result }
{
    match inner {
        Ok(inner) => derived_at(alloc, inner, alias, row),
        Err(fail) => Err(fail),
    }
}

#[cycle(resolving)]
fn from(
    alloc: Global,
    f: &From,
    row: usize,
    names: &Names<'_>,
    made: &mut Made,
) -> Result<Sourced, ScopeFail>
    ensures { Meets (tree.from_part f.now row (around names.now) made.old) result made.new }
{
    match f {
        From::Table { name, alias } => table(alloc, *name, *alias, row, names),
        From::Function {
            name,
            arguments,
            alias,
        } => {
            let value = call(alloc, arguments.as_slice(), *name, names, made);
            valued_of(alloc, value, *name, *alias, row)
        }
        From::Subquery {
            query: inner,
            alias,
        } => {
            let inner = query(alloc, inner.get(), names, made);
            derived_of(alloc, inner, *alias, row)
        }
        From::Joined { first, joins } => {
            let done = from(alloc, first.get(), row, names, made)?;
            joins_on(alloc, joins.as_slice(), row, done, names, made)
        }
    }
}

#[cycle(resolving)]
fn joins_on(
    alloc: Global,
    joins: &[Join],
    row: usize,
    first: Sourced,
    names: &Names<'_>,
    made: &mut Made,
) -> Result<Sourced, ScopeFail>
    ensures { Meets (queries.joins_on (map tree.join_view joins.now) row first (around names.now)
        made.old) result made.new }
{
    let mut done = first;
    for join in joins {
        done = join_on(alloc, join, row, done, names, made)?;
    }
    Ok(done)
}

#[cycle(resolving)]
fn join_on(
    alloc: Global,
    join: &Join,
    row: usize,
    done: Sourced,
    names: &Names<'_>,
    made: &mut Made,
) -> Result<Sourced, ScopeFail>
    ensures { Meets (queries.join_on (tree.join_view join.now) row done (around names.now)
        made.old) result made.new }
{
    let at = behind(row, done.sources.len())?;
    let with = from(alloc, &join.with, at, names, made);
    let both = both_of(done, with, row)?;
    let on = join_condition(alloc, &join.condition, &both.sources, both.end, names, made);
    joined_on(both, join.kind, on)
}

// ON, which sees what is joined there.
#[cycle(resolving)]
fn join_condition(
    alloc: Global,
    e: &Option<Boxed<Expr>>,
    sources: &List<Source>,
    end: usize,
    names: &Names<'_>,
    made: &mut Made,
) -> Result<Option<Boxed<RExpr>>, ScopeFail>
    ensures { Meets (spec.maybe_condition (option_map tree.part e.now) (steps.joined_in sources.now
        end (around names.now)) made.old) result made.new }
{
    let levels = entered(alloc, names.levels, &*sources, false)?;
    let inner = inside(
        names.catalog,
        names.scope,
        levels.as_slice(),
        end,
        names.next_row,
        false,
    );
    maybe_condition(alloc, e, &inner, made)
}

// ---- clauses

/// A select list over these items of a FROM. 54011 at the 65th column.
#[cycle(resolving)]
pub fn items_on(
    alloc: Global,
    list: &[Item],
    sources: &[Source],
    names: &Names<'_>,
    made: &mut Made,
) -> Result<Items, ScopeFail>
    ensures { Meets (queries.items_on (map tree.item_part list.now) sources.now no_items (around
        names.now) made.old) result made.new }
{
    let mut done = Items::new(alloc);
    for part in list {
        done = item_on(alloc, part, sources, done, names, made)?;
    }
    Ok(done)
}

fn with_column(done: Items, value: Typed, label: &Option<Name>) -> Result<Items, ScopeFail>
    ensures { Gives result (sources.with_item done value.tree (typing.head_of label.now value)) }
{
    let head = head_of(label, &value);
    done.with(value.tree.into_inner(), head)
}

// The select list with one more column, where that could be read.
fn with_value(
    done: Items,
    value: Result<Typed, ScopeFail>,
    label: &Option<Name>,
) -> Result<Items, ScopeFail>
    ensures { Follows value (λ x. sources.with_item done x.tree (typing.head_of label.now x))
        result }
{
    match value {
        Ok(value) => with_column(done, value, label),
        Err(fail) => {
            drop(done);
            Err(fail)
        }
    }
}

#[cycle(resolving)]
fn item_on(
    alloc: Global,
    part: &Item,
    sources: &[Source],
    done: Items,
    names: &Names<'_>,
    made: &mut Made,
) -> Result<Items, ScopeFail>
    ensures { Meets (tree.item_part part.now sources.now done (around names.now) made.old) result
        made.new }
{
    match part {
        Item::All => every_column(done, sources),
        Item::AllOf(name) => columns_of(done, *name, names),
        Item::Value { value, label } => {
            let value = expr(alloc, value, names, made);
            with_value(done, value, label)
        }
    }
}

#[cycle(resolving)]
fn groups_on(
    alloc: Global,
    list: &[Expr],
    sources: &[Source],
    items: &Items,
    names: &Names<'_>,
    made: &mut Made,
) -> Result<List<RExpr>, ScopeFail>
    ensures { Meets (queries.groups_on (map tree.part list.now) sources.now items.now [] (around
        names.now) made.old) result made.new }
{
    let mut done = List::new(alloc);
    for part in list {
        let key = group_on(alloc, part, sources, items, names, made)?;
        done.push(key.into_inner())?;
    }
    Ok(done)
}

fn tree_alone(value: Result<Typed, ScopeFail>) -> Result<Boxed<RExpr>, ScopeFail>
    ensures { Follows value (λ x. Ok x.tree) result }
{
    match value {
        Ok(value) => Ok(value.tree),
        Err(fail) => Err(fail),
    }
}

#[cycle(resolving)]
fn group_on(
    alloc: Global,
    part: &Expr,
    sources: &[Source],
    items: &Items,
    names: &Names<'_>,
    made: &mut Made,
) -> Result<Boxed<RExpr>, ScopeFail>
    ensures { Meets (queries.group_on (tree.part part.now) sources.now items.now (around
        names.now) made.old) result made.new }
{
    let written = group_written(as_written(part), sources);
    match output_of(written, items.heads.as_slice(), items.values.as_slice())? {
        Some(at) => {
            let item = items.values.get(at);
            let queries = made.queries.as_slice();
            item_key(
                alloc,
                item,
                queries,
                made.current.since,
                names.aggregates_row,
            )
        }
        None => {
            let key = expr(alloc, part, names, made);
            tree_alone(key)
        }
    }
}

#[cycle(resolving)]
fn keys_on(
    alloc: Global,
    list: &[Key],
    is_distinct: bool,
    heads: &[Head],
    first: Ordered,
    names: &Names<'_>,
    made: &mut Made,
) -> Result<Ordered, ScopeFail>
    ensures { Meets (queries.keys_on (map tree.key_view list.now) is_distinct heads.now first
        (around names.now) made.old) result made.new }
{
    let mut done = first;
    for part in list {
        done = key_on(alloc, part, is_distinct, heads, done, names, made)?;
    }
    Ok(done)
}

#[cycle(resolving)]
fn key_on(
    alloc: Global,
    key: &Key,
    is_distinct: bool,
    heads: &[Head],
    done: Ordered,
    names: &Names<'_>,
    made: &mut Made,
) -> Result<Ordered, ScopeFail>
    ensures { Meets (queries.key_on (tree.key_view key.now) is_distinct heads.now done (around
        names.now) made.old) result made.new }
{
    match output_of(as_written(&key.value), heads, done.values.as_slice())? {
        Some(at) => by_item(done, at, key.is_descending, key.nulls),
        None => {
            let value = expr(alloc, &key.value, names, made);
            by_value(done, value, key.is_descending, key.nulls, is_distinct)
        }
    }
}

// LIMIT or OFFSET.
#[cycle(resolving)]
fn maybe_limit(
    alloc: Global,
    e: &Option<Boxed<Expr>>,
    names: &Names<'_>,
    made: &mut Made,
) -> Result<Option<Boxed<RExpr>>, ScopeFail>
    ensures { Meets (queries.maybe_limit (option_map tree.part e.now) (around names.now)
        made.old) result made.new }
{
    let count = maybe(alloc, e, names, made);
    limit_if(alloc, count)
}

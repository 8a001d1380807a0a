//! Groups and the select list: PostgreSQL manual, "The GROUP BY and HAVING Clauses", "Select Lists".

ghost use Rattle.std.specs.Prelude.{◌≡◌, ◌++◌, ◌∷◌, [], ℕ, Some, List, map, replicate, slice_get};
ghost use Rattle.std.specs.Prelude.{unwrap_or, IfOk};
ghost use Rattle.pl_groups.specs.Tallies.{answer_at, shown};
ghost use Rattle.pl_product.specs.Product as product;
ghost use Rattle.pl_query.specs.Query as query;
ghost use Rattle.pl_query.specs.Rows as spec;
ghost use Rattle.pl_query.specs.Rows.{Member};
ghost use Rattle.pl_query.specs.Running as running;
ghost use Rattle.pl_value.specs.Answers.{Reads};
ghost use Rattle.pl_value.specs.Frames.{rows_of};
ghost use Rattle.pl_value.specs.Meaning as meaning;

use crate::Rows;
use crate::running::{Running, add_rows};
use crate::sources::expression_of;
use pl_base::{Cells, List, Value};
use pl_calc::CalcFail;
use pl_groups::Column;
use pl_product::{Frames, passes_if, with_empty, with_room};
use pl_resolved::{RExpr, RGroups};
use pl_value::{Caller, Lent, Subqueries, Unsettled, values};
use std::alloc::{AllocError, Global};

/// The values of the select list for each row of the product.
pub fn select_each<'a, C: Caller, S: Subqueries<C>>(
    alloc: Global,
    items: &'a [RExpr],
    sub: &S,
    frames: &Frames<'a>,
    caller: &mut C,
) -> Result<Rows, Unsettled>
    requires { S.can sub.now }
    ensures { Reads (spec.in_turn (spec.with_row (map (meaning.value C.calls (S.sub sub.now))
        items.now)) frames.now [] caller.old)
        result caller.new }
{
    let mut rows = Rows::with_room(alloc, frames.len())?;
    for at in 0..frames.len() {
        match add_row(alloc, items, sub, frames.get(at), rows, caller) {
            Ok(more) => rows = more,
            Err(unsettled) => return Err(unsettled),
        }
    }
    Ok(rows)
}

/// One row more: the values of the select list.
pub fn add_row<'a, C: Caller, S: Subqueries<C>>(
    alloc: Global,
    items: &'a [RExpr],
    sub: &S,
    frame: &[Lent<'a>],
    rows: Rows,
    caller: &mut C,
) -> Result<Rows, Unsettled>
    requires { S.can sub.now }
    ensures { Reads (spec.with_row (map (meaning.value C.calls (S.sub sub.now)) items.now)
        (rows_of frame.now) rows caller.old)
        result caller.new }
{
    let mut rows = rows;
    let row = values(alloc, items, sub, frame, caller)?;
    rows.push(row)?;
    Ok(rows)
}

// What an aggregate gives for the group at the place, behind the values of those before.
fn add_value<C>(
    alloc: Global,
    column: &Column,
    place: usize,
    values: Cells,
) -> Result<Cells, Unsettled>
    ensures { (left : C) → Reads (spec.with_value (answer_at place (shown column.now)) values left)
        result left }
{
    match column.finish(alloc, place) {
        Ok(value) => {
            let mut values = values;
            values.push(value)?;
            Ok(values)
        }
        Err(CalcFail::State(state)) => Err(Unsettled::Fails(state)),
        Err(CalcFail::Memory) => Err(Unsettled::Memory),
    }
}

// What the aggregates give for the group at the place.
fn aggregated<C>(alloc: Global, columns: &[Column], place: usize) -> Result<Cells, Unsettled>
    ensures { (left : C) → Reads (spec.in_turn spec.with_value
        (map (λ c. answer_at place (shown c)) columns.now) [] left)
        result left }
{
    let mut values = List::new(alloc);
    for column in columns {
        match add_value::<C>(alloc, column, place, values) {
            Ok(more) => values = more,
            Err(unsettled) => return Err(unsettled),
        }
    }
    Ok(values)
}

// The rows that stand for a group.
fn stand_for_group<'a>(
    alloc: Global,
    outer: &[Lent<'a>],
    values: &'a [Value],
    rows: &[Lent<'a>],
) -> Result<Vec<Lent<'a>>, AllocError>
    ensures { IfOk result (λ made.
        rows_of made.items ≡ rows_of outer.now ++ values.now ∷ rows_of rows.now) }
{
    let mut made = with_room(alloc, outer, rows.len() + 1)?;
    made.push(Lent { cells: values })?;
    made.extend_from_slice(rows)?;
    Ok(made)
}

// One row more, if HAVING passes.
fn add_row_if<'a, C: Caller, S: Subqueries<C>>(
    alloc: Global,
    having: Option<&'a RExpr>,
    items: &'a [RExpr],
    sub: &S,
    frame: &[Lent<'a>],
    rows: Rows,
    caller: &mut C,
) -> Result<Rows, Unsettled>
    requires { S.can sub.now }
    ensures { Reads (spec.with_row_if (product.condition C.calls (S.sub sub.now) having.entry)
        (map (meaning.value C.calls (S.sub sub.now)) items.now) (rows_of frame.now) rows
        caller.old)
        result caller.new }
{
    if passes_if(alloc, having, sub, frame, caller)? {
        add_row(alloc, items, sub, frame, rows, caller)
    } else {
        Ok(rows)
    }
}

/// A group: the rows around the query, the rows of FROM of its first member, and its aggregates.
#[derive(Clone, Copy)]
struct Group<'g> {
    outer: &'g [Lent<'g>],
    first: &'g [Lent<'g>],
    columns: &'g [Column],
    place: usize,
}

// The row of a group, behind those of the groups before, if HAVING passes.
fn add_group<'a, C: Caller, S: Subqueries<C>>(
    alloc: Global,
    groups: &'a RGroups,
    items: &'a [RExpr],
    sub: &S,
    group: &Group<'a>,
    rows: Rows,
    caller: &mut C,
) -> Result<Rows, Unsettled>
    requires { S.can sub.now }
    ensures { Reads (running.group_read
        (query.grouping C.calls (S.sub sub.now) groups.now).having
        (map (meaning.value C.calls (S.sub sub.now)) items.now) (rows_of group.now.outer.now)
        (rows_of group.now.first.now)
        (map (λ c. answer_at group.now.place (shown c)) group.now.columns.now) rows caller.old)
        result caller.new }
{
    match aggregated::<C>(alloc, group.columns, group.place) {
        Ok(values) => {
            let frame = stand_for_group(alloc, &*group.outer, values.as_slice(), &*group.first)?;
            add_row_if(
                alloc,
                expression_of(&groups.having),
                items,
                sub,
                frame.as_slice(),
                rows,
                caller,
            )
        }
        Err(unsettled) => Err(unsettled),
    }
}

// The rows of FROM of the first member of the group at the place.
fn rows_at<'f, 'a>(firsts: &'f Frames<'a>, place: usize, empty: &'f [Lent<'a>]) -> &'f [Lent<'a>]
    ensures { rows_of result.now ≡ unwrap_or (slice_get firsts.now place) (rows_of empty.now) }
{
    if place < firsts.len() {
        firsts.get(place)
    } else {
        empty
    }
}

// How many groups there are: without a key one.
fn count_of(groups: &RGroups, firsts: &Frames<'_>) -> usize
    ensures { result ≡ running.count_of groups.now.keys firsts.now }
{
    match groups.keys.as_slice().split_first() {
        None => 1,
        Some(_) => firsts.len(),
    }
}

/// The rows of the groups.
pub fn select_groups<'a, C: Caller, S: Subqueries<C>>(
    alloc: Global,
    groups: &'a RGroups,
    items: &'a [RExpr],
    sub: &S,
    outer: &[Lent<'a>],
    empty: &[Lent<'a>],
    made: &Running<'a>,
    caller: &mut C,
) -> Result<Rows, Unsettled>
    requires { S.can sub.now }
    ensures { (leaves : ℕ) (ms : List Member) → rows_of empty.now ≡ replicate leaves []
        → running.kept made.now ≡ running.kept_of (query.grouping C.calls (S.sub sub.now)
        groups.now) (rows_of outer.now) leaves ms
        → Reads (spec.in_turn (spec.with_group (query.grouping C.calls (S.sub sub.now) groups.now)
        (map (meaning.value C.calls (S.sub sub.now)) items.now) (rows_of outer.now) leaves)
        (spec.grouped (query.grouping C.calls (S.sub sub.now) groups.now).keys ms) [] caller.old)
        result caller.new }
{
    let mut rows = Rows::new(alloc);
    for place in 0..count_of(groups, &made.firsts) {
        let group = Group {
            outer: &*outer,
            first: rows_at(&made.firsts, place, &*empty),
            columns: made.columns.as_slice(),
            place,
        };
        match add_group(alloc, groups, items, sub, &group, rows, caller) {
            Ok(more) => rows = more,
            Err(unsettled) => return Err(unsettled),
        }
    }
    Ok(rows)
}

/// The values of the select list for each group. For so many rows of FROM empty ones stand in a
/// group without rows.
pub fn select_by_groups<'a, C: Caller, S: Subqueries<C>>(
    alloc: Global,
    groups: &'a RGroups,
    items: &'a [RExpr],
    sub: &S,
    outer: &[Lent<'a>],
    leaves: usize,
    frames: &Frames<'a>,
    caller: &mut C,
) -> Result<Rows, Unsettled>
    requires { S.can sub.now }
    ensures { Reads (spec.selected (Some (query.grouping C.calls (S.sub sub.now) groups.now))
        (map (meaning.value C.calls (S.sub sub.now)) items.now) (rows_of outer.now)
        (leaves, frames.now) caller.old)
        result caller.new }
{
    let empty = with_empty(alloc, &[], leaves)?;
    let mut made = Running::new(alloc, groups.aggregates.as_slice())?;
    match add_rows(
        alloc,
        groups,
        sub,
        frames,
        outer.len() + 1,
        &mut made,
        caller,
    ) {
        Ok(()) => select_groups(
            alloc,
            groups,
            items,
            sub,
            outer,
            empty.as_slice(),
            &made,
            caller,
        ),
        Err(unsettled) => Err(unsettled),
    }
}

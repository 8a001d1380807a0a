//! The values that columns are given: PostgreSQL manual, "INSERT", "UPDATE".

ghost use Rattle.std.specs.Option.{option_copied};
ghost use Rattle.std.specs.Prelude.{◌≡◌, ◌+◌, ◌<◌, ◌^◌, [], length, slice_get, IfOk};
ghost use Rattle.pl_names.specs.Names.{around};
ghost use Rattle.pl_scope.specs.Answers.{Meets};
ghost use Rattle.pl_scope.specs.Resolution.{query_part};
ghost use Rattle.pl_scope.specs.Steps.{first_row};
ghost use Rattle.pl_targets.specs.Columns.{defaults};
ghost use Rattle.pl_targets.specs.Placing.{items_of, placed_on};
ghost use Rattle.pl_targets.specs.Values as spec;
ghost use Rattle.pl_assigning.specs.pl_typing.Resolved.{Gives};

use crate::columns::{column_named, defaults, given, with_named, with_value};
use crate::placing::{assigned_to, default_for, placed_row};
use crate::{RRow, RRows};
use pl_assigning::pl_typing::ScopeFail;
use pl_base::{Boxed, List, Memory, Name, State};
use pl_catalog::Column;
use pl_names::{Names, Source};
use pl_resolved::RExpr;
use pl_scope::{Inner, Made, behind, entered, expr, inside, query};
use pl_tree::{Assignment, NewRow, NewRows, NewValue, Query};
use std::alloc::Global;

/// The row behind those of these items, the first of which stands behind the row of the aggregates.
pub fn end_of(names: &Names<'_>, sources: &[Source]) -> Result<usize, Memory>
    ensures { IfOk result (λ end. (end ≡ first_row (around names.now) + length sources.now)
        × (end < 2 ^ 64)) }
{
    let first = behind(names.next_row, 1)?;
    behind(first, sources.len())
}

#[tactic(auto, using(crate::proofs::Lifted::lifted))]
fn value_for(
    alloc: Global,
    value: &NewValue,
    column: Option<&Column>,
    names: &Names<'_>,
    made: &mut Made,
) -> Result<Boxed<RExpr>, ScopeFail>
    ensures { Meets (spec.value_for (option_copied column.entry) value.now (around names.now)
        made.old) result made.new }
{
    match value {
        NewValue::Value(e) => {
            let value = expr(alloc, e, names, made)?;
            assigned_to(alloc, column, value)
        }
        NewValue::Default => default_for(alloc, column),
    }
}

// ---- SET

/// The columns that are set, and the value of each.
#[derive(Drop)]
pub struct Settings {
    /// Their places in the table, from 0.
    pub columns: List<usize>,
    pub values: List<RExpr>,
}

// One more column, and then its value.
fn with_setting(
    alloc: Global,
    assignment: &Assignment,
    columns: &[Column],
    done: Settings,
    names: &Names<'_>,
    made: &mut Made,
) -> Result<Settings, ScopeFail>
    ensures { Meets (spec.with_setting assignment.now columns.now done (around names.now) made.old)
        result made.new }
{
    let Settings {
        columns: places,
        values,
    } = done;
    let places = with_named(State::SYNTAX_ERROR, assignment.column, columns, places)?;
    let column = column_named(assignment.column, columns);
    let value = value_for(alloc, &assignment.value, column, names, made)?;
    let mut values = values;
    values.push(value.into_inner())?;
    Ok(Settings {
        columns: places,
        values,
    })
}

/// What SET says, from left to right. 42703 where there is no such column, 42601 where one is set
/// twice; both come before the failures of its value.
pub fn settings_of(
    alloc: Global,
    assignments: &[Assignment],
    columns: &[Column],
    names: &Names<'_>,
    made: &mut Made,
) -> Result<Settings, ScopeFail>
    ensures { Meets (spec.settings_on assignments.now columns.now spec.nothing_set
        (around names.now) made.old) result made.new }
{
    let mut done = Settings {
        columns: List::new(alloc),
        values: List::new(alloc),
    };
    for assignment in assignments {
        done = with_setting(alloc, assignment, columns, done, names, made)?;
    }
    Ok(done)
}

// ---- VALUES

fn row_with(
    alloc: Global,
    value: &NewValue,
    place: usize,
    columns: &[Column],
    row: List<RExpr>,
    names: &Names<'_>,
    made: &mut Made,
) -> Result<List<RExpr>, ScopeFail>
    ensures { Meets (spec.with_value value.now place columns.now row (around names.now) made.old)
        result made.new }
{
    let value = value_for(alloc, value, columns.get(place), names, made)?;
    Ok(with_value(row, place, value))
}

fn row_of(
    alloc: Global,
    values: &[NewValue],
    places: &[usize],
    columns: &[Column],
    names: &Names<'_>,
    made: &mut Made,
) -> Result<List<RExpr>, ScopeFail>
    ensures { Meets (spec.row_of values.now places.now columns.now (around names.now) made.old)
        result made.new }
{
    let mut row = defaults(alloc, columns)?;
    let mut values = values;
    let mut places = places;
    while let [value, more @ ..] = values {
        let Some((place, rest)) = places.split_first() else {
            value_for(alloc, value, None, names, made)?;
            return Err(ScopeFail::State(State::SYNTAX_ERROR));
        };
        row = row_with(alloc, value, *place, columns, row, names, made)?;
        values = more;
        places = rest;
    }
    if !places.is_empty() {
        return Err(ScopeFail::State(State::SYNTAX_ERROR));
    }
    Ok(row)
}

fn rows_on(
    alloc: Global,
    rows: &[NewRow],
    places: &[usize],
    columns: &[Column],
    names: &Names<'_>,
    made: &mut Made,
) -> Result<List<RRow>, ScopeFail>
    ensures { Meets (spec.rows_on rows.now places.now columns.now [] (around names.now) made.old)
        result made.new }
{
    let mut done = List::new(alloc);
    for row in rows {
        let values = row_of(alloc, row.values.as_slice(), places, columns, names, made)?;
        done.push(RRow { values })?;
    }
    Ok(done)
}

fn first_length(rows: &[NewRow]) -> usize
    ensures { result ≡ spec.first_length rows.now }
{
    match rows {
        [] => 0,
        [row, ..] => row.values.len(),
    }
}

fn rows_of_values(
    alloc: Global,
    rows: &[NewRow],
    places: &[usize],
    columns: &[Column],
    names: &Names<'_>,
    made: &mut Made,
) -> Result<RRows, ScopeFail>
    ensures { Meets (spec.rows_of_values rows.now places.now columns.now (around names.now)
        made.old) result made.new }
{
    let none: List<Source> = List::new(alloc);
    let end = end_of(names, none.as_slice())?;
    let levels = entered(alloc, names.levels, &none, false)?;
    let inner = inside(
        names.catalog,
        names.scope,
        levels.as_slice(),
        end,
        names.next_row,
        false,
    );
    let rows = rows_on(alloc, rows, places, columns, &inner, made)?;
    Ok(RRows::Values(rows))
}

// ---- a query

fn placed(
    alloc: Global,
    q: &Inner,
    places: &[usize],
    columns: &[Column],
    names: &Names<'_>,
    made: &Made,
) -> Result<List<RExpr>, ScopeFail>
    ensures { Gives result (placed_on q.now.heads (items_of (slice_get made.now.queries
        q.now.number)) 0 (first_row (around names.now)) places.now columns.now
        (defaults columns.now)) }
{
    let none: [RExpr; 0] = [];
    let row = behind(names.next_row, 1)?;
    let heads = q.heads.as_slice();
    match made.queries.get(q.number) {
        None => placed_row(alloc, heads, &none, row, places, columns),
        Some(query) => { placed_row(alloc, heads, query.items.as_slice(), row, places, columns) }
    }
}

fn rows_of_query(
    alloc: Global,
    q: &Query,
    list: &[Name],
    listed: List<usize>,
    columns: &[Column],
    names: &Names<'_>,
    made: &mut Made,
) -> Result<RRows, ScopeFail>
    ensures { Meets (spec.rows_of_query (query_part q.now) list.now listed columns.now (around
        names.now) made.old) result made.new }
{
    let q = query(alloc, q, names, made)?;
    let places = given(alloc, list, listed, q.heads.len(), columns)?;
    let values = placed(alloc, &q, places.as_slice(), columns, names, &*made)?;
    Ok(RRows::Query {
        query: q.number,
        values,
    })
}

// ---- DEFAULT VALUES

fn row_of_defaults(
    alloc: Global,
    places: &[usize],
    columns: &[Column],
    names: &Names<'_>,
    made: &mut Made,
) -> Result<RRows, ScopeFail>
    ensures { Meets (spec.row_of_defaults places.now columns.now (around names.now) made.old)
        result made.new }
{
    let none: [NewValue; 0] = [];
    let values = row_of(alloc, &none, places, columns, names, made)?;
    let mut rows = List::new(alloc);
    rows.push(RRow { values })?;
    Ok(RRows::Values(rows))
}

// ---- all rows

/// The rows of an INSERT into the columns of this list, which have these places.
pub fn rows_of(
    alloc: Global,
    rows: &NewRows,
    list: &[Name],
    listed: List<usize>,
    columns: &[Column],
    names: &Names<'_>,
    made: &mut Made,
) -> Result<RRows, ScopeFail>
    ensures { Meets (spec.rows_of rows.now list.now listed columns.now (around names.now) made.old)
        result made.new }
{
    match rows {
        NewRows::Values(rows) => {
            let rows = rows.as_slice();
            let places = given(alloc, list, listed, first_length(rows), columns)?;
            rows_of_values(alloc, rows, places.as_slice(), columns, names, made)
        }
        NewRows::Query(q) => rows_of_query(alloc, q, list, listed, columns, names, made),
        NewRows::Defaults => {
            let places = given(alloc, list, listed, 0, columns)?;
            row_of_defaults(alloc, places.as_slice(), columns, names, made)
        }
    }
}

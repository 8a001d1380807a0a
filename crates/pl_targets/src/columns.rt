//! The columns of a table that is changed: PostgreSQL manual, "INSERT", "UPDATE".

ghost use Rattle.std.specs.List.{list_any, range_with_len};
ghost use Rattle.std.specs.Option.{option_copied};
ghost use Rattle.std.specs.Prelude.{◌≡◌, [], nat_eq, slice_set, IfOk};
ghost use Rattle.pl_targets.specs.Columns as spec;
ghost use Rattle.pl_assigning.specs.pl_typing.Resolved.{Gives};

use pl_assigning::pl_typing::ScopeFail;
use pl_base::{Boxed, List, Name, State, Value};
use pl_catalog::Column;
use pl_resolved::RExpr;
use std::alloc::{AllocError, Global};

// ---- columns that are named

fn place_of(name: Name, columns: &[Column]) -> Option<usize>
    ensures { result ≡ spec.place_of name 0 columns.now }
{
    let mut at = 0;
    let mut rest = columns;
    while let [column, more @ ..] = rest {
        if column.name == name {
            return Some(at);
        }
        at += 1;
        rest = more;
    }
    None
}

/// The column of this name, if there is one.
pub fn column_named(name: Name, mut columns: &[Column]) -> Option<&Column>
    ensures { option_copied result ≡ spec.column_named name columns.entry.now }
{
    while let [column, rest @ ..] = columns {
        if column.name == name {
            return Some(column);
        }
        columns = rest;
    }
    None
}

fn is_among(at: usize, places: &[usize]) -> bool
    ensures { result ≡ list_any (nat_eq at) places.now }
{
    places.iter().any(|place| at == *place)
}

fn with_place(twice: State, at: Option<usize>, done: List<usize>) -> Result<List<usize>, ScopeFail>
    ensures { Gives result (spec.with_place twice at done) }
{
    let Some(at) = at else {
        return Err(ScopeFail::State(State::UNDEFINED_COLUMN));
    };
    if is_among(at, done.as_slice()) {
        return Err(ScopeFail::State(twice));
    }
    let mut places = done;
    places.push(at)?;
    Ok(places)
}

/// The places of the columns there are, and of the column of one more name. 42703 where there is no
/// such column, and `twice` where it is among them already.
pub fn with_named(
    twice: State,
    name: Name,
    columns: &[Column],
    done: List<usize>,
) -> Result<List<usize>, ScopeFail>
    ensures { Gives result (spec.with_place twice (spec.place_of name 0 columns.now) done) }
{
    with_place(twice, place_of(name, columns), done)
}

/// The places of the columns of these names. 42703 where there is no such column, and `twice` where
/// a name comes again.
pub fn places_of(
    alloc: Global,
    twice: State,
    mut names: &[Name],
    columns: &[Column],
) -> Result<List<usize>, ScopeFail>
    ensures { Gives result (spec.places_on twice names.entry.now columns.now []) }
{
    let mut places = List::new(alloc);
    while let [name, rest @ ..] = names {
        places = with_named(twice, *name, columns, places)?;
        names = rest;
    }
    Ok(places)
}

#[tactic(auto, using(crate::proofs::Places::one_more))]
fn first_places(alloc: Global, count: usize) -> Result<List<usize>, AllocError>
    ensures { IfOk result (λ places. places ≡ range_with_len 0 count) }
{
    let mut places = List::new(alloc);
    for at in 0..count {
        places.push(at)?;
    }
    Ok(places)
}

/// The columns that are given: those of the list, or without a list the first ones, as many as
/// there are values.
pub fn given(
    alloc: Global,
    names: &[Name],
    listed: List<usize>,
    count: usize,
    columns: &[Column],
) -> Result<List<usize>, AllocError>
    ensures { IfOk result (λ places. places ≡ spec.given names.now listed count columns.now) }
{
    match names {
        [] => first_places(alloc, count.min(columns.len())),
        [_, ..] => Ok(listed),
    }
}

// ---- columns that aren't

/// The value of a column that isn't given: its DEFAULT, or else null.
pub fn default_of(alloc: Global, column: &Column) -> Result<RExpr, AllocError>
    ensures { IfOk result (λ made. made ≡ spec.default_of column.now) }
{
    match &column.default {
        None => Ok(RExpr::Constant(Value::Null)),
        Some(default) => default.get().copy(alloc),
    }
}

/// A row in which no column is given.
pub fn defaults(alloc: Global, columns: &[Column]) -> Result<List<RExpr>, AllocError>
    ensures { IfOk result (λ row. row ≡ spec.defaults columns.now) }
{
    let mut row = List::new(alloc);
    for column in columns {
        row.push(default_of(alloc, column)?)?;
    }
    Ok(row)
}

/// The row with this value in place of the one that stands there, if there is such a place.
#[tactic(auto, using(crate::proofs::Places::beyond))]
pub fn with_value(row: List<RExpr>, place: usize, value: Boxed<RExpr>) -> List<RExpr>
    ensures { result ≡ slice_set row place value }
{
    let mut row = row;
    if place < row.len() {
        row.set(place, value.into_inner());
    }
    row
}

//! Values that go to columns by their places: PostgreSQL manual, "INSERT", "Value Storage".

ghost use Rattle.std.specs.Option.{option_copied};
ghost use Rattle.std.specs.Prelude.{◌≡◌, IfOk};
ghost use Rattle.pl_resolved.specs.declared.expression.RExpr.{out-RExpr};
ghost use Rattle.pl_targets.specs.Columns.{defaults};
ghost use Rattle.pl_targets.specs.Placing as spec;
ghost use Rattle.pl_assigning.specs.pl_typing.Resolved.{Gives};

use crate::columns::{default_of, defaults, with_value};
use pl_assigning::assigned;
use pl_assigning::pl_typing::{ScopeFail, Typed, with_type};
use pl_base::{Boxed, List, State, Ty, Value};
use pl_catalog::Column;
use pl_resolved::{Head, RExpr};
use std::alloc::{AllocError, Global};

/// The value as one of this column. 42601 where there is no column.
pub fn assigned_to(
    alloc: Global,
    column: Option<&Column>,
    value: Typed,
) -> Result<Boxed<RExpr>, ScopeFail>
    ensures { Gives result (spec.assigned_to (option_copied column.entry) value) }
{
    match column {
        None => Err(ScopeFail::State(State::SYNTAX_ERROR)),
        Some(column) => assigned(alloc, value, column.ty),
    }
}

/// The value of DEFAULT for this column. 42601 where there is no column.
pub fn default_for(alloc: Global, column: Option<&Column>) -> Result<Boxed<RExpr>, ScopeFail>
    ensures { Gives result (spec.default_for (option_copied column.entry)) }
{
    match column {
        None => Err(ScopeFail::State(State::SYNTAX_ERROR)),
        Some(column) => Ok(Boxed::new(alloc, default_of(alloc, column)?)?),
    }
}

fn with_assigned(
    alloc: Global,
    value: Typed,
    place: usize,
    columns: &[Column],
    row: List<RExpr>,
) -> Result<List<RExpr>, ScopeFail>
    ensures { Gives result (spec.with_assigned value place columns.now row) }
{
    let value = assigned_to(alloc, columns.get(place), value)?;
    Ok(with_value(row, place, value))
}

// ---- the row of a query

fn is_untyped_value(value: &Value) -> bool
    ensures { result ≡ spec.is_untyped_value value.now }
{
    match value {
        Value::Null | Value::Text(_) => true,
        _ => false,
    }
}

fn is_untyped(item: &RExpr) -> bool
    ensures { result ≡ spec.is_untyped (out-RExpr item.now) }
{
    match item {
        RExpr::Constant(value) => is_untyped_value(value),
        _ => false,
    }
}

fn column_type(item: Option<&RExpr>, ty: Ty) -> Ty
    ensures { result ≡ spec.column_type (option_copied item.entry) ty }
{
    match item {
        None => ty,
        Some(item) => { if is_untyped(item) { Ty::Unknown } else { ty } }
    }
}

fn column_of(
    alloc: Global,
    row: usize,
    column: usize,
    item: Option<&RExpr>,
    ty: Ty,
) -> Result<Typed, AllocError>
    ensures { IfOk result (λ made. made ≡ spec.column_of row column (option_copied item.entry)
        ty) }
{
    let ty = column_type(item, ty);
    with_type(alloc, RExpr::Place { row, column }, ty)
}

fn with_column(
    alloc: Global,
    head: &Head,
    items: &[RExpr],
    at: usize,
    row: usize,
    place: usize,
    columns: &[Column],
    done: List<RExpr>,
) -> Result<List<RExpr>, ScopeFail>
    ensures { Gives result (spec.with_column head.now items.now at row place columns.now done) }
{
    let value = column_of(alloc, row, at, items.get(at), head.ty)?;
    with_assigned(alloc, value, place, columns, done)
}

/// The columns of a query's row, which stands as the row of this number, as values of the columns
/// of these places in turn. 42601 where there are more or fewer of them, 42804 where one of them
/// can't be assigned.
pub fn placed_row(
    alloc: Global,
    heads: &[Head],
    items: &[RExpr],
    row: usize,
    places: &[usize],
    columns: &[Column],
) -> Result<List<RExpr>, ScopeFail>
    ensures { Gives result (spec.placed_on heads.now items.now 0 row places.now columns.now
        (defaults columns.now)) }
{
    let mut values = defaults(alloc, columns)?;
    let mut at = 0;
    let mut heads = heads;
    let mut places = places;
    while let [head, more @ ..] = heads {
        let Some((place, rest)) = places.split_first() else {
            return Err(ScopeFail::State(State::SYNTAX_ERROR));
        };
        values = with_column(alloc, head, items, at, row, *place, columns, values)?;
        at += 1;
        heads = more;
        places = rest;
    }
    if !places.is_empty() {
        return Err(ScopeFail::State(State::SYNTAX_ERROR));
    }
    Ok(values)
}

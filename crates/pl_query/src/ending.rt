//! DISTINCT, ORDER BY, OFFSET and LIMIT: PostgreSQL manual, "DISTINCT", "Sorting Rows (ORDER BY)",
//! "LIMIT and OFFSET".

ghost use Rattle.std.specs.Prelude.{◌≡◌, length, map, option_map, take, IfOk};
ghost use Rattle.pl_order.specs.Cut.{count_of, cut};
ghost use Rattle.pl_order.specs.Order.{order_by, sorted};
ghost use Rattle.pl_product.specs.Product.{condition};
ghost use Rattle.pl_query.specs.Query as spec;
ghost use Rattle.pl_value.specs.Answers.{Reads};
ghost use Rattle.pl_value.specs.Frames.{rows_of};
ghost use Rattle.pl_value.specs.Meaning.{value};
ghost use Rattle.pl_value.specs.Reading.{settled};

use crate::Rows;
use crate::sources::expression_of;
use pl_base::{Cells, List, State, Value};
use pl_order::{count_of, cut, distinct, sort};
use pl_resolved::{RExpr, RQuery};
use pl_value::{Caller, Lent, Subqueries, Unsettled, value};
use std::alloc::{AllocError, Global};

fn settle_count<C>(v: &Value, negative: State) -> Result<Option<usize>, Unsettled>
    ensures { (left : C) → Reads (settled (count_of negative v.now) left) result left }
{
    match count_of(v, negative) {
        Ok(count) => Ok(count),
        Err(state) => Err(Unsettled::Fails(state)),
    }
}

// The number of rows that OFFSET or LIMIT says.
fn row_count<'a, C: Caller, S: Subqueries<C>>(
    alloc: Global,
    negative: State,
    e: Option<&'a RExpr>,
    sub: &S,
    outer: &[Lent<'a>],
    caller: &mut C,
) -> Result<Option<usize>, Unsettled>
    requires { S.can sub.now }
    ensures { Reads (spec.row_count negative (condition C.calls (S.sub sub.now) e.entry)
        (rows_of outer.now) caller.old)
        result caller.new }
{
    match e {
        None => Ok(None),
        Some(e) => {
            let v = value(alloc, e, sub, outer, caller)?;
            settle_count::<C>(v.get(), negative)
        }
    }
}

fn each_once(alloc: Global, is_distinct: bool, rows: Vec<Cells>) -> Result<Vec<Cells>, AllocError>
    ensures { IfOk result (λ made. made.items ≡ spec.each_once is_distinct rows.items) }
{
    if is_distinct {
        distinct(alloc, rows)
    } else {
        Ok(rows)
    }
}

// Keeps the first values of a row, as many as there are columns.
fn shorten(row: &mut Cells, columns: usize)
    ensures { row.new ≡ take columns row.old }
{
    while row.len() > columns {
        row.pop();
    }
}

fn shorten_each(rows: &mut Vec<Cells>, columns: usize)
    ensures { rows.new.items ≡ map (take columns) rows.old.items }
{
    for at in 0..rows.len() {
        shorten(&mut rows[at], columns);
    }
}

fn order_and_cut(
    alloc: Global,
    query: &RQuery,
    offset: Option<usize>,
    limit: Option<usize>,
    rows: Rows,
) -> Result<List<Cells>, AllocError>
    ensures { IfOk result (λ made. made ≡ map (take (length query.now.heads)) (cut offset limit
        (sorted (order_by query.now.order) (spec.each_once query.now.is_distinct rows)))) }
{
    let mut rows = each_once(alloc, query.is_distinct, rows.into_vec())?;
    sort(&mut rows, query.order.as_slice())?;
    cut(&mut rows, offset, limit);
    shorten_each(&mut rows, query.heads.len());
    Ok(List::from_vec(rows))
}

/// What DISTINCT, ORDER BY, OFFSET and LIMIT make of the rows. 2201X and 2201W for a negative
/// OFFSET and LIMIT.
pub fn end<'a, C: Caller, S: Subqueries<C>>(
    alloc: Global,
    query: &'a RQuery,
    sub: &S,
    outer: &[Lent<'a>],
    rows: Rows,
    caller: &mut C,
) -> Result<List<Cells>, Unsettled>
    requires { S.can sub.now }
    ensures { Reads (spec.ended query.now
        (option_map (value C.calls (S.sub sub.now)) query.now.offset)
        (option_map (value C.calls (S.sub sub.now)) query.now.limit)
        (rows_of outer.now) rows caller.old)
        result caller.new }
{
    let offset = row_count(
        alloc,
        State::INVALID_ROW_COUNT_IN_RESULT_OFFSET_CLAUSE,
        expression_of(&query.offset),
        sub,
        outer,
        caller,
    )?;
    let limit = row_count(
        alloc,
        State::INVALID_ROW_COUNT_IN_LIMIT_CLAUSE,
        expression_of(&query.limit),
        sub,
        outer,
        caller,
    )?;
    Ok(order_and_cut(alloc, query, offset, limit, rows)?)
}

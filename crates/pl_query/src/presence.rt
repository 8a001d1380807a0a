//! Whether a query has a row. Where its only table is kept, and WHERE may pass but one of its rows,
//! or none, this is read off that row, and no rows are made.

ghost use Rattle.std.specs.Prelude.{◌≡◌, ◌++◌, [], ◌∷◌, None, true, IfOk, IfSome};
ghost use Rattle.pl_query.specs.Presence.{AreRead, HasRow, IsBare, PassesAs};
ghost use Rattle.pl_query.specs.Query.{rows_before};
ghost use Rattle.pl_query.specs.Sources.{Tables as TablesOf};
ghost use Rattle.pl_resolved.specs.declared.query.RQuery.{RQuery};
ghost use Rattle.pl_value.specs.Frames.{rows_of};
ghost use Rattle.pl_value.specs.Meaning as meaning;
ghost use Rattle.pl_value.specs.Meaning.{Calls, has_row};
ghost use Rattle.pl_value.specs.Reading.{got};

use crate::Lender;
use crate::along::put_behind;
use crate::query::only_table;
use crate::sources::{are_too_many, expression_of};
use crate::within::at_number;
use pl_base::{Cells, Value};
use pl_product::{Bundles, Sole, add_empty, sole_in, with_room};
use pl_resolved::{RExpr, RQuery};
use pl_value::{Lent, leaf, truth_in};
use std::alloc::{AllocError, Global};

/// A query over one table, which is kept, without groups, OFFSET and LIMIT.
#[derive(Clone, Copy)]
pub struct Bare<'a> {
    /// The rows of the table.
    pub bundles: &'a Bundles<'a>,
    pub condition: &'a RExpr,
    pub items: &'a [RExpr],
}

fn has_rows_alone(query: &RQuery) -> bool
    ensures { result ≡ true
        → (query.now.groups ≡ None) × (query.now.offset ≡ None) × (query.now.limit ≡ None) }
{
    query.groups.is_none() && query.offset.is_none() && query.limit.is_none()
}

// The query, if it is one of these.
fn bare_in<'a, T: Lender>(query: &'a RQuery, tables: &'a T) -> Option<Bare<'a>>
    ensures { IfSome result (IsBare (T.table tables.now) query.now) }
{
    if !has_rows_alone(query) {
        return None;
    }
    let condition = expression_of(&query.condition)?;
    let name = only_table(query.from.as_slice())?;
    let bundles = tables.kept_rows(name)?;
    Some(Bare {
        bundles,
        condition,
        items: query.items.as_slice(),
    })
}

// Each of the items names a value that stands.
fn are_read<'a, C>(items: &'a [RExpr], frame: &[Lent<'a>]) -> bool
    ensures { result ≡ true → AreRead C items.now (rows_of frame.now) }
{
    for item in items {
        match leaf::<C>(item, frame) {
            Some(_) => {}
            None => return false,
        }
    }
    true
}

// Whether WHERE passes, where each of the items names a value that stands. None where that isn't
// known at once.
fn passes_at_once<'a, C>(bare: &Bare<'a>, frame: &[Lent<'a>]) -> Option<bool>
    ensures { IfSome result (PassesAs C bare.now (rows_of frame.now)) }
{
    let truth = truth_in::<C>(bare.condition, frame)?;
    if !are_read::<C>(bare.items, frame) {
        return None;
    }
    Some(is_so(truth))
}

// A truth that is unknown doesn't pass.
fn is_so(truth: Option<bool>) -> bool
    ensures { result ≡ meaning.is_so truth }
{
    match truth {
        Some(truth) => truth,
        None => false,
    }
}

// The rows around a query, and the empty one for its aggregates, with room for one more.
fn stand_before<'a>(alloc: Global, outer: &[Lent<'a>]) -> Result<Vec<Lent<'a>>, AllocError>
    ensures { IfOk result (λ stands. rows_of stands.items ≡ rows_of outer.now ++ [] ∷ []) }
{
    let mut stands = with_room(alloc, outer, 2)?;
    add_empty(&mut stands, 1)?;
    Ok(stands)
}

// Whether the query has a row, over the two rows around it: those that stand are no list.
fn known_by_two<'a, C>(
    alloc: Global,
    bare: &Bare<'a>,
    first: &'a [Value],
    second: &'a [Value],
) -> Result<Option<bool>, AllocError>
    ensures { IfOk result (λ known. IfSome known (λ b. (tables : TablesOf) (q : RQuery)
        → IsBare tables q bare.now → HasRow C tables q (first.now ∷ second.now ∷ []) b)) }
{
    let first = Lent { cells: first };
    let second = Lent { cells: second };
    let empty = Lent { cells: &[] };
    match sole_in::<C>(alloc, bare.bundles, bare.condition, &[first, second, empty])? {
        Sole::Any => Ok(None),
        Sole::Nothing => Ok(Some(false)),
        Sole::Row(at) => match bare.bundles.get(at) {
            [row] => Ok(passes_at_once::<C>(bare, &[first, second, empty, *row])),
            _ => Ok(None),
        },
    }
}

// The same, over any rows.
fn known_behind<'a, C>(
    alloc: Global,
    bare: &Bare<'a>,
    outer: &[Lent<'a>],
) -> Result<Option<bool>, AllocError>
    ensures { IfOk result (λ known. IfSome known (λ b. (tables : TablesOf) (q : RQuery)
        → IsBare tables q bare.now → HasRow C tables q (rows_of outer.now) b)) }
{
    let mut stands = stand_before(alloc, outer)?;
    if are_too_many(stands.as_slice(), 1) {
        return Ok(None);
    }
    match sole_in::<C>(alloc, bare.bundles, bare.condition, stands.as_slice())? {
        Sole::Any => Ok(None),
        Sole::Nothing => Ok(Some(false)),
        Sole::Row(at) => {
            put_behind(&mut stands, bare.bundles.get(at))?;
            Ok(passes_at_once::<C>(bare, stands.as_slice()))
        }
    }
}

// Whether the query has a row, over the rows around it. None where that isn't known at once.
fn known_of<'a, C>(
    alloc: Global,
    bare: &Bare<'a>,
    outer: &[Lent<'a>],
) -> Result<Option<bool>, AllocError>
    ensures { IfOk result (λ known. IfSome known (λ b. (tables : TablesOf) (q : RQuery)
        → IsBare tables q bare.now → HasRow C tables q (rows_of outer.now) b)) }
{
    match outer {
        [first, second] => known_by_two::<C>(alloc, bare, first.cells, second.cells),
        _ => known_behind::<C>(alloc, bare, outer),
    }
}

/// Whether the query of this number, which is below the limit, has a row. None where that isn't
/// known at once.
pub fn known_row<C, T: Lender>(
    alloc: Global,
    queries: &[RQuery],
    tables: &T,
    limit: usize,
    at: usize,
    outer: &[Lent<'_>],
) -> Result<Option<bool>, AllocError>
    ensures { IfOk result (λ known. IfSome known (λ b. (calls : Calls C) (w : C)
        → has_row (rows_before calls queries.now (T.table tables.now) limit) at
        (rows_of outer.now) w ≡ got b w)) }
{
    if at >= limit {
        return Ok(None);
    }
    let Some(query) = at_number(&*queries, at) else {
        return Ok(None);
    };
    match bare_in(query, &*tables) {
        Some(bare) => known_of::<C>(alloc, &bare, &*outer),
        None => Ok(None),
    }
}

/// There is a row.
pub fn is_some(rows: &[Cells]) -> bool
    ensures { result ≡ meaning.is_some rows.now }
{
    match rows {
        [] => false,
        _ => true,
    }
}

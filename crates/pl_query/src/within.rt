//! The rows of a query by its number, with the queries inside it.

ghost use Rattle.std.specs.Prelude.{◌≡◌, slice_get};
ghost use Rattle.std.specs.Option.{option_copied};
ghost use Rattle.pl_query.specs.Query as spec;
ghost use Rattle.pl_query.specs.Query.{rows_before};
ghost use Rattle.pl_query.specs.Serves.{Serves};
ghost use Rattle.pl_value.specs.Answers.{Reads};
ghost use Rattle.pl_value.specs.Frames.{rows_of};
ghost use Rattle.pl_value.specs.Meaning as meaning;

use crate::presence::{is_some, known_row};
use crate::query::query_rows;
use crate::store::Store;
use crate::{Lender, Tables};
use pl_base::{Cells, List};
use pl_resolved::{RExpr, RQuery};
use pl_value::{Caller, Lent, Operand, Subqueries, Unsettled, value};
use std::alloc::Global;

/// The queries before a number, and the function that runs one of them.
#[derive(Drop)]
pub struct Below<'a, T, F> {
    pub queries: &'a [RQuery],
    pub tables: &'a T,
    pub limit: usize,
    pub run: F,
}

impl<
    'a,
    C: Caller,
    T: Lender,
    F: Fn(
        Global,
        &[RQuery],
        &T,
        usize,
        usize,
        &[Lent<'_>],
        &mut C,
    ) -> Result<List<Cells>, Unsettled>,
> Subqueries<C> for Below<'a, T, F> {
    ghost sub = { λ b. rows_before C.calls b.queries.now (T.table b.tables.now) b.limit };

    ghost can = { λ b. Serves C.calls b.queries.now b.tables.now T.table b.limit
        (F.pre b.run) (F.post b.run) };

    fn rows(
        &self,
        alloc: Global,
        query: usize,
        frame: &[Lent<'_>],
        caller: &mut C,
    ) -> Result<List<Cells>, Unsettled> {
        (self.run)(
            alloc,
            self.queries,
            self.tables,
            self.limit,
            query,
            frame,
            caller,
        )
    }

    fn has_row(
        &self,
        alloc: Global,
        query: usize,
        frame: &[Lent<'_>],
        caller: &mut C,
    ) -> Result<bool, Unsettled> {
        let limit = self.limit;
        match known_row::<C, T>(alloc, self.queries, self.tables, limit, query, frame)? {
            Some(has_row) => Ok(has_row),
            None => {
                let rows = self.rows(alloc, query, frame, caller)?;
                Ok(is_some(rows.as_slice()))
            }
        }
    }
}

/// The queries of a statement, over what lends the rows of their tables.
#[derive(Drop)]
pub struct Queries<'a, T> {
    pub list: &'a [RQuery],
    pub tables: &'a T,
}

impl<'a, C: Caller, T: Lender> Subqueries<C> for Queries<'a, T> {
    ghost sub = { λ q. spec.rows C.calls q.list.now (T.table q.tables.now) };

    ghost can = { λ _. Unit {0} };

    fn rows(
        &self,
        alloc: Global,
        query: usize,
        frame: &[Lent<'_>],
        caller: &mut C,
    ) -> Result<List<Cells>, Unsettled> {
        run_before(
            alloc,
            self.list,
            self.tables,
            self.list.len(),
            query,
            frame,
            caller,
        )
    }

    fn has_row(
        &self,
        alloc: Global,
        query: usize,
        frame: &[Lent<'_>],
        caller: &mut C,
    ) -> Result<bool, Unsettled> {
        let limit = self.list.len();
        match known_row::<C, T>(alloc, self.list, self.tables, limit, query, frame)? {
            Some(has_row) => Ok(has_row),
            None => {
                let rows = self.rows(alloc, query, frame, caller)?;
                Ok(is_some(rows.as_slice()))
            }
        }
    }
}

/// The query of this number.
pub fn at_number(queries: &[RQuery], at: usize) -> Option<&RQuery>
    ensures { option_copied result ≡ slice_get queries.now at }
{
    queries.get(at)
}

/// The rows of the query of this number, if it is below the limit; else there are none.
pub fn run_before<C: Caller, T: Lender>(
    alloc: Global,
    queries: &[RQuery],
    tables: &T,
    limit: usize,
    at: usize,
    frame: &[Lent<'_>],
    caller: &mut C,
) -> Result<List<Cells>, Unsettled>
    ensures { Reads (rows_before C.calls queries.now (T.table tables.now) limit at
        (rows_of frame.now) caller.old)
        result caller.new }
{
    if at >= limit {
        return Ok(List::new(alloc));
    }
    let below = Below {
        queries: &*queries,
        tables: &*tables,
        limit: at,
        run: run_before,
    };
    match at_number(&*queries, at) {
        Some(query) => query_rows(alloc, query, &below, &*tables, &*frame, caller),
        None => Ok(List::new(alloc)),
    }
}

// The queries before this number: no others are inside the one of this number.
fn before(queries: &[RQuery], at: usize) -> &[RQuery] {
    &queries[..at.min(queries.len())]
}

/// The rows of the query of this number, over the rows that stand around it. A call of a routine
/// may change the caller, and a failure ends the query: its SQLSTATE is that of the expression that
/// failed, 54000 at the 1,000,001st row that passes WHERE, or that passes ON in joined items in
/// brackets, 54001 where more than 1,000 rows would stand together, 2201X and 2201W for a negative
/// OFFSET and LIMIT, 42804 for one that is no number.
pub fn run<C: Caller, T: Tables>(
    alloc: Global,
    queries: &[RQuery],
    tables: &T,
    at: usize,
    frame: &[Lent<'_>],
    caller: &mut C,
) -> Result<List<Cells>, Unsettled>
    ensures { Reads (spec.rows C.calls queries.now (T.table tables.now) at
        (rows_of frame.now) caller.old)
        result caller.new }
{
    let store = Store::new(alloc, &*tables, before(&*queries, at), frame.len())?;
    run_before(alloc, &*queries, &store, queries.len(), at, &*frame, caller)
}

/// The value of an expression over the rows that stand, with the queries inside it.
pub fn evaluate<'a, C: Caller, T: Tables>(
    alloc: Global,
    queries: &'a [RQuery],
    tables: &'a T,
    e: &'a RExpr,
    frame: &[Lent<'a>],
    caller: &mut C,
) -> Result<Operand<'a>, Unsettled>
    ensures { Reads (meaning.value C.calls (spec.rows C.calls queries.now (T.table tables.now))
        e.now (rows_of frame.now) caller.old)
        result caller.new }
{
    // The last query is inside of no other, so what it reads needn't be kept.
    let inner = before(&*queries, queries.len().saturating_sub(1));
    let store = Store::new(alloc, &*tables, inner, frame.len())?;
    let inside = Queries {
        list: &*queries,
        tables: &store,
    };
    value(alloc, e, &inside, frame, caller)
}

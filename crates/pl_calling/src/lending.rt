//! What is read over the variables of a call.

ghost use Rattle.std.specs.Prelude.{◌≡◌, [], ◌∷◌, ◌++◌, map, IfOk, OnOk};
ghost use Rattle.pl_calling.specs.Reading.{no_rows};
ghost use Rattle.pl_engine.specs.Engines.{world};
ghost use Rattle.pl_engine.specs.pl_world.Selection as spec;
ghost use Rattle.pl_natural.specs.pl_query.Query.{rows};
ghost use Rattle.pl_value.specs.Answers.{Reads};
ghost use Rattle.pl_value.specs.Meaning as meaning;
ghost use Rattle.pl_value.specs.Meaning.{value};
ghost use Rattle.pl_engine.specs.pl_world.Variables.{row_of};

use pl_base::{Cells, List, Value};
use pl_engine::Engine;
use pl_engine::pl_change::copy_row;
use pl_engine::pl_scope::ResolvedExpr;
use pl_natural::pl_query::{Tables, evaluate, run};
use pl_resolved::{RExpr, RQuery};
use pl_value::{Caller, Lent, NoQueries, Unsettled, values};
use std::alloc::{AllocError, Global};

/// The value of an expression over one row.
pub(crate) fn value_over<C: Caller, T: Tables>(
    alloc: Global,
    e: &ResolvedExpr,
    tables: &T,
    row: &[Value],
    caller: &mut C,
) -> Result<Value, Unsettled>
    ensures { Reads (value C.calls (rows C.calls e.now.queries (T.table tables.now))
        e.now.typed.tree (row.now ∷ []) caller.old) result caller.new }
{
    let frame = [Lent { cells: row }];
    let queries = e.queries.as_slice();
    match evaluate(alloc, queries, tables, e.typed.tree.get(), &frame, caller) {
        Ok(operand) => Ok(operand.take(alloc)?),
        Err(why) => Err(why),
    }
}

// The number of the whole query, which stands behind those inside it.
fn last_of(queries: &List<RQuery>) -> usize
    ensures { result ≡ spec.last_of queries.now }
{
    queries.len().saturating_sub(1)
}

/// The rows of the last of these queries over one row.
pub(crate) fn rows_over<C: Caller, T: Tables>(
    alloc: Global,
    queries: &List<RQuery>,
    tables: &T,
    row: &[Value],
    caller: &mut C,
) -> Result<List<Cells>, Unsettled>
    ensures { Reads (rows C.calls queries.now (T.table tables.now) (spec.last_of queries.now)
        (row.now ∷ []) caller.old) result caller.new }
{
    let frame = [Lent { cells: row }];
    let last = last_of(queries);
    run(alloc, queries.as_slice(), tables, last, &frame, caller)
}

/// The values of expressions in which no query stands, over one row, from left to right.
pub(crate) fn values_over<C: Caller>(
    alloc: Global,
    list: &[RExpr],
    row: &[Value],
    caller: &mut C,
) -> Result<List<Value>, Unsettled>
    ensures { Reads (meaning.values (map (value C.calls no_rows) list.now) [] (row.now ∷ [])
        caller.old) result caller.new }
{
    let frame = [Lent { cells: row }];
    values(alloc, list, &NoQueries, &frame, caller)
}

/// The variables of the newest call, and further values behind them.
pub(crate) fn row_beside(engine: &Engine, beside: &[Value]) -> Result<Cells, AllocError>
    ensures { IfOk result (λ row. row ≡ row_of (world engine.now).frame ++ beside.now) }
{
    let alloc = engine.alloc();
    let mut row = copy_row(alloc, engine.values())?;
    for value in beside {
        add_copy(alloc, &mut row, value)?;
    }
    Ok(row)
}

// A copy of the value stands behind the others.
fn add_copy(alloc: Global, row: &mut Cells, value: &Value) -> Result<(), AllocError>
    ensures { OnOk result (row.new ≡ row.old ++ value.now ∷ []) }
{
    row.push(value.copy(alloc)?)?;
    Ok(())
}

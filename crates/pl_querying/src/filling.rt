//! Rows that go into variables: PostgreSQL manual, "PL/pgSQL", "Executing a Command with a
//! Single-Row Result".

ghost use Rattle.std.specs.Prelude.{◌≡◌, length, min, IfOk};
ghost use Rattle.pl_asking.specs.pl_engine.Engines.{Quiet, kept, world};
ghost use Rattle.pl_world.specs.Commands as spec;
ghost use Rattle.pl_world.specs.Variables.{counted};

use pl_asking::pl_engine::{Engine, Spot};
use pl_asking::{Variable, put_all};
use pl_base::{Cells, Memory, State};
use pl_world::Outcome;

/// INTO: the first row goes into the variables, or nulls where there is no row. No row is P0002
/// where one is needed, and further rows are P0003 where there may be none.
pub fn into(
    engine: &mut Engine,
    at: Spot,
    needs_one: bool,
    may_have_more: bool,
    variables: &[Variable],
    rows: &[Cells],
) -> Result<Outcome, Memory>
    ensures is { IfOk result (λ o. Quiet (spec.into needs_one may_have_more variables.now rows.now
        at (world engine.old)) o engine.old engine.new) }
    ensures keeps { IfOk result (λ o. kept engine.new ≡ kept engine.old) }
{
    match rows {
        [] => {
            if needs_one {
                return Ok(engine.raise(State::NO_DATA_FOUND, at));
            }
            put_all(engine, at, variables, &[])
        }
        [row] => put_all(engine, at, variables, row.as_slice()),
        [row, _, ..] => {
            if may_have_more {
                return put_all(engine, at, variables, row.as_slice());
            }
            Ok(engine.raise(State::TOO_MANY_ROWS, at))
        }
    }
}

/// INTO of a query, of which STRICT asks for exactly one row. FOUND and ROW_COUNT are those of the
/// one row that is taken.
pub(crate) fn fill(
    engine: &mut Engine,
    at: Spot,
    is_strict: bool,
    variables: &[Variable],
    rows: &[Cells],
) -> Result<Outcome, Memory>
    ensures is { IfOk result (λ o. Quiet (spec.into_one is_strict variables.now rows.now at
        (counted (min 1 (length rows.now)) (world engine.old))) o engine.old engine.new) }
    ensures keeps { IfOk result (λ o. kept engine.new ≡ kept engine.old) }
{
    let taken = rows.len().min(1);
    engine.count(taken as u64);
    into(engine, at, is_strict, !is_strict, variables, rows)
}

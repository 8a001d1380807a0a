//! Changes as statements: PostgreSQL manual, "PL/pgSQL", "Executing SQL Commands".

ghost use Rattle.std.specs.Prelude.{◌≡◌, ◌≤◌, length, IfOk, OnOk};
ghost use Rattle.pl_querying.specs.pl_engine.Answers.{Answers};
ghost use Rattle.pl_querying.specs.pl_engine.Engines.{Quiet, kept, world};
ghost use Rattle.pl_querying.specs.pl_engine.Texts.{do_bodies};
ghost use Rattle.pl_world.specs.Commands as spec;
ghost use Rattle.pl_world.specs.Statements as statements;
ghost use Rattle.pl_world.specs.Statements.{runner_for};
ghost use Rattle.pl_world.specs.Variables.{counted};

use crate::changing::change;
use crate::resolving::{Altering, resolve_into};
use pl_base::{Cells, Memory, State};
use pl_bodies::{Change, IntoClause};
use pl_querying::into as put_into;
use pl_querying::pl_engine::{BodyRunner, Calls, Engine, Port, Spot, Stop};
use pl_typing::ScopeFail;
use pl_world::Outcome;

// Rows of RETURNING that go nowhere.
fn refuse_rows(engine: &Engine, at: Spot, a: &Altering) -> Outcome
    ensures { Quiet (spec.unless_returning a.now.change.heads at (world engine.now)) result
        engine.now engine.now }
{
    if a.change().heads.is_empty() {
        Outcome::Next
    } else {
        engine.raise(State::SYNTAX_ERROR, at)
    }
}

// Rows of RETURNING have to go somewhere. The first goes into the variables of INTO, and there may
// be no other.
fn place(
    engine: &mut Engine,
    at: Spot,
    clause: &Option<IntoClause>,
    a: &Altering,
    rows: &[Cells],
) -> Result<Outcome, Memory>
    ensures is { IfOk result (λ o. Quiet (spec.returned clause.now a.now rows.now at
        (world engine.old)) o engine.old engine.new) }
    ensures keeps { IfOk result (λ o. kept engine.new ≡ kept engine.old) }
{
    match clause {
        Some(clause) => put_into(engine, at, clause.is_strict, false, a.variables(), rows),
        None => Ok(refuse_rows(&*engine, at, a)),
    }
}

// The rows are counted before they go anywhere.
fn count_rows(
    engine: &mut Engine,
    at: Spot,
    clause: &Option<IntoClause>,
    a: &Altering,
    rows: &[Cells],
) -> Result<Outcome, Memory>
    ensures is { IfOk result (λ o. Quiet (spec.returned clause.now a.now rows.now at
        (counted (length rows.now) (world engine.old))) o engine.old engine.new) }
    ensures keeps { IfOk result (λ o. kept engine.new ≡ kept engine.old) }
{
    engine.count(rows.len() as u64);
    place(engine, at, clause, a, rows)
}

// A change whose names are resolved.
fn alter_resolved<P: Port, R: BodyRunner>(
    calls: &Calls<'_, R>,
    engine: &mut Engine,
    port: &mut P,
    at: Spot,
    clause: &Option<IntoClause>,
    a: &Altering,
) -> Result<Outcome, Stop>
    requires room { (world engine.old).steps ≤ calls.now.room }
    requires fits { P.fits (world engine.old).last port.old }
    requires runs { R.runs calls.now.bodies.now calls.now.room }
    ensures is { Answers P.Port
        (spec.altered (runner_for do_bodies calls.now.room) at clause.now a.now
        (world engine.old)) result
        engine.old engine.new port.old port.new }
    ensures keeps { OnOk result (kept engine.new ≡ kept engine.old) }
{
    let made = change(calls, engine, port, at, a.change())?;
    match made {
        Ok(rows) => Ok(count_rows(engine, at, clause, a, rows.as_slice())?),
        Err(f) => Ok(Outcome::Fail(f)),
    }
}

/// INSERT, UPDATE or DELETE as a statement. The change is resolved, then the targets of its INTO.
/// FOUND and ROW_COUNT say how many rows were changed. Rows of RETURNING without INTO are 42601,
/// more than one is P0003.
pub fn alter<P: Port, R: BodyRunner>(
    calls: &Calls<'_, R>,
    engine: &mut Engine,
    port: &mut P,
    at: Spot,
    c: &Change,
    into: &Option<IntoClause>,
) -> Result<Outcome, Stop>
    requires room { (world engine.old).steps ≤ calls.now.room }
    requires fits { P.fits (world engine.old).last port.old }
    requires runs { R.runs calls.now.bodies.now calls.now.room }
    ensures is { Answers P.Port
        (statements.alters (runner_for do_bodies calls.now.room) at c.now into.now
        (world engine.old)) result
        engine.old engine.new port.old port.new }
    ensures keeps { OnOk result (kept engine.new ≡ kept engine.old) }
{
    match resolve_into(engine, at, c, into) {
        Ok(a) => alter_resolved(calls, engine, port, at, into, &a),
        Err(ScopeFail::State(state)) => Ok(engine.raise(state, at)),
        Err(ScopeFail::Memory) => Err(Stop::Memory),
    }
}

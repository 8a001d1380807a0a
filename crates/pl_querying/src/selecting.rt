//! SELECT INTO: PostgreSQL manual, "PL/pgSQL", "Executing a Command with a Single-Row Result".

ghost use Rattle.std.specs.Prelude.{◌≡◌, ◌≤◌, OnOk};
ghost use Rattle.pl_asking.specs.pl_engine.Answers.{Answers};
ghost use Rattle.pl_asking.specs.pl_engine.Engines.{kept, world};
ghost use Rattle.pl_asking.specs.pl_engine.Texts.{do_bodies};
ghost use Rattle.pl_world.specs.Commands.{selected, selecting};
ghost use Rattle.pl_world.specs.Errors.{resolved};
ghost use Rattle.pl_world.specs.Statements.{runner_for};

use crate::filling::fill;
use crate::resolving::{IntoQuery, resolve_into};
use pl_asking::pl_calling::query;
use pl_asking::pl_engine::{BodyRunner, Calls, Engine, Port, Spot, Stop};
use pl_bodies::IntoClause;
use pl_tree::Query;
use pl_typing::ScopeFail;
use pl_world::Outcome;

// The first row goes into the variables.
fn select<P: Port, R: BodyRunner>(
    calls: &Calls<'_, R>,
    engine: &mut Engine,
    port: &mut P,
    at: Spot,
    is_strict: bool,
    s: &IntoQuery,
) -> Result<Outcome, Stop>
    requires room { (world engine.old).steps ≤ calls.now.room }
    requires fits { P.fits (world engine.old).last port.old }
    requires runs { R.runs calls.now.bodies.now calls.now.room }
    ensures is { Answers P.Port
        (selected (runner_for do_bodies calls.now.room) at is_strict s.now
        (world engine.old)) result
        engine.old engine.new port.old port.new }
    ensures keeps { OnOk result (kept engine.new ≡ kept engine.old) }
{
    let found = query(calls, engine, port, at, s.queries())?;
    match found {
        Ok(rows) => Ok(fill(engine, at, is_strict, s.variables(), rows.as_slice())?),
        Err(f) => Ok(Outcome::Fail(f)),
    }
}

/// SELECT INTO: all is resolved before the query is run.
pub(crate) fn select_into<P: Port, R: BodyRunner>(
    calls: &Calls<'_, R>,
    engine: &mut Engine,
    port: &mut P,
    at: Spot,
    q: &Query,
    clause: &IntoClause,
) -> Result<Outcome, Stop>
    requires room { (world engine.old).steps ≤ calls.now.room }
    requires fits { P.fits (world engine.old).last port.old }
    requires runs { R.runs calls.now.bodies.now calls.now.room }
    ensures is { Answers P.Port
        (resolved (selecting q.now clause.now.targets (world engine.old).database.objects
        (world engine.old).frame.static) at (world engine.old) (λ s.
        selected (runner_for do_bodies calls.now.room) at clause.now.is_strict s
        (world engine.old))) result
        engine.old engine.new port.old port.new }
    ensures keeps { OnOk result (kept engine.new ≡ kept engine.old) }
{
    match resolve_into(engine, at, q, clause.targets.as_slice()) {
        Ok(s) => select(calls, engine, port, at, clause.is_strict, &s),
        Err(ScopeFail::State(state)) => Ok(engine.raise(state, at)),
        Err(ScopeFail::Memory) => Err(Stop::Memory),
    }
}

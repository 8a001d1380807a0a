//! A query without a destination: PostgreSQL manual, "PL/pgSQL", "Executing SQL Commands".

ghost use Rattle.std.specs.Prelude.{◌≡◌, ◌≤◌, OnOk};
ghost use Rattle.pl_asking.specs.pl_engine.Answers.{Answers};
ghost use Rattle.pl_asking.specs.pl_engine.Engines.{kept, world};
ghost use Rattle.pl_asking.specs.pl_engine.Texts.{do_bodies};
ghost use Rattle.pl_world.specs.Commands as spec;
ghost use Rattle.pl_world.specs.Errors.{resolved};
ghost use Rattle.pl_world.specs.Resolving.{querying};
ghost use Rattle.pl_world.specs.Statements.{runner_for};

use pl_asking::pl_calling::query;
use pl_asking::pl_engine::{BodyRunner, Calls, Engine, Port, Spot, Stop};
use pl_base::{List, State};
use pl_resolved::RQuery;
use pl_tree::Query;
use pl_typing::ScopeFail;
use pl_world::Outcome;

// The rows are counted, and have nowhere to go.
fn refuse_rows<P: Port, R: BodyRunner>(
    calls: &Calls<'_, R>,
    engine: &mut Engine,
    port: &mut P,
    at: Spot,
    queries: &List<RQuery>,
) -> Result<Outcome, Stop>
    requires room { (world engine.old).steps ≤ calls.now.room }
    requires fits { P.fits (world engine.old).last port.old }
    requires runs { R.runs calls.now.bodies.now calls.now.room }
    ensures is { Answers P.Port
        (spec.without_destination (runner_for do_bodies calls.now.room) at queries.now
        (world engine.old)) result
        engine.old engine.new port.old port.new }
    ensures keeps { OnOk result (kept engine.new ≡ kept engine.old) }
{
    let found = query(calls, engine, port, at, queries)?;
    match found {
        Ok(rows) => {
            let many = rows.len() as u64;
            engine.count(many);
            Ok(engine.raise(State::SYNTAX_ERROR, at))
        }
        Err(f) => Ok(Outcome::Fail(f)),
    }
}

/// A query whose rows have nowhere to go is run, and is then 42601.
pub(crate) fn run_without_destination<P: Port, R: BodyRunner>(
    calls: &Calls<'_, R>,
    engine: &mut Engine,
    port: &mut P,
    at: Spot,
    q: &Query,
) -> Result<Outcome, Stop>
    requires room { (world engine.old).steps ≤ calls.now.room }
    requires fits { P.fits (world engine.old).last port.old }
    requires runs { R.runs calls.now.bodies.now calls.now.room }
    ensures is { Answers P.Port
        (resolved (querying q.now (world engine.old).database.objects
        (world engine.old).frame.static) at (world engine.old) (λ qs.
        spec.without_destination (runner_for do_bodies calls.now.room) at qs
        (world engine.old))) result
        engine.old engine.new port.old port.new }
    ensures keeps { OnOk result (kept engine.new ≡ kept engine.old) }
{
    match engine.resolve_query(at, q) {
        Ok(queries) => refuse_rows(calls, engine, port, at, queries.get()),
        Err(ScopeFail::State(state)) => Ok(engine.raise(state, at)),
        Err(ScopeFail::Memory) => Err(Stop::Memory),
    }
}

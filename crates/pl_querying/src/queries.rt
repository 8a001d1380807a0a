//! Queries that are written out: PostgreSQL manual, "PL/pgSQL", "Executing SQL Commands".

ghost use Rattle.std.specs.Prelude.{◌≡◌, ◌≤◌, OnOk};
ghost use Rattle.pl_asking.specs.pl_engine.Answers.{Answers};
ghost use Rattle.pl_asking.specs.pl_engine.Engines.{kept, world};
ghost use Rattle.pl_asking.specs.pl_engine.Texts.{do_bodies};
ghost use Rattle.pl_world.specs.Statements.{queries, runner_for};

use crate::refusing::run_without_destination;
use crate::selecting::select_into;
use pl_asking::pl_engine::{BodyRunner, Calls, Engine, Port, Spot, Stop};
use pl_bodies::IntoClause;
use pl_tree::Query;
use pl_world::Outcome;

/// A query that is a statement. Its first row goes where INTO says; without INTO it is 42601.
pub fn run_query<P: Port, R: BodyRunner>(
    calls: &Calls<'_, R>,
    engine: &mut Engine,
    port: &mut P,
    at: Spot,
    q: &Query,
    into: &Option<IntoClause>,
) -> Result<Outcome, Stop>
    requires room { (world engine.old).steps ≤ calls.now.room }
    requires fits { P.fits (world engine.old).last port.old }
    requires runs { R.runs calls.now.bodies.now calls.now.room }
    ensures is { Answers P.Port
        (queries (runner_for do_bodies calls.now.room) at q.now into.now
        (world engine.old)) result
        engine.old engine.new port.old port.new }
    ensures keeps { OnOk result (kept engine.new ≡ kept engine.old) }
{
    match into {
        Some(clause) => select_into(calls, engine, port, at, q, clause),
        None => run_without_destination(calls, engine, port, at, q),
    }
}

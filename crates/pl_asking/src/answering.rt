//! What statements have their expressions asked.

ghost use Rattle.std.specs.Prelude.{◌≡◌, ◌≤◌, OnOk};
ghost use Rattle.pl_calling.specs.pl_engine.Answers.{Answers};
ghost use Rattle.pl_calling.specs.pl_engine.Asks.{asked};
ghost use Rattle.pl_calling.specs.pl_engine.Engines.{kept, world};
ghost use Rattle.pl_calling.specs.pl_engine.Texts.{do_bodies};
ghost use Rattle.pl_world.specs.Statements.{runner_for};

use crate::conditions::{bound, test};
use crate::declaring::declare;
use pl_calling::pl_engine::{Ask, BodyRunner, Calls, Engine, Port, Spot, Stop};
use pl_world::Outcome;

/// What the statement at this spot asks.
pub fn answer<P: Port, R: BodyRunner>(
    calls: &Calls<'_, R>,
    engine: &mut Engine,
    port: &mut P,
    at: Spot,
    what: Ask<'_>,
) -> Result<Outcome, Stop>
    requires room { (world engine.old).steps ≤ calls.now.room }
    requires fits { P.fits (world engine.old).last port.old }
    requires runs { R.runs calls.now.bodies.now calls.now.room }
    ensures is { Answers P.Port
        (asked (runner_for do_bodies calls.now.room) at what.entry (world engine.old)) result
        engine.old engine.new port.old port.new }
    ensures keeps { OnOk result (kept engine.new ≡ kept engine.old) }
{
    match what {
        Ask::Test(e) => test(calls, engine, port, at, e),
        Ask::Bound(e) => bound(calls, engine, port, at, e),
        Ask::Declare(d) => declare(calls, engine, port, at, d),
    }
}

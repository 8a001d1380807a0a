//! Procedures that are called by their names.

ghost use Rattle.std.specs.Prelude.{◌≡◌, ◌≤◌, OnOk, true};
ghost use Rattle.pl_engine.specs.Answers.{Answers};
ghost use Rattle.pl_engine.specs.Engines.{kept, world};
ghost use Rattle.pl_engine.specs.Runs.{Runs};
ghost use Rattle.pl_engine.specs.Texts.{do_bodies};
ghost use Rattle.pl_engine.specs.pl_world.Calls as spec;
ghost use Rattle.pl_engine.specs.pl_world.Statements.{runner_for};

use crate::callees::{Called, run_called};
use pl_asking::pl_calling::{Found, find};
use pl_base::{List, Name, State, Value};
use pl_engine::pl_world::Outcome;
use pl_engine::{Engine, Port, Runner, Spot, Stop, Task};

/// The procedure of this name is called with these values. XX000 where there is none now that takes
/// so many.
pub(crate) fn call_by_name<P: Port, F>(
    runner: &Runner<F>,
    engine: &mut Engine,
    port: &mut P,
    at: Spot,
    name: Name,
    values: List<Value>,
) -> Result<Outcome, Stop>
where
    F: Fn(u64, &mut Engine, &mut P, Task<'_>) -> Result<Outcome, Stop>,
    requires room { (world engine.old).steps ≤ runner.now.room }
    requires fits { P.fits (world engine.old).last port.old }
    requires runs { Runs P.Port runner.now.room (F.pre runner.now.run) (F.post runner.now.run) }
    ensures is { Answers P.Port
        (spec.called_by_name (runner_for do_bodies runner.now.room) at true name values
        (world engine.old)) result
        engine.old engine.new port.old port.new }
    ensures keeps { OnOk result (kept engine.new ≡ kept engine.old) }
{
    let Some(found) = find(&*engine, true, name, values.as_slice())? else {
        return Ok(engine.raise(State::INTERNAL_ERROR, at));
    };
    let Found {
        routine,
        declared,
        result,
        body,
    } = found;
    let called = Called {
        routine,
        declared,
        result,
    };
    run_called(runner, engine, port, at, called, values, body.get())
}

//! Conditions, and the bounds of FOR.

ghost use Rattle.std.specs.Prelude.{◌≡◌, ◌≤◌, OnOk};
ghost use Rattle.pl_calling.specs.pl_engine.Answers.{Answers};
ghost use Rattle.pl_calling.specs.pl_engine.Asks.{number, truth};
ghost use Rattle.pl_calling.specs.pl_engine.Engines.{kept, world};
ghost use Rattle.pl_calling.specs.pl_engine.Texts.{do_bodies};
ghost use Rattle.pl_world.specs.Control as spec;
ghost use Rattle.pl_world.specs.Statements.{runner_for};

use crate::answers::value_of;
use crate::converting::{as_bound, as_truth};
use crate::direct::truth_at_once;
use crate::values::value;
use pl_base::Value;
use pl_calling::pl_engine::{BodyRunner, Calls, Engine, Port, Spot, Stop};
use pl_tree::Expr;
use pl_world::Outcome;

// The condition is read as a value first.
fn test_value<P: Port, R: BodyRunner>(
    calls: &Calls<'_, R>,
    engine: &mut Engine,
    port: &mut P,
    at: Spot,
    e: &Expr,
) -> Result<Outcome, Stop>
    requires room { (world engine.old).steps ≤ calls.now.room }
    requires fits { P.fits (world engine.old).last port.old }
    requires runs { R.runs calls.now.bodies.now calls.now.room }
    ensures is { Answers P.Port
        (spec.tested (runner_for do_bodies calls.now.room) at e.now (world engine.old) truth) result
        engine.old engine.new port.old port.new }
    ensures keeps { OnOk result (kept engine.new ≡ kept engine.old) }
{
    let answer = value(calls, engine, port, at, e)?;
    match value_of(answer) {
        Ok(v) => Ok(as_truth(engine, at, &v)?),
        Err(end) => Ok(end),
    }
}

/// Whether a condition is true: a truth, never null. What is no boolean is read as one by its text.
pub fn test<P: Port, R: BodyRunner>(
    calls: &Calls<'_, R>,
    engine: &mut Engine,
    port: &mut P,
    at: Spot,
    e: &Expr,
) -> Result<Outcome, Stop>
    requires room { (world engine.old).steps ≤ calls.now.room }
    requires fits { P.fits (world engine.old).last port.old }
    requires runs { R.runs calls.now.bodies.now calls.now.room }
    ensures is { Answers P.Port
        (spec.tested (runner_for do_bodies calls.now.room) at e.now (world engine.old) truth) result
        engine.old engine.new port.old port.new }
    ensures keeps { OnOk result (kept engine.new ≡ kept engine.old) }
{
    match truth_at_once(&*engine, e) {
        Some(holds) => Ok(Outcome::Return(Value::Bool(holds))),
        None => test_value(calls, engine, port, at, e),
    }
}

/// The bound of a FOR: an integer. 22004 where it is null.
pub fn bound<P: Port, R: BodyRunner>(
    calls: &Calls<'_, R>,
    engine: &mut Engine,
    port: &mut P,
    at: Spot,
    e: &Expr,
) -> Result<Outcome, Stop>
    requires room { (world engine.old).steps ≤ calls.now.room }
    requires fits { P.fits (world engine.old).last port.old }
    requires runs { R.runs calls.now.bodies.now calls.now.room }
    ensures is { Answers P.Port
        (spec.bound (runner_for do_bodies calls.now.room) at e.now (world engine.old) number) result
        engine.old engine.new port.old port.new }
    ensures keeps { OnOk result (kept engine.new ≡ kept engine.old) }
{
    let answer = value(calls, engine, port, at, e)?;
    match value_of(answer) {
        Ok(v) => Ok(as_bound(engine, at, &v)?),
        Err(end) => Ok(end),
    }
}

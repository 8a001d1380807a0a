//! Assignment: PostgreSQL manual, "PL/pgSQL", "Assignment".

ghost use Rattle.std.specs.Prelude.{◌≡◌, ◌≤◌, OnOk};
ghost use Rattle.pl_calling.specs.pl_engine.Answers.{Answers};
ghost use Rattle.pl_calling.specs.pl_engine.Engines.{kept, world};
ghost use Rattle.pl_calling.specs.pl_engine.Texts.{do_bodies};
ghost use Rattle.pl_world.specs.Assigning as spec;
ghost use Rattle.pl_world.specs.Errors.{resolved};
ghost use Rattle.pl_world.specs.Resolving.{placing, reading};
ghost use Rattle.pl_world.specs.Statements.{runner_for};

use crate::answers::value_of;
use crate::direct::stored_at_once;
use crate::placing::put;
use crate::resolving::aim;
use crate::values::value;
use crate::variable::Variable;
use pl_bodies::Target;
use pl_calling::pl_engine::{BodyRunner, Calls, Engine, Port, Spot, Stop};
use pl_tree::Expr;
use pl_typing::ScopeFail;
use pl_world::Outcome;

// The value of an expression goes into a variable.
fn assign_to<P: Port, R: BodyRunner>(
    calls: &Calls<'_, R>,
    engine: &mut Engine,
    port: &mut P,
    at: Spot,
    to: Variable,
    e: &Expr,
) -> Result<Outcome, Stop>
    requires room { (world engine.old).steps ≤ calls.now.room }
    requires fits { P.fits (world engine.old).last port.old }
    requires runs { R.runs calls.now.bodies.now calls.now.room }
    ensures is { Answers P.Port
        (resolved (reading e.now (world engine.old).database.objects
        (world engine.old).frame.static) at (world engine.old) (λ x.
        spec.assigned (runner_for do_bodies calls.now.room) at (record { to = to; value = x })
        (world engine.old))) result
        engine.old engine.new port.old port.new }
    ensures keeps { OnOk result (kept engine.new ≡ kept engine.old) }
{
    let answer = value(calls, engine, port, at, e)?;
    match value_of(answer) {
        Ok(v) => Ok(put(engine, at, to, &v)?),
        Err(end) => Ok(end),
    }
}

// The target is resolved first.
fn assign_resolved<P: Port, R: BodyRunner>(
    calls: &Calls<'_, R>,
    engine: &mut Engine,
    port: &mut P,
    at: Spot,
    target: &Target,
    e: &Expr,
) -> Result<Outcome, Stop>
    requires room { (world engine.old).steps ≤ calls.now.room }
    requires fits { P.fits (world engine.old).last port.old }
    requires runs { R.runs calls.now.bodies.now calls.now.room }
    ensures is { Answers P.Port
        (resolved (placing target.now e.now (world engine.old).database.objects
        (world engine.old).frame.static) at (world engine.old) (λ p.
        spec.assigned (runner_for do_bodies calls.now.room) at p (world engine.old))) result
        engine.old engine.new port.old port.new }
    ensures keeps { OnOk result (kept engine.new ≡ kept engine.old) }
{
    match aim(engine, target) {
        Ok(to) => assign_to(calls, engine, port, at, to, e),
        Err(ScopeFail::State(state)) => Ok(engine.raise(state, at)),
        Err(ScopeFail::Memory) => Err(Stop::Memory),
    }
}

/// `target := value`. The target is resolved first. 22004 where it takes no null and is given one.
pub fn assign<P: Port, R: BodyRunner>(
    calls: &Calls<'_, R>,
    engine: &mut Engine,
    port: &mut P,
    at: Spot,
    target: &Target,
    e: &Expr,
) -> Result<Outcome, Stop>
    requires room { (world engine.old).steps ≤ calls.now.room }
    requires fits { P.fits (world engine.old).last port.old }
    requires runs { R.runs calls.now.bodies.now calls.now.room }
    ensures is { Answers P.Port
        (resolved (placing target.now e.now (world engine.old).database.objects
        (world engine.old).frame.static) at (world engine.old) (λ p.
        spec.assigned (runner_for do_bodies calls.now.room) at p (world engine.old))) result
        engine.old engine.new port.old port.new }
    ensures keeps { OnOk result (kept engine.new ≡ kept engine.old) }
{
    match stored_at_once(&*engine, target, e) {
        Some(stored) => {
            engine.set(stored.column, stored.value);
            Ok(Outcome::Next)
        }
        None => assign_resolved(calls, engine, port, at, target, e),
    }
}

//! The values of expressions.

ghost use Rattle.std.specs.Prelude.{◌≡◌, ◌≤◌, OnOk};
ghost use Rattle.pl_asking.specs.Values as spec;
ghost use Rattle.pl_calling.specs.pl_engine.Answers.{Answers};
ghost use Rattle.pl_calling.specs.pl_engine.Asks.{returned};
ghost use Rattle.pl_calling.specs.pl_engine.Engines.{kept, world};
ghost use Rattle.pl_calling.specs.pl_engine.Texts.{do_bodies};
ghost use Rattle.pl_direct.specs.pl_scope.declared.resolve.ResolvedExpr as scope;
ghost use Rattle.pl_typing.specs.Resolved.{Gives, Resolved};
ghost use Rattle.pl_world.specs.Control as control;
ghost use Rattle.pl_world.specs.Errors.{resolved};
ghost use Rattle.pl_world.specs.Expressions.{evaluated};
ghost use Rattle.pl_world.specs.Statements.{runner_for};

use crate::direct::{given_at_once, value_at_once};
use crate::resolving::give;
use pl_base::{Boxed, Shared, Value};
use pl_calling::evaluate;
use pl_calling::pl_engine::{BodyRunner, Calls, Engine, Port, Spot, Stop};
use pl_direct::pl_scope::ResolvedExpr;
use pl_tree::Expr;
use pl_typing::ScopeFail;
use pl_world::Outcome;

// The value of what was resolved, or the error that nothing was.
fn evaluate_it<P: Port, R: BodyRunner>(
    calls: &Calls<'_, R>,
    engine: &mut Engine,
    port: &mut P,
    at: Spot,
    e: Result<Shared<ResolvedExpr>, ScopeFail>,
) -> Result<Outcome, Stop>
    requires room { (world engine.old).steps ≤ calls.now.room }
    requires fits { P.fits (world engine.old).last port.old }
    requires runs { R.runs calls.now.bodies.now calls.now.room }
    ensures is { (meaning : Resolved scope.ResolvedExpr) → Gives e meaning → Answers P.Port
        (resolved meaning at (world engine.old) (λ x.
        evaluated (runner_for do_bodies calls.now.room) at x (world engine.old) returned)) result
        engine.old engine.new port.old port.new }
    ensures keeps { OnOk result (kept engine.new ≡ kept engine.old) }
{
    match e {
        Ok(e) => evaluate(calls, engine, port, at, e.get()),
        Err(fail) => match fail {
            ScopeFail::State(state) => Ok(engine.raise(state, at)),
            ScopeFail::Memory => Err(Stop::Memory),
        },
    }
}

/// The value of an expression.
pub fn value<P: Port, R: BodyRunner>(
    calls: &Calls<'_, R>,
    engine: &mut Engine,
    port: &mut P,
    at: Spot,
    e: &Expr,
) -> Result<Outcome, Stop>
    requires room { (world engine.old).steps ≤ calls.now.room }
    requires fits { P.fits (world engine.old).last port.old }
    requires runs { R.runs calls.now.bodies.now calls.now.room }
    ensures is { Answers P.Port
        (spec.read_value (runner_for do_bodies calls.now.room) at e.now (world engine.old)) result
        engine.old engine.new port.old port.new }
    ensures keeps { OnOk result (kept engine.new ≡ kept engine.old) }
{
    match value_at_once(&*engine, e) {
        Some(v) => Ok(Outcome::Return(v)),
        None => {
            let e = engine.resolve_expr(at, e);
            evaluate_it(calls, engine, port, at, e)
        }
    }
}

/// The value of a default, or else null.
pub(crate) fn default_value<P: Port, R: BodyRunner>(
    calls: &Calls<'_, R>,
    engine: &mut Engine,
    port: &mut P,
    at: Spot,
    default: &Option<Boxed<Expr>>,
) -> Result<Outcome, Stop>
    requires room { (world engine.old).steps ≤ calls.now.room }
    requires fits { P.fits (world engine.old).last port.old }
    requires runs { R.runs calls.now.bodies.now calls.now.room }
    ensures is { Answers P.Port
        (spec.read_default (runner_for do_bodies calls.now.room) at default.now
        (world engine.old)) result
        engine.old engine.new port.old port.new }
    ensures keeps { OnOk result (kept engine.new ≡ kept engine.old) }
{
    match default {
        Some(e) => value(calls, engine, port, at, e.get()),
        None => Ok(Outcome::Return(Value::Null)),
    }
}

/// RETURN: PostgreSQL manual, "PL/pgSQL", "Returning from a Function". Null where nothing is
/// written; 42804 where something is and no value is due.
pub fn returns<P: Port, R: BodyRunner>(
    calls: &Calls<'_, R>,
    engine: &mut Engine,
    port: &mut P,
    at: Spot,
    e: &Option<Boxed<Expr>>,
) -> Result<Outcome, Stop>
    requires room { (world engine.old).steps ≤ calls.now.room }
    requires fits { P.fits (world engine.old).last port.old }
    requires runs { R.runs calls.now.bodies.now calls.now.room }
    ensures is { Answers P.Port
        (control.returns (runner_for do_bodies calls.now.room) at e.now (world engine.old)) result
        engine.old engine.new port.old port.new }
    ensures keeps { OnOk result (kept engine.new ≡ kept engine.old) }
{
    let Some(e) = e else {
        return Ok(Outcome::Return(Value::Null));
    };
    let due = e.get();
    match given_at_once(&*engine, due) {
        Some(v) => Ok(Outcome::Return(v)),
        None => {
            let e = give(engine, at, due);
            evaluate_it(calls, engine, port, at, e)
        }
    }
}

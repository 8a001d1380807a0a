//! ASSERT: PostgreSQL manual, "PL/pgSQL", "Checking Assertions".

ghost use Rattle.std.specs.Prelude.{◌≡◌, ◌≤◌, OnOk};
ghost use Rattle.pl_asking.specs.pl_engine.Answers.{Answers};
ghost use Rattle.pl_asking.specs.pl_engine.Engines.{kept, world};
ghost use Rattle.pl_asking.specs.pl_engine.Texts.{do_bodies};
ghost use Rattle.pl_world.specs.Raising as spec;
ghost use Rattle.pl_world.specs.Statements.{runner_for};

use crate::texts::{Purpose, assertion_failed, text};
use pl_asking::pl_engine::{BodyRunner, Calls, Engine, Port, Spot, Stop};
use pl_asking::pl_flow::truth_of;
use pl_asking::test;
use pl_base::{Boxed, State};
use pl_tree::Expr;
use pl_world::Outcome;

// The assertion isn't true. The message is read then.
fn fail<P: Port, R: BodyRunner>(
    calls: &Calls<'_, R>,
    engine: &mut Engine,
    port: &mut P,
    at: Spot,
    message: &Option<Boxed<Expr>>,
) -> Result<Outcome, Stop>
    requires room { (world engine.old).steps ≤ calls.now.room }
    requires fits { P.fits (world engine.old).last port.old }
    requires runs { R.runs calls.now.bodies.now calls.now.room }
    ensures is { Answers P.Port
        (spec.assert_message (runner_for do_bodies calls.now.room) at message.now
        (world engine.old)) result
        engine.old engine.new port.old port.new }
    ensures keeps { OnOk result (kept engine.new ≡ kept engine.old) }
{
    let Some(e) = message else {
        let text = assertion_failed(engine.alloc())?;
        return Ok(engine.raise_text(State::ASSERT_FAILURE, text, None, None, at));
    };
    let found = text(calls, engine, port, at, Purpose::Assertion, e.get())?;
    match found {
        Ok(text) => Ok(engine.raise_text(State::ASSERT_FAILURE, text, None, None, at)),
        Err(end) => Ok(end),
    }
}

/// ASSERT: P0004 where the condition is false or null. The message is read only then.
pub fn assert<P: Port, R: BodyRunner>(
    calls: &Calls<'_, R>,
    engine: &mut Engine,
    port: &mut P,
    at: Spot,
    condition: &Expr,
    message: &Option<Boxed<Expr>>,
) -> Result<Outcome, Stop>
    requires room { (world engine.old).steps ≤ calls.now.room }
    requires fits { P.fits (world engine.old).last port.old }
    requires runs { R.runs calls.now.bodies.now calls.now.room }
    ensures is { Answers P.Port
        (spec.asserted (runner_for do_bodies calls.now.room) at condition.now message.now
        (world engine.old)) result
        engine.old engine.new port.old port.new }
    ensures keeps { OnOk result (kept engine.new ≡ kept engine.old) }
{
    let answer = test(calls, engine, port, at, condition)?;
    match truth_of(answer) {
        Ok(true) => Ok(Outcome::Next),
        Ok(false) => fail(calls, engine, port, at, message),
        Err(end) => Ok(end),
    }
}

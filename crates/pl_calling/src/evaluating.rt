//! The values of expressions: PostgreSQL manual, "PL/pgSQL", "Expressions".

ghost use Rattle.std.specs.Prelude.{◌≡◌, ◌≤◌, ◌++◌, OnOk};
ghost use Rattle.pl_calling.specs.Ends.{settles};
ghost use Rattle.pl_calling.specs.Reading.{read_beside};
ghost use Rattle.pl_engine.specs.Answers.{Answers};
ghost use Rattle.pl_engine.specs.Asks.{returned};
ghost use Rattle.pl_engine.specs.Engines.{kept, world};
ghost use Rattle.pl_engine.specs.Texts.{do_bodies};
ghost use Rattle.pl_engine.specs.pl_world.Expressions.{evaluated, value_over};
ghost use Rattle.pl_engine.specs.pl_world.Statements.{runner_for};
ghost use Rattle.pl_engine.specs.pl_world.Variables.{row_of};

use crate::calling::Calling;
use crate::copies::copies_for;
use crate::ending::{finish, settle};
use crate::lending::{row_beside, value_over};
use crate::start::Start;
use crate::trial::try_value;
use pl_base::{Fail, Value};
use pl_engine::pl_scope::ResolvedExpr;
use pl_engine::pl_world::Outcome;
use pl_engine::{BodyRunner, Calls, Engine, Port, Spot, Stop};
use pl_resolved::RExpr;
use std::marker::Brand;

// The value, or its error, where calls are reached.
fn value_with_calls<B: Start, P: Port, R: BodyRunner>(
    calls: &Calls<'_, R>,
    engine: &mut Engine,
    port: &mut P,
    at: Spot,
    e: &ResolvedExpr,
    beside: &[Value],
) -> Result<Result<Value, Fail>, Stop>
    requires begins { B.begin ≡ world engine.old }
    requires stays { B.stays ≡ kept engine.old }
    requires room { (world engine.old).steps ≤ calls.now.room }
    requires fits { P.fits (world engine.old).last port.old }
    requires runs { R.runs calls.now.bodies.now calls.now.room }
    ensures is { Answers P.Port
        (settles (value_over (runner_for do_bodies calls.now.room) at e.now
        (row_of (world engine.old).frame ++ beside.now) (world engine.old)) at) result
        engine.old engine.new port.old port.new }
    ensures keeps { OnOk result (kept engine.new ≡ kept engine.old) }
{
    let alloc = engine.alloc();
    let row = row_beside(&*engine, beside)?;
    let copies = copies_for::<Calling<'_, B, R>>(&*engine, &e.queries)?;
    let mut calling = Calling::<B, R>::begin(calls, engine, at);
    let answer = value_over(alloc, e, &copies, row.as_slice(), &mut calling);
    finish(engine, port, at, calling, answer)
}

// A call is what is reached first, so that there is nothing to be tried without calls.
fn begins_with_call(e: &RExpr) -> bool {
    match e {
        RExpr::Call { .. } => true,
        RExpr::Chain(chain) => matches!(chain.get().first, RExpr::Call { .. }),
        RExpr::Cast { operand, .. } => matches!(operand.get(), RExpr::Call { .. }),
        _ => false,
    }
}

// The value, or its error.
fn value_of<B: Start, P: Port, R: BodyRunner>(
    calls: &Calls<'_, R>,
    engine: &mut Engine,
    port: &mut P,
    at: Spot,
    e: &ResolvedExpr,
    beside: &[Value],
) -> Result<Result<Value, Fail>, Stop>
    requires begins { B.begin ≡ world engine.old }
    requires stays { B.stays ≡ kept engine.old }
    requires room { (world engine.old).steps ≤ calls.now.room }
    requires fits { P.fits (world engine.old).last port.old }
    requires runs { R.runs calls.now.bodies.now calls.now.room }
    ensures is { Answers P.Port
        (settles (value_over (runner_for do_bodies calls.now.room) at e.now
        (row_of (world engine.old).frame ++ beside.now) (world engine.old)) at) result
        engine.old engine.new port.old port.new }
    ensures keeps { OnOk result (kept engine.new ≡ kept engine.old) }
{
    if begins_with_call(e.typed.tree.get()) {
        return value_with_calls::<B, P, R>(calls, engine, port, at, e, beside);
    }
    let tried = try_value::<B>(calls.room, &*engine, at, e, beside);
    if tried.is_reached {
        return value_with_calls::<B, P, R>(calls, engine, port, at, e, beside);
    }
    match settle(&*engine, at, None, tried.answer) {
        Ok(end) => Ok(end),
        Err(_) => Err(Stop::Memory),
    }
}

/// The value of an expression, with further values behind the variables. Where no call of a routine
/// is reached, what is read is lent, and nothing is copied. Where one is, the expression is
/// evaluated once more, over copies of the variables and of the tables that it reads, and what its
/// calls print is held and printed behind it.
pub fn evaluate_beside<P: Port, R: BodyRunner>(
    calls: &Calls<'_, R>,
    engine: &mut Engine,
    port: &mut P,
    at: Spot,
    e: &ResolvedExpr,
    beside: &[Value],
) -> Result<Outcome, Stop>
    requires room { (world engine.old).steps ≤ calls.now.room }
    requires fits { P.fits (world engine.old).last port.old }
    requires runs { R.runs calls.now.bodies.now calls.now.room }
    ensures is { Answers P.Port
        (read_beside (runner_for do_bodies calls.now.room) at e.now beside.now
        (world engine.old)) result
        engine.old engine.new port.old port.new }
    ensures keeps { OnOk result (kept engine.new ≡ kept engine.old) }
{
    match value_of::<Brand, P, R>(calls, engine, port, at, e, beside) {
        Ok(Ok(v)) => Ok(Outcome::Return(v)),
        Ok(Err(f)) => Ok(Outcome::Fail(f)),
        Err(stop) => Err(stop),
    }
}

/// The value of an expression.
pub fn evaluate<P: Port, R: BodyRunner>(
    calls: &Calls<'_, R>,
    engine: &mut Engine,
    port: &mut P,
    at: Spot,
    e: &ResolvedExpr,
) -> Result<Outcome, Stop>
    requires room { (world engine.old).steps ≤ calls.now.room }
    requires fits { P.fits (world engine.old).last port.old }
    requires runs { R.runs calls.now.bodies.now calls.now.room }
    ensures is { Answers P.Port
        (evaluated (runner_for do_bodies calls.now.room) at e.now (world engine.old)
        returned) result
        engine.old engine.new port.old port.new }
    ensures keeps { OnOk result (kept engine.new ≡ kept engine.old) }
{
    evaluate_beside(calls, engine, port, at, e, &[])
}

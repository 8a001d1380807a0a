//! The arguments of a CALL: PostgreSQL manual, "CALL".

ghost use Rattle.std.specs.Prelude.{◌≡◌, ◌≤◌, OnOk};
ghost use Rattle.pl_calling.specs.Ends.{settles};
ghost use Rattle.pl_engine.specs.Answers.{Answers};
ghost use Rattle.pl_engine.specs.Engines.{kept, world};
ghost use Rattle.pl_engine.specs.Texts.{do_bodies};
ghost use Rattle.pl_engine.specs.pl_world.Statements.{runner_for};
ghost use Rattle.pl_engine.specs.pl_world.Transactions.{arguments_over};

use crate::calling::Calling;
use crate::ending::{finish, settle};
use crate::lending::values_over;
use crate::start::Start;
use crate::trial::try_values;
use pl_base::{Fail, List, Value};
use pl_engine::pl_change::copy_row;
use pl_engine::{BodyRunner, Calls, Engine, Port, Spot, Stop};
use pl_resolved::RExpr;
use std::marker::Brand;

// The values, or the error, where calls are reached.
fn values_with_calls<B: Start, P: Port, R: BodyRunner>(
    calls: &Calls<'_, R>,
    engine: &mut Engine,
    port: &mut P,
    at: Spot,
    list: &[RExpr],
) -> Result<Result<List<Value>, Fail>, Stop>
    requires begins { B.begin ≡ world engine.old }
    requires stays { B.stays ≡ kept engine.old }
    requires room { (world engine.old).steps ≤ calls.now.room }
    requires fits { P.fits (world engine.old).last port.old }
    requires runs { R.runs calls.now.bodies.now calls.now.room }
    ensures is { Answers P.Port
        (settles (arguments_over (runner_for do_bodies calls.now.room) at list.now
        (world engine.old)) at) result
        engine.old engine.new port.old port.new }
    ensures keeps { OnOk result (kept engine.new ≡ kept engine.old) }
{
    let alloc = engine.alloc();
    let row = copy_row(alloc, engine.values())?;
    let mut calling = Calling::<B, R>::begin(calls, engine, at);
    let answer = values_over(alloc, list, row.as_slice(), &mut calling);
    finish(engine, port, at, calling, answer)
}

// The values, or the error.
fn values_of<B: Start, P: Port, R: BodyRunner>(
    calls: &Calls<'_, R>,
    engine: &mut Engine,
    port: &mut P,
    at: Spot,
    list: &[RExpr],
) -> Result<Result<List<Value>, Fail>, Stop>
    requires begins { B.begin ≡ world engine.old }
    requires stays { B.stays ≡ kept engine.old }
    requires room { (world engine.old).steps ≤ calls.now.room }
    requires fits { P.fits (world engine.old).last port.old }
    requires runs { R.runs calls.now.bodies.now calls.now.room }
    ensures is { Answers P.Port
        (settles (arguments_over (runner_for do_bodies calls.now.room) at list.now
        (world engine.old)) at) result
        engine.old engine.new port.old port.new }
    ensures keeps { OnOk result (kept engine.new ≡ kept engine.old) }
{
    let tried = try_values::<B>(calls.room, &*engine, at, list);
    if tried.is_reached {
        return values_with_calls::<B, P, R>(calls, engine, port, at, list);
    }
    match settle(&*engine, at, None, tried.answer) {
        Ok(end) => Ok(end),
        Err(_) => Err(Stop::Memory),
    }
}

/// The values of the arguments, from left to right, or the error of the first that fails. No query
/// stands in them. Where a call of a routine is reached, they are evaluated once more, over a copy
/// of the variables, and what the calls print is held and printed behind them.
pub fn evaluate_all<P: Port, R: BodyRunner>(
    calls: &Calls<'_, R>,
    engine: &mut Engine,
    port: &mut P,
    at: Spot,
    list: &[RExpr],
) -> Result<Result<List<Value>, Fail>, Stop>
    requires room { (world engine.old).steps ≤ calls.now.room }
    requires fits { P.fits (world engine.old).last port.old }
    requires runs { R.runs calls.now.bodies.now calls.now.room }
    ensures is { Answers P.Port
        (settles (arguments_over (runner_for do_bodies calls.now.room) at list.now
        (world engine.old)) at) result
        engine.old engine.new port.old port.new }
    ensures keeps { OnOk result (kept engine.new ≡ kept engine.old) }
{
    values_of::<Brand, P, R>(calls, engine, port, at, list)
}

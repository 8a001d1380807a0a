//! The rows of queries within statements.

ghost use Rattle.std.specs.Prelude.{◌≡◌, ◌≤◌, OnOk};
ghost use Rattle.pl_calling.specs.Reading.{rows_read};
ghost use Rattle.pl_engine.specs.Answers.{Answers};
ghost use Rattle.pl_engine.specs.Engines.{kept, world};
ghost use Rattle.pl_engine.specs.Texts.{do_bodies};
ghost use Rattle.pl_engine.specs.pl_world.Statements.{runner_for};

use crate::calling::Calling;
use crate::copies::copies_for;
use crate::ending::{finish, settle};
use crate::lending::rows_over;
use crate::start::Start;
use crate::trial::try_rows;
use pl_base::{Cells, Fail, List};
use pl_engine::pl_change::copy_row;
use pl_engine::{BodyRunner, Calls, Engine, Port, Spot, Stop};
use pl_resolved::RQuery;
use std::marker::Brand;

// The rows, or the error, where calls are reached.
fn rows_with_calls<B: Start, P: Port, R: BodyRunner>(
    calls: &Calls<'_, R>,
    engine: &mut Engine,
    port: &mut P,
    at: Spot,
    queries: &List<RQuery>,
) -> Result<Result<List<Cells>, Fail>, Stop>
    requires begins { B.begin ≡ world engine.old }
    requires stays { B.stays ≡ kept engine.old }
    requires room { (world engine.old).steps ≤ calls.now.room }
    requires fits { P.fits (world engine.old).last port.old }
    requires runs { R.runs calls.now.bodies.now calls.now.room }
    ensures is { Answers P.Port
        (rows_read (runner_for do_bodies calls.now.room) at queries.now
        (world engine.old)) result
        engine.old engine.new port.old port.new }
    ensures keeps { OnOk result (kept engine.new ≡ kept engine.old) }
{
    let alloc = engine.alloc();
    let row = copy_row(alloc, engine.values())?;
    let copies = copies_for::<Calling<'_, B, R>>(&*engine, queries)?;
    let mut calling = Calling::<B, R>::begin(calls, engine, at);
    let answer = rows_over(alloc, queries, &copies, row.as_slice(), &mut calling);
    finish(engine, port, at, calling, answer)
}

// The rows, or the error.
fn rows_of<B: Start, P: Port, R: BodyRunner>(
    calls: &Calls<'_, R>,
    engine: &mut Engine,
    port: &mut P,
    at: Spot,
    queries: &List<RQuery>,
) -> Result<Result<List<Cells>, Fail>, Stop>
    requires begins { B.begin ≡ world engine.old }
    requires stays { B.stays ≡ kept engine.old }
    requires room { (world engine.old).steps ≤ calls.now.room }
    requires fits { P.fits (world engine.old).last port.old }
    requires runs { R.runs calls.now.bodies.now calls.now.room }
    ensures is { Answers P.Port
        (rows_read (runner_for do_bodies calls.now.room) at queries.now
        (world engine.old)) result
        engine.old engine.new port.old port.new }
    ensures keeps { OnOk result (kept engine.new ≡ kept engine.old) }
{
    let tried = try_rows::<B>(calls.room, &*engine, at, queries);
    if tried.is_reached {
        return rows_with_calls::<B, P, R>(calls, engine, port, at, queries);
    }
    match settle(&*engine, at, None, tried.answer) {
        Ok(end) => Ok(end),
        Err(_) => Err(Stop::Memory),
    }
}

/// The rows of the last of these queries, or the error. Where no call of a routine is reached, what
/// is read is lent. Where one is, the queries are run once more, over copies of the variables and
/// of the tables that they read, and what the calls print is held and printed behind them.
pub fn query<P: Port, R: BodyRunner>(
    calls: &Calls<'_, R>,
    engine: &mut Engine,
    port: &mut P,
    at: Spot,
    queries: &List<RQuery>,
) -> Result<Result<List<Cells>, Fail>, Stop>
    requires room { (world engine.old).steps ≤ calls.now.room }
    requires fits { P.fits (world engine.old).last port.old }
    requires runs { R.runs calls.now.bodies.now calls.now.room }
    ensures is { Answers P.Port
        (rows_read (runner_for do_bodies calls.now.room) at queries.now
        (world engine.old)) result
        engine.old engine.new port.old port.new }
    ensures keeps { OnOk result (kept engine.new ≡ kept engine.old) }
{
    rows_of::<Brand, P, R>(calls, engine, port, at, queries)
}

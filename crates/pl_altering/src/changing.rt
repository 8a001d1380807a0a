//! INSERT, UPDATE and DELETE: PostgreSQL manual, "Data Manipulation", "Returning Data from Modified
//! Rows".

ghost use Rattle.std.specs.Prelude.{◌≡◌, ◌≤◌, OnOk};
ghost use Rattle.pl_altering.specs.Ends.{changes, done_from};
ghost use Rattle.pl_altering.specs.Taking.{TakesRows};
ghost use Rattle.pl_querying.specs.pl_calling.Ends.{settles};
ghost use Rattle.pl_querying.specs.pl_engine.Answers.{Answers};
ghost use Rattle.pl_querying.specs.pl_engine.Engines.{kept, world};
ghost use Rattle.pl_querying.specs.pl_engine.Texts.{do_bodies};
ghost use Rattle.pl_world.specs.Statements.{runner_for};

use crate::command::{AROUND, Command};
use crate::keeping::rows_for;
use crate::running::run;
use crate::taking::{add_as_found, are_wide, width_taken};
use pl_base::{Cells, Fail, List};
use pl_query::{Queries, Store};
use pl_querying::pl_calling::{Calling, Start, copies_for, finish, try_rows};
use pl_querying::pl_engine::{BodyRunner, Calls, Engine, Moment, Port, Spot, Stop};
use pl_targets::RChange;
use pl_world::pl_change::copy_row;
use std::marker::Brand;

// The change, once it has begun. What its rows read is copied, and what its calls print is held and
// printed behind it.
fn change_rows<B: Start, P: Port, R: BodyRunner>(
    calls: &Calls<'_, R>,
    engine: &mut Engine,
    port: &mut P,
    at: Spot,
    change: &RChange,
) -> Result<Result<List<Cells>, Fail>, Stop>
    requires begins { B.begin ≡ world engine.old }
    requires stays { B.stays ≡ kept engine.old }
    requires room { (world engine.old).steps ≤ calls.now.room }
    requires fits { P.fits (world engine.old).last port.old }
    requires runs { R.runs calls.now.bodies.now calls.now.room }
    ensures is { Answers P.Port
        (settles (done_from (runner_for do_bodies calls.now.room) at change.now
        (world engine.old)) at) result
        engine.old engine.new port.old port.new }
    ensures keeps { OnOk result (kept engine.new ≡ kept engine.old) }
{
    let alloc = engine.alloc();
    let variables = copy_row(alloc, engine.values())?;
    let copies = copies_for::<Moment>(&*engine, &change.queries)?;
    let rows = rows_for(&*engine, change, variables.as_slice())?;
    let queries = change.queries.as_slice();
    let store = Store::new(alloc, &copies, &*queries, AROUND)?;
    let inside = Queries {
        list: &*queries,
        tables: &store,
    };
    let command = Command {
        alloc,
        change: &*change,
        variables: variables.as_slice(),
        at,
        room: calls.room,
    };
    let mut calling = Calling::<B, R>::begin(calls, engine, at);
    let answer = run(&command, &inside, rows, &mut calling);
    finish(engine, port, at, calling, answer)
}

// The rows of the query are read where they stand, and then written as they are. Where the query
// fails, or reaches a call, all is done anew over copies.
fn take_or_change<B: Start, P: Port, R: BodyRunner>(
    calls: &Calls<'_, R>,
    engine: &mut Engine,
    port: &mut P,
    at: Spot,
    change: &RChange,
    width: usize,
) -> Result<Result<List<Cells>, Fail>, Stop>
    requires begins { B.begin ≡ world engine.old }
    requires stays { B.stays ≡ kept engine.old }
    requires room { (world engine.old).steps ≤ calls.now.room }
    requires fits { P.fits (world engine.old).last port.old }
    requires runs { R.runs calls.now.bodies.now calls.now.room }
    requires takes { TakesRows change.now width }
    ensures is { Answers P.Port
        (settles (done_from (runner_for do_bodies calls.now.room) at change.now
        (world engine.old)) at) result
        engine.old engine.new port.old port.new }
    ensures keeps { OnOk result (kept engine.new ≡ kept engine.old) }
{
    let tried = try_rows::<B>(calls.room, &*engine, at, &change.queries);
    match tried.answer {
        Ok(found) => {
            if are_wide(found.as_slice(), width) {
                return add_as_found::<B, P, R>(calls, engine, port, at, change, found);
            }
            change_rows::<B, P, R>(calls, engine, port, at, change)
        }
        Err(_) => change_rows::<B, P, R>(calls, engine, port, at, change),
    }
}

// The rows of an INSERT's query are written as they are where that is what it says.
fn change_by<B: Start, P: Port, R: BodyRunner>(
    calls: &Calls<'_, R>,
    engine: &mut Engine,
    port: &mut P,
    at: Spot,
    change: &RChange,
) -> Result<Result<List<Cells>, Fail>, Stop>
    requires begins { B.begin ≡ world engine.old }
    requires stays { B.stays ≡ kept engine.old }
    requires room { (world engine.old).steps ≤ calls.now.room }
    requires fits { P.fits (world engine.old).last port.old }
    requires runs { R.runs calls.now.bodies.now calls.now.room }
    ensures is { Answers P.Port
        (settles (done_from (runner_for do_bodies calls.now.room) at change.now
        (world engine.old)) at) result
        engine.old engine.new port.old port.new }
    ensures keeps { OnOk result (kept engine.new ≡ kept engine.old) }
{
    match width_taken(change) {
        Some(width) => take_or_change::<B, P, R>(calls, engine, port, at, change, width),
        None => change_rows::<B, P, R>(calls, engine, port, at, change),
    }
}

// The same, with the table among those that are changed.
fn change_begun<P: Port, R: BodyRunner>(
    calls: &Calls<'_, R>,
    engine: &mut Engine,
    port: &mut P,
    at: Spot,
    change: &RChange,
) -> Result<Result<List<Cells>, Fail>, Stop>
    requires room { (world engine.old).steps ≤ calls.now.room }
    requires fits { P.fits (world engine.old).last port.old }
    requires runs { R.runs calls.now.bodies.now calls.now.room }
    ensures is { Answers P.Port
        (settles (done_from (runner_for do_bodies calls.now.room) at change.now
        (world engine.old)) at) result
        engine.old engine.new port.old port.new }
    ensures keeps { OnOk result (kept engine.new ≡ kept engine.old) }
{
    change_by::<Brand, P, R>(calls, engine, port, at, change)
}

/// Runs a change, and answers a row of RETURNING for each row that was written, an empty one where
/// there is no RETURNING: so their number is how many rows were changed. Its error is that of a
/// call that failed, or of one of its expressions, or of a row that breaks a rule, or 27000 where a
/// called routine has changed a row before its turn. What was written before it stays written.
pub fn change<P: Port, R: BodyRunner>(
    calls: &Calls<'_, R>,
    engine: &mut Engine,
    port: &mut P,
    at: Spot,
    change: &RChange,
) -> Result<Result<List<Cells>, Fail>, Stop>
    requires room { (world engine.old).steps ≤ calls.now.room }
    requires fits { P.fits (world engine.old).last port.old }
    requires runs { R.runs calls.now.bodies.now calls.now.room }
    ensures is { Answers P.Port
        (changes (runner_for do_bodies calls.now.room) at change.now (world engine.old)) result
        engine.old engine.new port.old port.new }
    ensures keeps { OnOk result (kept engine.new ≡ kept engine.old) }
{
    engine.begin_change(change.table)?;
    let end = change_begun(calls, engine, port, at, change)?;
    engine.end_change();
    Ok(end)
}

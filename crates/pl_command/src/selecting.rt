//! SELECT.

ghost use Rattle.std.specs.Prelude.{◌≡◌, ◌≤◌, IfOk, OnOk};
ghost use Rattle.pl_control.specs.pl_engine.Answers.{Answers};
ghost use Rattle.pl_control.specs.pl_engine.Engines.{Quiet, kept, world};
ghost use Rattle.pl_control.specs.pl_engine.Texts.{do_bodies};
ghost use Rattle.pl_command.specs.Shown.{selected, shows};
ghost use Rattle.pl_world.specs.Sessions as spec;
ghost use Rattle.pl_world.specs.Statements.{runner_for};

use crate::grids::{grid_of, has_long, heads_of};
use crate::replies::{failed, fails, top};
use crate::resolving::query_of;
use pl_base::{Cells, List, Memory, State};
use pl_control::pl_calling::query;
use pl_control::pl_engine::{BodyRunner, Calls, Engine, Port, Stop};
use pl_resolved::{Head, RQuery};
use pl_tree::Query;
use pl_typing::ScopeFail;
use pl_world::Reply;

// The rows as they are printed, unless one of their texts is too long.
fn show(engine: &Engine, heads: &[Head], rows: List<Cells>) -> Result<Reply, Memory>
    ensures { IfOk result (λ answer. Quiet (shows heads.now rows (world engine.now)) answer
        engine.now engine.now) }
{
    let alloc = engine.alloc();
    if has_long(alloc, rows.as_slice())? {
        return Ok(fails(engine, State::PROGRAM_LIMIT_EXCEEDED));
    }
    Ok(Reply {
        tag: None,
        grid: Some(grid_of(alloc, heads, rows)?),
        fail: None,
    })
}

// The rows of a query, whose names are resolved.
fn select_rows<P: Port, R: BodyRunner>(
    calls: &Calls<'_, R>,
    engine: &mut Engine,
    port: &mut P,
    queries: &List<RQuery>,
) -> Result<Reply, Stop>
    requires room { (world engine.old).steps ≤ calls.now.room }
    requires fits { P.fits (world engine.old).last port.old }
    requires runs { R.runs calls.now.bodies.now calls.now.room }
    ensures is { Answers P.Port
        (selected (runner_for do_bodies calls.now.room) queries.now (world engine.old)) result
        engine.old engine.new port.old port.new }
    ensures keeps { OnOk result (kept engine.new ≡ kept engine.old) }
{
    let found = query(calls, engine, port, top(), queries)?;
    match found {
        Ok(rows) => Ok(show(&*engine, heads_of(queries), rows)?),
        Err(f) => Ok(failed(f)),
    }
}

/// SELECT: its rows.
pub(crate) fn select<P: Port, R: BodyRunner>(
    calls: &Calls<'_, R>,
    engine: &mut Engine,
    port: &mut P,
    q: &Query,
) -> Result<Reply, Stop>
    requires room { (world engine.old).steps ≤ calls.now.room }
    requires fits { P.fits (world engine.old).last port.old }
    requires runs { R.runs calls.now.bodies.now calls.now.room }
    ensures is { Answers P.Port
        (spec.selects (runner_for do_bodies calls.now.room) q.now (world engine.old)) result
        engine.old engine.new port.old port.new }
    ensures keeps { OnOk result (kept engine.new ≡ kept engine.old) }
{
    match query_of(&*engine, q) {
        Ok(queries) => select_rows(calls, engine, port, queries.get()),
        Err(ScopeFail::State(state)) => Ok(fails(&*engine, state)),
        Err(ScopeFail::Memory) => Err(Stop::Memory),
    }
}

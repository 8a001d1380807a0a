//! INSERT, UPDATE and DELETE.

ghost use Rattle.std.specs.Prelude.{◌≡◌, ◌≤◌, IfOk, OnOk};
ghost use Rattle.pl_command.specs.Shown.{made_change, shows_change};
ghost use Rattle.pl_control.specs.pl_engine.Answers.{Answers};
ghost use Rattle.pl_control.specs.pl_engine.Engines.{Quiet, kept, world};
ghost use Rattle.pl_control.specs.pl_engine.Texts.{do_bodies};
ghost use Rattle.pl_world.specs.Changing as changing;
ghost use Rattle.pl_world.specs.Sessions as spec;
ghost use Rattle.pl_world.specs.Statements.{runner_for};

use crate::grids::{grid_of, has_long};
use crate::replies::{failed, fails, top};
use crate::resolving::change_of;
use pl_altering::change;
use pl_altering::pl_targets::{RChange, RWhat};
use pl_base::{Cells, List, Memory, State};
use pl_bodies::Change;
use pl_control::pl_engine::{BodyRunner, Calls, Engine, Port, Stop};
use pl_print::{Grid, Tag};
use pl_resolved::Head;
use pl_typing::ScopeFail;
use pl_world::Reply;
use std::alloc::Global;

// The tag of a change of so many rows.
fn tag_of(what: &RWhat, count: u64) -> Tag
    ensures { result ≡ changing.tag_of what.now count }
{
    match what {
        RWhat::Insert(_) => Tag::Insert(count),
        RWhat::Update { .. } => Tag::Update(count),
        RWhat::Delete { .. } => Tag::Delete(count),
    }
}

// The rows of RETURNING, where there is one.
fn returning_grid(alloc: Global, heads: &[Head], rows: List<Cells>) -> Result<Option<Grid>, Memory>
    ensures { IfOk result (λ grid. grid ≡ spec.returning_grid heads.now rows) }
{
    match heads {
        [] => Ok(None),
        [_, ..] => Ok(Some(grid_of(alloc, heads, rows)?)),
    }
}

// The tag, and the rows of RETURNING, unless one of their texts is too long to be printed.
fn show_change(engine: &Engine, c: &RChange, rows: List<Cells>) -> Result<Reply, Memory>
    ensures { IfOk result (λ answer. Quiet (shows_change c.now rows (world engine.now)) answer
        engine.now engine.now) }
{
    let alloc = engine.alloc();
    if has_long(alloc, rows.as_slice())? {
        return Ok(fails(engine, State::PROGRAM_LIMIT_EXCEEDED));
    }
    let tag = tag_of(&c.what, rows.len() as u64);
    Ok(Reply {
        tag: Some(tag),
        grid: returning_grid(alloc, c.heads.as_slice(), rows)?,
        fail: None,
    })
}

// A change whose names are resolved.
fn change_rows<P: Port, R: BodyRunner>(
    calls: &Calls<'_, R>,
    engine: &mut Engine,
    port: &mut P,
    c: &RChange,
) -> Result<Reply, Stop>
    requires room { (world engine.old).steps ≤ calls.now.room }
    requires fits { P.fits (world engine.old).last port.old }
    requires runs { R.runs calls.now.bodies.now calls.now.room }
    ensures is { Answers P.Port
        (made_change (runner_for do_bodies calls.now.room) c.now (world engine.old)) result
        engine.old engine.new port.old port.new }
    ensures keeps { OnOk result (kept engine.new ≡ kept engine.old) }
{
    let made = change(calls, engine, port, top(), c)?;
    match made {
        Ok(rows) => Ok(show_change(&*engine, c, rows)?),
        Err(f) => Ok(failed(f)),
    }
}

/// INSERT, UPDATE or DELETE. What it wrote before an error is still there.
pub(crate) fn alter<P: Port, R: BodyRunner>(
    calls: &Calls<'_, R>,
    engine: &mut Engine,
    port: &mut P,
    c: &Change,
) -> Result<Reply, Stop>
    requires room { (world engine.old).steps ≤ calls.now.room }
    requires fits { P.fits (world engine.old).last port.old }
    requires runs { R.runs calls.now.bodies.now calls.now.room }
    ensures is { Answers P.Port
        (spec.changes (runner_for do_bodies calls.now.room) c.now (world engine.old)) result
        engine.old engine.new port.old port.new }
    ensures keeps { OnOk result (kept engine.new ≡ kept engine.old) }
{
    match change_of(&*engine, c) {
        Ok(resolved) => change_rows(calls, engine, port, resolved.get()),
        Err(ScopeFail::State(state)) => Ok(fails(&*engine, state)),
        Err(ScopeFail::Memory) => Err(Stop::Memory),
    }
}

//! Replies, and their lines.

ghost use Rattle.std.specs.Prelude.{◌≡◌, ◌++◌, IfOk};
ghost use Rattle.pl_command.specs.Lines.{lines_of};
ghost use Rattle.pl_control.specs.pl_engine.Engines.{world};
ghost use Rattle.pl_world.specs.Errors.{failure};
ghost use Rattle.pl_world.specs.Scripts as scripts;
ghost use Rattle.pl_world.specs.Sessions as spec;
ghost use Rattle.pl_world.specs.World.{World, ends};

use pl_base::{Bytes, Fail, Memory, State};
use pl_control::pl_engine::{Engine, Spot};
use pl_print::{Grid, Tag};
use pl_world::{Outcome, Reply};
use std::alloc::Global;

/// Where an error stands that arises in no routine.
pub(crate) fn top() -> Spot
    ensures { result ≡ spec.top }
{
    Spot {
        line: 1,
        ordinal: 0,
    }
}

/// It is done.
pub(crate) fn tagged(tag: Tag) -> Reply
    ensures { result ≡ spec.tagged tag }
{
    Reply {
        tag: Some(tag),
        grid: None,
        fail: None,
    }
}

/// It failed.
pub(crate) fn failed(fail: Fail) -> Reply
    ensures { result ≡ spec.failed fail }
{
    Reply {
        tag: None,
        grid: None,
        fail: Some(fail),
    }
}

/// It failed with this SQLSTATE, in no routine.
pub(crate) fn fails(engine: &Engine, state: State) -> Reply
    ensures { result ≡ spec.failed (failure state spec.top (world engine.now)) }
{
    failed(engine.failure(state, top()))
}

/// What a command answers whose body ended so.
pub(crate) fn ran_body(tag: Tag, end: Outcome) -> Reply
    ensures { (w : World) → spec.ran_body tag end w ≡ ends result w }
{
    match end {
        Outcome::Fail(fail) => failed(fail),
        Outcome::Next => tagged(tag),
        Outcome::Exit(_) => tagged(tag),
        Outcome::Continue(_) => tagged(tag),
        Outcome::Return(_) => tagged(tag),
    }
}

// ---- lines

fn grid_lines(alloc: Global, grid: &Option<Grid>) -> Result<Bytes, Memory>
    ensures { IfOk result (λ lines. lines ≡ scripts.grid_lines grid.now) }
{
    match grid {
        Some(rows) => pl_print::grid(alloc, rows),
        None => Ok(Bytes::from_vec(Vec::new(alloc))),
    }
}

fn tag_lines(alloc: Global, tag: &Option<Tag>) -> Result<Bytes, Memory>
    ensures { IfOk result (λ lines. lines ≡ scripts.tag_lines tag.now) }
{
    match tag {
        Some(done) => pl_print::tag(alloc, done),
        None => Ok(Bytes::from_vec(Vec::new(alloc))),
    }
}

// The rows, and the tag behind them.
fn done_lines(alloc: Global, grid: &Option<Grid>, tag: &Option<Tag>) -> Result<Bytes, Memory>
    ensures { IfOk result (λ lines.
        lines ≡ scripts.grid_lines grid.now ++ scripts.tag_lines tag.now) }
{
    let mut lines = grid_lines(alloc, grid)?;
    lines.append(tag_lines(alloc, tag)?)?;
    Ok(lines)
}

/// The lines of a reply, each with its newline.
pub fn reply_lines(alloc: Global, reply: &Reply) -> Result<Bytes, Memory>
    ensures { IfOk result (λ lines. lines ≡ lines_of reply.now) }
{
    match &reply.fail {
        Some(fail) => pl_print::fail(alloc, fail),
        None => done_lines(alloc, &reply.grid, &reply.tag),
    }
}

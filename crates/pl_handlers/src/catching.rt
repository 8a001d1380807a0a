//! Errors that handlers catch: PostgreSQL manual, "PL/pgSQL", "Trapping Errors".

ghost use Rattle.std.specs.Prelude.{◌≡◌, ◌<◌, ◌≤◌, OnOk};
ghost use Rattle.std.specs.Option.{option_copied};
ghost use Rattle.pl_bodies.specs.declared.statement.Block.{out-Block};
ghost use Rattle.pl_flow.specs.pl_engine.Answers.{Answers};
ghost use Rattle.pl_flow.specs.pl_engine.Engines.{kept, world};
ghost use Rattle.pl_flow.specs.pl_engine.Handling.{kept_at, with_marks};
ghost use Rattle.pl_flow.specs.pl_engine.Runs.{Runs};
ghost use Rattle.pl_flow.specs.pl_engine.Texts.{do_bodies};
ghost use Rattle.pl_conditions.specs.pl_world.Blocks as spec;
ghost use Rattle.pl_conditions.specs.pl_world.Running as running;
ghost use Rattle.pl_conditions.specs.pl_world.Statements.{runner_for};
ghost use Rattle.pl_conditions.specs.pl_world.World.{and_then};
ghost use Rattle.pl_conditions.specs.pl_world.declared.outcome.Outcome.TheVariants as outcome;

use pl_base::{Fail, List, Name};
use pl_bodies::{Block, Handler, Statement};
use pl_conditions::matches_one;
use pl_conditions::pl_world::Outcome;
use pl_flow::pl_engine::{Engine, Port, Runner, Stop, Task, all};
use pl_undo::Mark;

// The statements of the first handler that catches the error.
fn handler_for<'h>(mut handlers: &'h [Handler], f: &Fail) -> Option<&'h List<Statement>>
    ensures { option_copied result ≡ spec.handler_for handlers.entry.now f.now }
{
    while let [handler, rest @ ..] = handlers {
        if matches_one(handler.conditions.as_slice(), f) {
            return Some(&handler.statements);
        }
        handlers = rest;
    }
    None
}

// A handler with the error that it catches, in the database at the mark.
fn handle<P: Port, F>(
    runner: &Runner<F>,
    engine: &mut Engine,
    port: &mut P,
    mark: Mark,
    label: Option<Name>,
    statements: &[Statement],
    f: Fail,
) -> Result<Outcome, Stop>
where
    F: Fn(u64, &mut Engine, &mut P, Task<'_>) -> Result<Outcome, Stop>,
    requires room { (world engine.old).steps ≤ runner.now.room }
    requires fits { P.fits (world engine.old).last port.old }
    requires runs { Runs P.Port runner.now.room (F.pre runner.now.run) (F.post runner.now.run) }
    requires live { mark.at < (world engine.old).depth }
    ensures is { Answers P.Port
        (and_then (running.all (runner_for do_bodies runner.now.room) statements.now
        (spec.handling label (kept_at mark.at engine.old) f (world engine.old)))
        spec.handled_end) result
        engine.old engine.new port.old port.new }
    ensures keeps { OnOk result (kept engine.new ≡ with_marks mark.at (kept engine.old)) }
{
    engine.begin_handler(mark, label, f)?;
    let end = all(runner, engine, port, statements)?;
    engine.end_handler();
    Ok(end)
}

// The protected statements of the block ended with the error.
fn catch_error<P: Port, F>(
    runner: &Runner<F>,
    engine: &mut Engine,
    port: &mut P,
    block: &Block,
    mark: Mark,
    f: Fail,
) -> Result<Outcome, Stop>
where
    F: Fn(u64, &mut Engine, &mut P, Task<'_>) -> Result<Outcome, Stop>,
    requires room { (world engine.old).steps ≤ runner.now.room }
    requires fits { P.fits (world engine.old).last port.old }
    requires runs { Runs P.Port runner.now.room (F.pre runner.now.run) (F.post runner.now.run) }
    requires live { mark.at < (world engine.old).depth }
    ensures is { Answers P.Port
        (spec.caught (runner_for do_bodies runner.now.room) (out-Block block.now).label
        (out-Block block.now).handlers (kept_at mark.at engine.old) (outcome.Fail f)
        (world engine.old)) result
        engine.old engine.new port.old port.new }
    ensures keeps { OnOk result (kept engine.new ≡ with_marks mark.at (kept engine.old)) }
{
    match handler_for(block.handlers.as_slice(), &f) {
        Some(statements) => {
            let statements = statements.as_slice();
            handle(runner, engine, port, mark, block.label, statements, f)
        }
        None => {
            engine.unprotect(mark);
            Ok(Outcome::Fail(f))
        }
    }
}

/// The statements of the block, which were protected since the mark, ended so. An error is handled
/// by the first handler that catches it.
pub(crate) fn catch<P: Port, F>(
    runner: &Runner<F>,
    engine: &mut Engine,
    port: &mut P,
    block: &Block,
    mark: Mark,
    end: Outcome,
) -> Result<Outcome, Stop>
where
    F: Fn(u64, &mut Engine, &mut P, Task<'_>) -> Result<Outcome, Stop>,
    requires room { (world engine.old).steps ≤ runner.now.room }
    requires fits { P.fits (world engine.old).last port.old }
    requires runs { Runs P.Port runner.now.room (F.pre runner.now.run) (F.post runner.now.run) }
    requires live { mark.at < (world engine.old).depth }
    ensures is { Answers P.Port
        (spec.caught (runner_for do_bodies runner.now.room) (out-Block block.now).label
        (out-Block block.now).handlers (kept_at mark.at engine.old) end (world engine.old)) result
        engine.old engine.new port.old port.new }
    ensures keeps { OnOk result (kept engine.new ≡ with_marks mark.at (kept engine.old)) }
{
    match end {
        Outcome::Fail(f) => catch_error(runner, engine, port, block, mark, f),
        other => {
            engine.unprotect(mark);
            Ok(other)
        }
    }
}

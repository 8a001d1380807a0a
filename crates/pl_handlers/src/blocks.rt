//! Blocks: PostgreSQL manual, "PL/pgSQL", "Structure of PL/pgSQL".

ghost use Rattle.std.specs.Prelude.{◌≡◌, ◌≤◌, OnOk};
ghost use Rattle.pl_flow.specs.pl_engine.Answers.{Answers};
ghost use Rattle.pl_flow.specs.pl_engine.Engines.{kept, world};
ghost use Rattle.pl_flow.specs.pl_engine.Runs.{Runs};
ghost use Rattle.pl_flow.specs.pl_engine.Texts.{do_bodies};
ghost use Rattle.pl_conditions.specs.pl_world.Blocks as spec;
ghost use Rattle.pl_conditions.specs.pl_world.Statements.{runner_for};

use crate::protecting::protected;
use pl_bodies::Block;
use pl_conditions::pl_world::Outcome;
use pl_flow::pl_engine::{Engine, Port, Runner, Spot, Stop, Task};
use pl_flow::{block_end, declare};

// The declarations, and then the statements. No handler catches an error of the declarations.
fn within<P: Port, F>(
    runner: &Runner<F>,
    engine: &mut Engine,
    port: &mut P,
    at: Spot,
    block: &Block,
) -> Result<Outcome, Stop>
where
    F: Fn(u64, &mut Engine, &mut P, Task<'_>) -> Result<Outcome, Stop>,
    requires room { (world engine.old).steps ≤ runner.now.room }
    requires fits { P.fits (world engine.old).last port.old }
    requires runs { Runs P.Port runner.now.room (F.pre runner.now.run) (F.post runner.now.run) }
    ensures is { Answers P.Port
        (spec.within_block (runner_for do_bodies runner.now.room) at block.now
        (world engine.old)) result
        engine.old engine.new port.old port.new }
    ensures keeps { OnOk result (kept engine.new ≡ kept engine.old) }
{
    match declare(runner, engine, port, at, block.declarations.as_slice())? {
        Outcome::Next => protected(runner, engine, port, block),
        other => Ok(other),
    }
}

/// A block. Its variables are gone behind it. Where one of its handlers catches an error of its
/// statements, the database is as it was before them, and the variables are as the error left them.
pub fn block<P: Port, F>(
    runner: &Runner<F>,
    engine: &mut Engine,
    port: &mut P,
    at: Spot,
    block: &Block,
) -> Result<Outcome, Stop>
where
    F: Fn(u64, &mut Engine, &mut P, Task<'_>) -> Result<Outcome, Stop>,
    requires room { (world engine.old).steps ≤ runner.now.room }
    requires fits { P.fits (world engine.old).last port.old }
    requires runs { Runs P.Port runner.now.room (F.pre runner.now.run) (F.post runner.now.run) }
    ensures is { Answers P.Port
        (spec.block (runner_for do_bodies runner.now.room) at block.now (world engine.old)) result
        engine.old engine.new port.old port.new }
    ensures keeps { OnOk result (kept engine.new ≡ kept engine.old) }
{
    engine.open(block.label)?;
    let end = within(runner, engine, port, at, block)?;
    engine.close();
    Ok(block_end(&block.label, end))
}

//! Statements that handlers protect: PostgreSQL manual, "PL/pgSQL", "Trapping Errors".

ghost use Rattle.std.specs.Prelude.{◌≡◌, ◌≤◌, OnOk};
ghost use Rattle.pl_bodies.specs.declared.statement.Block.{out-Block};
ghost use Rattle.pl_flow.specs.pl_engine.Answers.{Answers};
ghost use Rattle.pl_flow.specs.pl_engine.Engines.{kept, world};
ghost use Rattle.pl_flow.specs.pl_engine.Runs.{Runs};
ghost use Rattle.pl_flow.specs.pl_engine.Texts.{do_bodies};
ghost use Rattle.pl_conditions.specs.pl_world.Blocks as spec;
ghost use Rattle.pl_conditions.specs.pl_world.Statements.{runner_for};

use crate::catching::catch;
use pl_bodies::Block;
use pl_conditions::pl_world::Outcome;
use pl_flow::pl_engine::{Engine, Port, Runner, Stop, Task, all};

/// The statements of a block, which its handlers protect if it has any.
pub(crate) fn protected<P: Port, F>(
    runner: &Runner<F>,
    engine: &mut Engine,
    port: &mut P,
    block: &Block,
) -> Result<Outcome, Stop>
where
    F: Fn(u64, &mut Engine, &mut P, Task<'_>) -> Result<Outcome, Stop>,
    requires room { (world engine.old).steps ≤ runner.now.room }
    requires fits { P.fits (world engine.old).last port.old }
    requires runs { Runs P.Port runner.now.room (F.pre runner.now.run) (F.post runner.now.run) }
    ensures is { Answers P.Port
        (spec.protected (runner_for do_bodies runner.now.room) (out-Block block.now).label
        (out-Block block.now).statements (out-Block block.now).handlers (world engine.old)) result
        engine.old engine.new port.old port.new }
    ensures keeps { OnOk result (kept engine.new ≡ kept engine.old) }
{
    let statements = block.statements.as_slice();
    if block.handlers.is_empty() {
        return all(runner, engine, port, statements);
    }
    let mark = engine.protect()?;
    let end = all(runner, engine, port, statements)?;
    catch(runner, engine, port, block, mark, end)
}

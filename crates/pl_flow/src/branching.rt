//! IF: PostgreSQL manual, "PL/pgSQL", "Conditionals".

ghost use Rattle.std.specs.Prelude.{◌≡◌, ◌≤◌, OnOk};
ghost use Rattle.pl_engine.specs.Answers.{Answers};
ghost use Rattle.pl_engine.specs.Engines.{kept, world};
ghost use Rattle.pl_engine.specs.Runs.{Runs};
ghost use Rattle.pl_engine.specs.Texts.{do_bodies};
ghost use Rattle.pl_engine.specs.pl_world.Control as spec;
ghost use Rattle.pl_engine.specs.pl_world.Running as running;
ghost use Rattle.pl_engine.specs.pl_world.Statements.{runner_for};

use crate::answered::truth_of;
use pl_base::Boxed;
use pl_bodies::{Branch, Otherwise};
use pl_engine::pl_world::Outcome;
use pl_engine::{Ask, Engine, Port, Runner, Spot, Stop, Task, all, ask};

// The statements of ELSE, if there is one.
fn otherwise<P: Port, F>(
    runner: &Runner<F>,
    engine: &mut Engine,
    port: &mut P,
    otherwise: &Option<Boxed<Otherwise>>,
) -> Result<Outcome, Stop>
where
    F: Fn(u64, &mut Engine, &mut P, Task<'_>) -> Result<Outcome, Stop>,
    requires room { (world engine.old).steps ≤ runner.now.room }
    requires fits { P.fits (world engine.old).last port.old }
    requires runs { Runs P.Port runner.now.room (F.pre runner.now.run) (F.post runner.now.run) }
    ensures is { Answers P.Port
        (running.all (runner_for do_bodies runner.now.room) (spec.else_of otherwise.now)
        (world engine.old)) result
        engine.old engine.new port.old port.new }
    ensures keeps { OnOk result (kept engine.new ≡ kept engine.old) }
{
    match otherwise {
        Some(otherwise) => all(runner, engine, port, otherwise.get().statements.as_slice()),
        None => Ok(Outcome::Next),
    }
}

/// IF: the statements of the first branch whose condition is true, or else those of ELSE.
pub fn branches<P: Port, F>(
    runner: &Runner<F>,
    engine: &mut Engine,
    port: &mut P,
    at: Spot,
    branches: &[Branch],
    or_else: &Option<Boxed<Otherwise>>,
) -> Result<Outcome, Stop>
where
    F: Fn(u64, &mut Engine, &mut P, Task<'_>) -> Result<Outcome, Stop>,
    requires room { (world engine.old).steps ≤ runner.now.room }
    requires fits { P.fits (world engine.old).last port.old }
    requires runs { Runs P.Port runner.now.room (F.pre runner.now.run) (F.post runner.now.run) }
    ensures is { Answers P.Port
        (spec.branches (runner_for do_bodies runner.now.room) at branches.now or_else.now
        (world engine.old)) result
        engine.old engine.new port.old port.new }
    ensures keeps { OnOk result (kept engine.new ≡ kept engine.old) }
{
    for branch in branches {
        let answer = ask(runner, engine, port, at, Ask::Test(&branch.condition))?;
        match truth_of(answer) {
            Ok(true) => return all(runner, engine, port, branch.statements.as_slice()),
            Ok(false) => {}
            Err(end) => return Ok(end),
        }
    }
    otherwise(runner, engine, port, or_else)
}

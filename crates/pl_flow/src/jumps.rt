//! EXIT and CONTINUE: PostgreSQL manual, "PL/pgSQL", "Simple Loops".

ghost use Rattle.std.specs.Prelude.{◌≡◌, ◌≤◌, OnOk};
ghost use Rattle.pl_engine.specs.Answers.{Answers};
ghost use Rattle.pl_engine.specs.Engines.{kept, world};
ghost use Rattle.pl_engine.specs.Runs.{Runs};
ghost use Rattle.pl_engine.specs.Texts.{do_bodies};
ghost use Rattle.pl_engine.specs.pl_world.Control as spec;
ghost use Rattle.pl_engine.specs.pl_world.Statements.{runner_for};

use crate::answered::truth_of;
use pl_base::{Boxed, Name};
use pl_bodies::Jump;
use pl_engine::pl_world::Outcome;
use pl_engine::{Ask, Engine, Port, Runner, Spot, Stop, Task, ask};
use pl_tree::Expr;

fn jumped(jump: Jump, label: Option<Name>) -> Outcome
    ensures { result ≡ spec.jumped jump label }
{
    match jump {
        Jump::Exit => Outcome::Exit(label),
        Jump::Continue => Outcome::Continue(label),
    }
}

/// EXIT or CONTINUE, where its condition is true or none is written.
pub fn jump<P: Port, F>(
    runner: &Runner<F>,
    engine: &mut Engine,
    port: &mut P,
    at: Spot,
    jump: Jump,
    label: Option<Name>,
    condition: &Option<Boxed<Expr>>,
) -> Result<Outcome, Stop>
where
    F: Fn(u64, &mut Engine, &mut P, Task<'_>) -> Result<Outcome, Stop>,
    requires room { (world engine.old).steps ≤ runner.now.room }
    requires fits { P.fits (world engine.old).last port.old }
    requires runs { Runs P.Port runner.now.room (F.pre runner.now.run) (F.post runner.now.run) }
    ensures is { Answers P.Port
        (spec.jumps (runner_for do_bodies runner.now.room) at jump label condition.now
        (world engine.old)) result
        engine.old engine.new port.old port.new }
    ensures keeps { OnOk result (kept engine.new ≡ kept engine.old) }
{
    let Some(condition) = condition else {
        return Ok(jumped(jump, label));
    };
    let answer = ask(runner, engine, port, at, Ask::Test(condition.get()))?;
    match truth_of(answer) {
        Ok(true) => Ok(jumped(jump, label)),
        Ok(false) => Ok(Outcome::Next),
        Err(end) => Ok(end),
    }
}

//! CASE with conditions: PostgreSQL manual, "PL/pgSQL", "Conditionals".

ghost use Rattle.std.specs.Prelude.{◌≡◌, ◌≤◌, OnOk};
ghost use Rattle.pl_engine.specs.Answers.{Answers};
ghost use Rattle.pl_engine.specs.Engines.{kept, world};
ghost use Rattle.pl_engine.specs.Runs.{Runs};
ghost use Rattle.pl_engine.specs.Asks.{truth};
ghost use Rattle.pl_engine.specs.Texts.{do_bodies};
ghost use Rattle.pl_engine.specs.pl_world.Control as spec;
ghost use Rattle.pl_engine.specs.pl_world.Statements.{runner_for};

use crate::answered::truth_of;
use pl_base::{Boxed, State};
use pl_bodies::{CaseArm, Otherwise};
use pl_engine::pl_world::Outcome;
use pl_engine::{Ask, Engine, Port, Runner, Spot, Stop, Task, all, ask};
use pl_tree::Expr;

/// CASE that finds no arm: the statements of ELSE. 20000 where there is none.
pub fn not_found<P: Port, F>(
    runner: &Runner<F>,
    engine: &mut Engine,
    port: &mut P,
    at: Spot,
    otherwise: &Option<Boxed<Otherwise>>,
) -> Result<Outcome, Stop>
where
    F: Fn(u64, &mut Engine, &mut P, Task<'_>) -> Result<Outcome, Stop>,
    requires room { (world engine.old).steps ≤ runner.now.room }
    requires fits { P.fits (world engine.old).last port.old }
    requires runs { Runs P.Port runner.now.room (F.pre runner.now.run) (F.post runner.now.run) }
    ensures is { Answers P.Port
        (spec.not_found (runner_for do_bodies runner.now.room) at otherwise.now
        (world engine.old)) result
        engine.old engine.new port.old port.new }
    ensures keeps { OnOk result (kept engine.new ≡ kept engine.old) }
{
    match otherwise {
        Some(otherwise) => all(runner, engine, port, otherwise.get().statements.as_slice()),
        None => Ok(engine.raise(State::CASE_NOT_FOUND, at)),
    }
}

// Whether the condition of an arm is true. It has one condition.
fn test_one<P: Port, F>(
    runner: &Runner<F>,
    engine: &mut Engine,
    port: &mut P,
    at: Spot,
    values: &[Expr],
) -> Result<Outcome, Stop>
where
    F: Fn(u64, &mut Engine, &mut P, Task<'_>) -> Result<Outcome, Stop>,
    requires room { (world engine.old).steps ≤ runner.now.room }
    requires fits { P.fits (world engine.old).last port.old }
    requires runs { Runs P.Port runner.now.room (F.pre runner.now.run) (F.post runner.now.run) }
    ensures is { Answers P.Port
        (spec.tested_one (runner_for do_bodies runner.now.room) at values.now
        (world engine.old) truth) result
        engine.old engine.new port.old port.new }
    ensures keeps { OnOk result (kept engine.new ≡ kept engine.old) }
{
    if values.len() == 1 {
        return ask(runner, engine, port, at, Ask::Test(&values[0]));
    }
    Ok(engine.raise(State::SYNTAX_ERROR, at))
}

/// CASE without an operand: the statements of the first arm whose condition is true, or those of
/// ELSE.
pub fn searched<P: Port, F>(
    runner: &Runner<F>,
    engine: &mut Engine,
    port: &mut P,
    at: Spot,
    arms: &[CaseArm],
    otherwise: &Option<Boxed<Otherwise>>,
) -> Result<Outcome, Stop>
where
    F: Fn(u64, &mut Engine, &mut P, Task<'_>) -> Result<Outcome, Stop>,
    requires room { (world engine.old).steps ≤ runner.now.room }
    requires fits { P.fits (world engine.old).last port.old }
    requires runs { Runs P.Port runner.now.room (F.pre runner.now.run) (F.post runner.now.run) }
    ensures is { Answers P.Port
        (spec.searched (runner_for do_bodies runner.now.room) at arms.now otherwise.now
        (world engine.old)) result
        engine.old engine.new port.old port.new }
    ensures keeps { OnOk result (kept engine.new ≡ kept engine.old) }
{
    for arm in arms {
        let answer = test_one(runner, engine, port, at, arm.values.as_slice())?;
        match truth_of(answer) {
            Ok(true) => return all(runner, engine, port, arm.statements.as_slice()),
            Ok(false) => {}
            Err(end) => return Ok(end),
        }
    }
    not_found(runner, engine, port, at, otherwise)
}

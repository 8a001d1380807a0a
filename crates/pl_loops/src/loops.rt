//! LOOP and WHILE: PostgreSQL manual, "PL/pgSQL", "Simple Loops".

ghost use Rattle.std.specs.Prelude.{◌≡◌, ◌≤◌, OnOk};
ghost use Rattle.pl_engine.specs.Answers.{Answers};
ghost use Rattle.pl_engine.specs.Engines.{kept, world};
ghost use Rattle.pl_engine.specs.Runs.{Runs};
ghost use Rattle.pl_engine.specs.Texts.{do_bodies};
ghost use Rattle.pl_loops.specs.Turns as spec;
ghost use Rattle.pl_engine.specs.pl_world.Control as control;
ghost use Rattle.pl_engine.specs.pl_world.Statements.{runner_for};

use crate::at_once::{round_at_once, turn_at_once};
use crate::turns::{going, turn};
use pl_base::{Name, State};
use pl_bodies::Statement;
use pl_engine::pl_world::Outcome;
use pl_engine::{Ask, Engine, Port, Runner, Spot, Stop, Task, ask};
use pl_flow::truth_of;
use pl_quick::Quick;
use pl_tree::Expr;

/// LOOP
pub fn forever<P: Port, F>(
    runner: &Runner<F>,
    engine: &mut Engine,
    port: &mut P,
    at: Spot,
    label: &Option<Name>,
    body: &[Statement],
) -> Result<Outcome, Stop>
where
    F: Fn(u64, &mut Engine, &mut P, Task<'_>) -> Result<Outcome, Stop>,
    requires room { (world engine.old).steps ≤ runner.now.room }
    requires fits { P.fits (world engine.old).last port.old }
    requires runs { Runs P.Port runner.now.room (F.pre runner.now.run) (F.post runner.now.run) }
    ensures is { Answers P.Port
        (control.loop (runner_for do_bodies runner.now.room) at label.now control.forever body.now
        (world engine.old)) result
        engine.old engine.new port.old port.new }
    ensures keeps { OnOk result (kept engine.new ≡ kept engine.old) }
{
    let mut quick = Quick::new(engine.alloc());
    for _turn in 0..runner.room {
        let end = turn_at_once(runner, engine, port, &mut quick, at, label, body)?;
        match going(end) {
            Ok(()) => {}
            Err(end) => return Ok(end),
        }
    }
    Ok(engine.raise(State::QUERY_CANCELED, at))
}

/// The condition is asked, and there is a turn where it is true.
pub(crate) fn round<P: Port, F>(
    runner: &Runner<F>,
    engine: &mut Engine,
    port: &mut P,
    at: Spot,
    label: &Option<Name>,
    condition: &Expr,
    body: &[Statement],
) -> Result<Outcome, Stop>
where
    F: Fn(u64, &mut Engine, &mut P, Task<'_>) -> Result<Outcome, Stop>,
    requires room { (world engine.old).steps ≤ runner.now.room }
    requires fits { P.fits (world engine.old).last port.old }
    requires runs { Runs P.Port runner.now.room (F.pre runner.now.run) (F.post runner.now.run) }
    ensures is { Answers P.Port
        (spec.round (runner_for do_bodies runner.now.room) at label.now
        (control.tested (runner_for do_bodies runner.now.room) at condition.now) body.now
        (world engine.old)) result
        engine.old engine.new port.old port.new }
    ensures keeps { OnOk result (kept engine.new ≡ kept engine.old) }
{
    let answer = ask(runner, engine, port, at, Ask::Test(condition))?;
    match truth_of(answer) {
        Ok(true) => turn(runner, engine, port, at, label, body),
        Ok(false) => Ok(Outcome::Next),
        Err(end) => Ok(end),
    }
}

// The condition is asked, and no turn is left.
fn no_round<P: Port, F>(
    runner: &Runner<F>,
    engine: &mut Engine,
    port: &mut P,
    at: Spot,
    condition: &Expr,
) -> Result<Outcome, Stop>
where
    F: Fn(u64, &mut Engine, &mut P, Task<'_>) -> Result<Outcome, Stop>,
    requires room { (world engine.old).steps ≤ runner.now.room }
    requires fits { P.fits (world engine.old).last port.old }
    requires runs { Runs P.Port runner.now.room (F.pre runner.now.run) (F.post runner.now.run) }
    ensures is { Answers P.Port
        (spec.no_round at (control.tested (runner_for do_bodies runner.now.room) at condition.now)
        (world engine.old)) result
        engine.old engine.new port.old port.new }
    ensures keeps { OnOk result (kept engine.new ≡ kept engine.old) }
{
    let answer = ask(runner, engine, port, at, Ask::Test(condition))?;
    match truth_of(answer) {
        Ok(true) => Ok(engine.raise(State::QUERY_CANCELED, at)),
        Ok(false) => Ok(Outcome::Next),
        Err(end) => Ok(end),
    }
}

/// WHILE
pub fn while_true<P: Port, F>(
    runner: &Runner<F>,
    engine: &mut Engine,
    port: &mut P,
    at: Spot,
    label: &Option<Name>,
    condition: &Expr,
    body: &[Statement],
) -> Result<Outcome, Stop>
where
    F: Fn(u64, &mut Engine, &mut P, Task<'_>) -> Result<Outcome, Stop>,
    requires room { (world engine.old).steps ≤ runner.now.room }
    requires fits { P.fits (world engine.old).last port.old }
    requires runs { Runs P.Port runner.now.room (F.pre runner.now.run) (F.post runner.now.run) }
    ensures is { Answers P.Port
        (control.loop (runner_for do_bodies runner.now.room) at label.now
        (control.tested (runner_for do_bodies runner.now.room) at condition.now) body.now
        (world engine.old)) result
        engine.old engine.new port.old port.new }
    ensures keeps { OnOk result (kept engine.new ≡ kept engine.old) }
{
    let mut quick = Quick::new(engine.alloc());
    for _turn in 0..runner.room {
        let end = round_at_once(runner, engine, port, &mut quick, at, label, condition, body)?;
        match going(end) {
            Ok(()) => {}
            Err(end) => return Ok(end),
        }
    }
    no_round(runner, engine, port, at, condition)
}

//! Turns of loops, done at once where they only compute, and else statement by statement.

ghost use Rattle.std.specs.Prelude.{◌≡◌, ◌≤◌, None, OnOk, Some};
ghost use Rattle.pl_engine.specs.Answers.{Answers};
ghost use Rattle.pl_engine.specs.Engines.{kept, world};
ghost use Rattle.pl_engine.specs.Runs.{Runs};
ghost use Rattle.pl_engine.specs.Texts.{do_bodies};
ghost use Rattle.pl_engine.specs.pl_world.Control as control;
ghost use Rattle.pl_engine.specs.pl_world.Statements.{runner_for};
ghost use Rattle.pl_loops.specs.Turns as spec;
ghost use Rattle.pl_quick.specs.Acts.{Suits};

use crate::loops::round;
use crate::turns::turn;
use pl_base::Name;
use pl_bodies::Statement;
use pl_engine::pl_world::Outcome;
use pl_engine::{Engine, Port, Runner, Spot, Stop, Task};
use pl_quick::{Quick, Turned};
use pl_tree::Expr;

/// The same as `turn`.
pub(crate) fn turn_at_once<P: Port, F>(
    runner: &Runner<F>,
    engine: &mut Engine,
    port: &mut P,
    quick: &mut Quick,
    at: Spot,
    label: &Option<Name>,
    body: &[Statement],
) -> Result<Outcome, Stop>
where
    F: Fn(u64, &mut Engine, &mut P, Task<'_>) -> Result<Outcome, Stop>,
    requires room { (world engine.old).steps ≤ runner.now.room }
    requires fits { P.fits (world engine.old).last port.old }
    requires runs { Runs P.Port runner.now.room (F.pre runner.now.run) (F.post runner.now.run) }
    requires suits { Suits quick.old None body.now (world engine.old) }
    ensures is { Answers P.Port
        (control.turn (runner_for do_bodies runner.now.room) at label.now body.now
        (world engine.old) spec.goes) result
        engine.old engine.new port.old port.new }
    ensures suits { OnOk result (Suits quick.new None body.now (world engine.new)) }
    ensures keeps { OnOk result (kept engine.new ≡ kept engine.old) }
{
    match quick.try_turn(engine, at, None, body) {
        Turned::On => Ok(Outcome::Continue(None)),
        Turned::Over => Ok(Outcome::Next),
        Turned::Left => turn(runner, engine, port, at, label, body),
    }
}

/// The same as `round`.
pub(crate) fn round_at_once<P: Port, F>(
    runner: &Runner<F>,
    engine: &mut Engine,
    port: &mut P,
    quick: &mut Quick,
    at: Spot,
    label: &Option<Name>,
    condition: &Expr,
    body: &[Statement],
) -> Result<Outcome, Stop>
where
    F: Fn(u64, &mut Engine, &mut P, Task<'_>) -> Result<Outcome, Stop>,
    requires room { (world engine.old).steps ≤ runner.now.room }
    requires fits { P.fits (world engine.old).last port.old }
    requires runs { Runs P.Port runner.now.room (F.pre runner.now.run) (F.post runner.now.run) }
    requires suits { Suits quick.old (Some condition.now) body.now (world engine.old) }
    ensures is { Answers P.Port
        (spec.round (runner_for do_bodies runner.now.room) at label.now
        (control.tested (runner_for do_bodies runner.now.room) at condition.now) body.now
        (world engine.old)) result
        engine.old engine.new port.old port.new }
    ensures suits { OnOk result (Suits quick.new (Some condition.now) body.now
        (world engine.new)) }
    ensures keeps { OnOk result (kept engine.new ≡ kept engine.old) }
{
    match quick.try_turn(engine, at, Some(condition), body) {
        Turned::On => Ok(Outcome::Continue(None)),
        Turned::Over => Ok(Outcome::Next),
        Turned::Left => round(runner, engine, port, at, label, condition, body),
    }
}

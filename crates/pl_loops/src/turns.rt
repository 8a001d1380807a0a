//! One turn of a loop, and how it ended.

ghost use Rattle.std.specs.Prelude.{◌≡◌, ◌≤◌, OnOk};
ghost use Rattle.pl_engine.specs.Answers.{Answers};
ghost use Rattle.pl_engine.specs.Engines.{kept, world};
ghost use Rattle.pl_engine.specs.Runs.{Runs};
ghost use Rattle.pl_engine.specs.Texts.{do_bodies};
ghost use Rattle.pl_loops.specs.Turns as spec;
ghost use Rattle.pl_engine.specs.pl_world.Control as control;
ghost use Rattle.pl_engine.specs.pl_world.Statements.{runner_for};
ghost use Rattle.pl_engine.specs.pl_world.declared.outcome.Outcome.TheVariants as outcome;

use pl_base::{Name, State};
use pl_bodies::Statement;
use pl_engine::pl_world::Outcome;
use pl_engine::{Engine, Port, Runner, Spot, Stop, Task, all};

// EXIT and CONTINUE name this loop, or none.
fn is_own(label: &Option<Name>, to: &Option<Name>) -> bool
    ensures { result ≡ control.is_own label.now to.now }
{
    match (label, to) {
        (_, None) => true,
        (None, Some(_)) => false,
        (Some(label), Some(to)) => label == to,
    }
}

fn exit_end(label: &Option<Name>, to: Option<Name>) -> Outcome
    ensures { result ≡ spec.turn_end label.now (outcome.Exit to) }
{
    if is_own(label, &to) {
        return Outcome::Next;
    }
    Outcome::Exit(to)
}

fn continue_end(label: &Option<Name>, to: Option<Name>) -> Outcome
    ensures { result ≡ spec.turn_end label.now (outcome.Continue to) }
{
    if is_own(label, &to) {
        return Outcome::Continue(None);
    }
    Outcome::Continue(to)
}

// How the loop ends behind a turn that ended so. It goes on by CONTINUE.
fn turn_end(label: &Option<Name>, end: Outcome) -> Outcome
    ensures { result ≡ spec.turn_end label.now end }
{
    match end {
        Outcome::Next => Outcome::Continue(None),
        Outcome::Exit(to) => exit_end(label, to),
        Outcome::Continue(to) => continue_end(label, to),
        other => other,
    }
}

/// A turn, which takes a step. `Continue(None)` where the loop goes on, and how it ends otherwise.
pub(crate) fn turn<P: Port, F>(
    runner: &Runner<F>,
    engine: &mut Engine,
    port: &mut P,
    at: Spot,
    label: &Option<Name>,
    body: &[Statement],
) -> Result<Outcome, Stop>
where
    F: Fn(u64, &mut Engine, &mut P, Task<'_>) -> Result<Outcome, Stop>,
    requires room { (world engine.old).steps ≤ runner.now.room }
    requires fits { P.fits (world engine.old).last port.old }
    requires runs { Runs P.Port runner.now.room (F.pre runner.now.run) (F.post runner.now.run) }
    ensures is { Answers P.Port
        (control.turn (runner_for do_bodies runner.now.room) at label.now body.now
        (world engine.old) spec.goes) result
        engine.old engine.new port.old port.new }
    ensures keeps { OnOk result (kept engine.new ≡ kept engine.old) }
{
    if !engine.take_step() {
        return Ok(engine.raise(State::QUERY_CANCELED, at));
    }
    Ok(turn_end(label, all(runner, engine, port, body)?))
}

/// The loop goes on with its next turn.
pub(crate) fn going(end: Outcome) -> Result<(), Outcome>
    ensures { result ≡ spec.going_of end }
{
    match end {
        Outcome::Continue(None) => Ok(()),
        other => Err(other),
    }
}

//! Commands that run a body: its call is entered, the body runs, and the call is left.

ghost use Rattle.std.specs.Prelude.{◌≡◌, ◌≤◌, OnOk};
ghost use Rattle.pl_control.specs.Called.{IsCalled};
ghost use Rattle.pl_engine.specs.Answers.{Answers};
ghost use Rattle.pl_engine.specs.Engines.{kept, world};
ghost use Rattle.pl_engine.specs.Runs.{Runs};
ghost use Rattle.pl_engine.specs.Texts.{do_bodies};
ghost use Rattle.pl_engine.specs.pl_world.Calls as spec;
ghost use Rattle.pl_engine.specs.pl_world.Running.{body};
ghost use Rattle.pl_engine.specs.pl_world.Statements.{run_within, runner_for};
ghost use Rattle.pl_engine.specs.pl_world.Transactions.{after_call};
ghost use Rattle.pl_engine.specs.pl_world.World.{World, and_then, ends};

use pl_asking::pl_calling::{MOST_CALLS, given};
use pl_base::{List, Name, State, Ty, Value};
use pl_bodies::Body;
use pl_engine::pl_declared::Static;
use pl_engine::pl_world::Outcome;
use pl_engine::{Engine, Port, Runner, Spot, Stop, Task};

/// What is called by a command, beside its body.
#[derive(Drop)]
pub(crate) struct Called {
    pub routine: Name,
    /// What names mean when the call is entered.
    pub declared: Static,
    /// The type of what RETURN gives. None where it gives no value.
    pub result: Option<Ty>,
}

// A body.
fn run_body<P: Port, F>(
    runner: &Runner<F>,
    engine: &mut Engine,
    port: &mut P,
    b: &Body,
) -> Result<Outcome, Stop>
where
    F: Fn(u64, &mut Engine, &mut P, Task<'_>) -> Result<Outcome, Stop>,
    requires room { (world engine.old).steps ≤ runner.now.room }
    requires fits { P.fits (world engine.old).last port.old }
    requires runs { Runs P.Port runner.now.room (F.pre runner.now.run) (F.post runner.now.run) }
    ensures is { Answers P.Port
        (run_within do_bodies runner.now.room (body b.now) (world engine.old)) result
        engine.old engine.new port.old port.new }
    ensures keeps { OnOk result (kept engine.new ≡ kept engine.old) }
{
    (runner.run)(runner.room, engine, port, Task::Body(b))
}

// The body runs in a call of its own.
fn run_in_call<P: Port, F>(
    runner: &Runner<F>,
    engine: &mut Engine,
    port: &mut P,
    called: Called,
    values: List<Value>,
    b: &Body,
) -> Result<Outcome, Stop>
where
    F: Fn(u64, &mut Engine, &mut P, Task<'_>) -> Result<Outcome, Stop>,
    requires room { (world engine.old).steps ≤ runner.now.room }
    requires fits { P.fits (world engine.old).last port.old }
    requires runs { Runs P.Port runner.now.room (F.pre runner.now.run) (F.post runner.now.run) }
    ensures is { (c : spec.Callee) → IsCalled called b.now c → Answers P.Port
        (and_then (run_within do_bodies runner.now.room (body c.body)
        (spec.entered c values (world engine.old))) (spec.left c)) result
        engine.old engine.new port.old port.new }
    ensures keeps { OnOk result (kept engine.new ≡ kept engine.old) }
{
    let Called {
        routine,
        declared,
        result: ty,
    } = called;
    engine.enter(routine, true, declared, values)?;
    let end = run_body(runner, engine, port, b)?;
    let at = Spot {
        line: b.line,
        ordinal: 0,
    };
    let end = given(&*engine, ty, at, end)?;
    engine.leave();
    Ok(end)
}

/// The command's call, unless too many run. 54001 at the 65th.
pub(crate) fn run_called<P: Port, F>(
    runner: &Runner<F>,
    engine: &mut Engine,
    port: &mut P,
    at: Spot,
    called: Called,
    values: List<Value>,
    b: &Body,
) -> Result<Outcome, Stop>
where
    F: Fn(u64, &mut Engine, &mut P, Task<'_>) -> Result<Outcome, Stop>,
    requires room { (world engine.old).steps ≤ runner.now.room }
    requires fits { P.fits (world engine.old).last port.old }
    requires runs { Runs P.Port runner.now.room (F.pre runner.now.run) (F.post runner.now.run) }
    ensures is { (c : spec.Callee) → IsCalled called b.now c → Answers P.Port
        (spec.called (runner_for do_bodies runner.now.room) c values at (world engine.old)) result
        engine.old engine.new port.old port.new }
    ensures keeps { OnOk result (kept engine.new ≡ kept engine.old) }
{
    if engine.calls() < MOST_CALLS {
        return run_in_call(runner, engine, port, called, values, b);
    }
    Ok(engine.raise(State::STATEMENT_TOO_COMPLEX, at))
}

/// What a command leaves whose call ended so.
pub(crate) fn call_end(end: Outcome) -> Outcome
    ensures { (w : World) → after_call end w ≡ ends result w }
{
    match end {
        Outcome::Return(_) => Outcome::Next,
        other => other,
    }
}

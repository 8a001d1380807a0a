//! Tasks of every kind, whose own tasks are run by a function that is passed in. A statement and a
//! body begin with a step.

ghost use Rattle.std.specs.Prelude.{◌≡◌, ◌≤◌, ℕ, OnOk};
ghost use Rattle.pl_control.specs.pl_engine.Answers.{Answers};
ghost use Rattle.pl_control.specs.pl_engine.Engines.{kept, world};
ghost use Rattle.pl_control.specs.pl_engine.Runs.{run_as};
ghost use Rattle.pl_control.specs.pl_engine.Texts.{do_bodies};
ghost use Rattle.pl_exec.specs.Below.{RunsBelow};
ghost use Rattle.pl_world.specs.Running as spec;
ghost use Rattle.pl_world.specs.Statements.{run_within};

use crate::forms::form;
use pl_base::State;
use pl_bodies::{Body, Statement};
use pl_control::pl_asking::answer;
use pl_control::pl_engine::{Ask, BodyRunner, Calls, Engine, Port, Runner, Spot, Stop, Task};
use pl_handlers::block;
use pl_world::Outcome;

/// The body of a routine. 57014 where no step is left.
pub(crate) fn body<P: Port, F>(
    room: u64,
    run: F,
    engine: &mut Engine,
    port: &mut P,
    b: &Body,
) -> Result<Outcome, Stop>
where
    F: Fn(u64, &mut Engine, &mut P, Task<'_>) -> Result<Outcome, Stop> + Copy,
    requires room { (world engine.old).steps ≤ room }
    requires fits { P.fits (world engine.old).last port.old }
    requires runs { RunsBelow P.Port room (F.pre run) (F.post run) }
    ensures is { Answers P.Port
        (run_within do_bodies room (spec.body b.now) (world engine.old)) result
        engine.old engine.new port.old port.new }
    ensures keeps { OnOk result (kept engine.new ≡ kept engine.old) }
{
    let at = Spot {
        line: b.line,
        ordinal: 0,
    };
    if !engine.take_step() {
        return Ok(engine.raise(State::QUERY_CANCELED, at));
    }
    let runner = Runner {
        room: room - 1,
        run,
    };
    block(&runner, engine, port, at, &b.block)
}

// A statement. 57014 where no step is left.
fn statement<P: Port, F, R: BodyRunner>(
    room: u64,
    run: F,
    bodies: &R,
    engine: &mut Engine,
    port: &mut P,
    s: &Statement,
) -> Result<Outcome, Stop>
where
    F: Fn(u64, &mut Engine, &mut P, Task<'_>) -> Result<Outcome, Stop> + Copy,
    requires room { (world engine.old).steps ≤ room }
    requires fits { P.fits (world engine.old).last port.old }
    requires runs { RunsBelow P.Port room (F.pre run) (F.post run) }
    requires bodies { (n : ℕ) → n ≤ room → R.runs bodies.now n }
    ensures is { Answers P.Port
        (run_within do_bodies room (spec.statement s.now) (world engine.old)) result
        engine.old engine.new port.old port.new }
    ensures keeps { OnOk result (kept engine.new ≡ kept engine.old) }
{
    let at = Spot {
        line: s.line,
        ordinal: s.ordinal,
    };
    if !engine.take_step() {
        return Ok(engine.raise(State::QUERY_CANCELED, at));
    }
    let runner = Runner {
        room: room - 1,
        run,
    };
    form(&runner, bodies, engine, port, at, &s.kind)
}

/// What a task does. Its own tasks are run with less room, and so are the bodies of the routines
/// that its expressions call, behind their step.
pub(crate) fn task<P: Port, F, R: BodyRunner>(
    room: u64,
    run: F,
    bodies: &R,
    engine: &mut Engine,
    port: &mut P,
    t: Task<'_>,
) -> Result<Outcome, Stop>
where
    F: Fn(u64, &mut Engine, &mut P, Task<'_>) -> Result<Outcome, Stop> + Copy,
    requires room { (world engine.old).steps ≤ room }
    requires fits { P.fits (world engine.old).last port.old }
    requires runs { RunsBelow P.Port room (F.pre run) (F.post run) }
    requires bodies { (n : ℕ) → n ≤ room → R.runs bodies.now n }
    ensures is { Answers P.Port (run_as do_bodies room t.entry (world engine.old)) result
        engine.old engine.new port.old port.new }
    ensures keeps { OnOk result (kept engine.new ≡ kept engine.old) }
{
    match t {
        Task::Statement(s) => statement(room, run, bodies, engine, port, s),
        Task::Body(b) => body(room, run, engine, port, b),
        Task::Ask(at, Ask::Test(e)) => {
            let calls = Calls { room, bodies };
            answer(&calls, engine, port, *at, Ask::Test(e))
        }
        Task::Ask(at, Ask::Bound(e)) => {
            let calls = Calls { room, bodies };
            answer(&calls, engine, port, *at, Ask::Bound(e))
        }
        Task::Ask(at, Ask::Declare(d)) => {
            let calls = Calls { room, bodies };
            answer(&calls, engine, port, *at, Ask::Declare(d))
        }
    }
}

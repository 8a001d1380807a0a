//! CALL: PostgreSQL manual, "CALL", "PL/pgSQL", "Calling a Procedure".

ghost use Rattle.std.specs.Prelude.{◌≡◌, ◌≤◌, OnOk};
ghost use Rattle.pl_control.specs.Called.{Names};
ghost use Rattle.pl_engine.specs.Answers.{Answers};
ghost use Rattle.pl_engine.specs.Engines.{kept, world};
ghost use Rattle.pl_engine.specs.Runs.{Runs};
ghost use Rattle.pl_engine.specs.Texts.{do_bodies};
ghost use Rattle.pl_engine.specs.pl_world.Errors.{resolved};
ghost use Rattle.pl_engine.specs.pl_world.Resolving.{Calling, calling};
ghost use Rattle.pl_engine.specs.pl_world.Statements.{runner_for};
ghost use Rattle.pl_engine.specs.pl_world.Transactions as spec;

use crate::arguments::{Procedure, resolve_call};
use crate::callees::call_end;
use crate::calls::call_by_name;
use pl_asking::pl_calling::evaluate_all;
use pl_base::Name;
use pl_engine::pl_world::Outcome;
use pl_engine::{BodyRunner, Calls, Engine, Port, Runner, Spot, Stop, Task};
use pl_tree::Argument;
use pl_typing::ScopeFail;

/// A procedure is called: its arguments are read from left to right, and then its body runs.
pub fn call_procedure<P: Port, F, R: BodyRunner>(
    runner: &Runner<F>,
    bodies: &R,
    engine: &mut Engine,
    port: &mut P,
    at: Spot,
    p: &Procedure,
) -> Result<Outcome, Stop>
where
    F: Fn(u64, &mut Engine, &mut P, Task<'_>) -> Result<Outcome, Stop>,
    requires room { (world engine.old).steps ≤ runner.now.room }
    requires fits { P.fits (world engine.old).last port.old }
    requires runs { Runs P.Port runner.now.room (F.pre runner.now.run) (F.post runner.now.run) }
    requires bodies { R.runs bodies.now runner.now.room }
    ensures is { (c : Calling) → Names p.now c → Answers P.Port
        (spec.procedure_called (runner_for do_bodies runner.now.room) at c (world engine.old))
        result engine.old engine.new port.old port.new }
    ensures keeps { OnOk result (kept engine.new ≡ kept engine.old) }
{
    let calls = Calls {
        room: runner.room,
        bodies,
    };
    let read = evaluate_all(&calls, engine, port, at, p.arguments.as_slice())?;
    match read {
        Ok(values) => {
            let end = call_by_name(runner, engine, port, at, p.name, values)?;
            Ok(call_end(end))
        }
        Err(f) => Ok(Outcome::Fail(f)),
    }
}

/// CALL as a statement.
pub fn call<P: Port, F, R: BodyRunner>(
    runner: &Runner<F>,
    bodies: &R,
    engine: &mut Engine,
    port: &mut P,
    at: Spot,
    name: Name,
    arguments: &[Argument],
) -> Result<Outcome, Stop>
where
    F: Fn(u64, &mut Engine, &mut P, Task<'_>) -> Result<Outcome, Stop>,
    requires room { (world engine.old).steps ≤ runner.now.room }
    requires fits { P.fits (world engine.old).last port.old }
    requires runs { Runs P.Port runner.now.room (F.pre runner.now.run) (F.post runner.now.run) }
    requires bodies { R.runs bodies.now runner.now.room }
    ensures is { Answers P.Port
        (resolved (calling name arguments.now (world engine.old).database.objects
        (world engine.old).frame.static) at (world engine.old) (λ c.
        spec.procedure_called (runner_for do_bodies runner.now.room) at c (world engine.old)))
        result engine.old engine.new port.old port.new }
    ensures keeps { OnOk result (kept engine.new ≡ kept engine.old) }
{
    match resolve_call(&*engine, name, arguments) {
        Ok(p) => call_procedure(runner, bodies, engine, port, at, &p),
        Err(ScopeFail::State(state)) => Ok(engine.raise(state, at)),
        Err(ScopeFail::Memory) => Err(Stop::Memory),
    }
}

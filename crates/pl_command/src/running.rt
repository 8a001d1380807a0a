//! Commands that run a body: DO and CALL.

ghost use Rattle.std.specs.Prelude.{◌≡◌, ◌≤◌, OnOk};
ghost use Rattle.pl_control.specs.Called.{Names};
ghost use Rattle.pl_control.specs.pl_engine.Answers.{Answers};
ghost use Rattle.pl_control.specs.pl_engine.Engines.{kept, world};
ghost use Rattle.pl_control.specs.pl_engine.Runs.{Runs};
ghost use Rattle.pl_control.specs.pl_engine.Texts.{do_bodies};
ghost use Rattle.pl_print.specs.declared.reply.Tag.TheVariants as tag;
ghost use Rattle.pl_world.specs.Resolving.{Calling};
ghost use Rattle.pl_world.specs.Sessions as spec;
ghost use Rattle.pl_world.specs.Statements.{runner_for};
ghost use Rattle.pl_world.specs.Transactions.{does, procedure_called};
ghost use Rattle.pl_world.specs.World.{and_then};

use crate::replies::{fails, ran_body, top};
use pl_base::{Name, Txt};
use pl_control::pl_engine::{BodyRunner, Engine, Port, Runner, Stop, Task};
use pl_control::{Procedure, call_procedure, do_text, resolve_call};
use pl_print::Tag;
use pl_tree::Argument;
use pl_typing::ScopeFail;
use pl_world::{Outcome, Reply};

/// DO
pub(crate) fn run_text<P: Port, F>(
    runner: &Runner<F>,
    engine: &mut Engine,
    port: &mut P,
    language: &Option<Name>,
    text: &Txt,
) -> Result<Reply, Stop>
where
    F: Fn(u64, &mut Engine, &mut P, Task<'_>) -> Result<Outcome, Stop>,
    requires room { (world engine.old).steps ≤ runner.now.room }
    requires fits { P.fits (world engine.old).last port.old }
    requires runs { Runs P.Port runner.now.room (F.pre runner.now.run) (F.post runner.now.run) }
    ensures is { Answers P.Port
        (and_then (does (runner_for do_bodies runner.now.room) spec.top language.now text.now
        (world engine.old)) (spec.ran_body tag.Do)) result
        engine.old engine.new port.old port.new }
    ensures keeps { OnOk result (kept engine.new ≡ kept engine.old) }
{
    match do_text(runner, engine, port, top(), language, text) {
        Ok(end) => Ok(ran_body(Tag::Do, end)),
        Err(stop) => Err(stop),
    }
}

// A procedure is called.
fn call_it<P: Port, F, R: BodyRunner>(
    runner: &Runner<F>,
    bodies: &R,
    engine: &mut Engine,
    port: &mut P,
    p: &Procedure,
) -> Result<Reply, Stop>
where
    F: Fn(u64, &mut Engine, &mut P, Task<'_>) -> Result<Outcome, Stop>,
    requires room { (world engine.old).steps ≤ runner.now.room }
    requires fits { P.fits (world engine.old).last port.old }
    requires runs { Runs P.Port runner.now.room (F.pre runner.now.run) (F.post runner.now.run) }
    requires bodies { R.runs bodies.now runner.now.room }
    ensures is { (c : Calling) → Names p.now c → Answers P.Port
        (and_then (procedure_called (runner_for do_bodies runner.now.room) spec.top c
        (world engine.old)) (spec.ran_body tag.Call)) result
        engine.old engine.new port.old port.new }
    ensures keeps { OnOk result (kept engine.new ≡ kept engine.old) }
{
    match call_procedure(runner, bodies, engine, port, top(), p) {
        Ok(end) => Ok(ran_body(Tag::Call, end)),
        Err(stop) => Err(stop),
    }
}

/// CALL
pub(crate) fn run_procedure<P: Port, F, R: BodyRunner>(
    runner: &Runner<F>,
    bodies: &R,
    engine: &mut Engine,
    port: &mut P,
    name: Name,
    arguments: &[Argument],
) -> Result<Reply, Stop>
where
    F: Fn(u64, &mut Engine, &mut P, Task<'_>) -> Result<Outcome, Stop>,
    requires room { (world engine.old).steps ≤ runner.now.room }
    requires fits { P.fits (world engine.old).last port.old }
    requires runs { Runs P.Port runner.now.room (F.pre runner.now.run) (F.post runner.now.run) }
    requires bodies { R.runs bodies.now runner.now.room }
    ensures is { Answers P.Port
        (spec.calls (runner_for do_bodies runner.now.room) name arguments.now
        (world engine.old)) result
        engine.old engine.new port.old port.new }
    ensures keeps { OnOk result (kept engine.new ≡ kept engine.old) }
{
    match resolve_call(&*engine, name, arguments) {
        Ok(p) => call_it(runner, bodies, engine, port, &p),
        Err(ScopeFail::State(state)) => Ok(fails(&*engine, state)),
        Err(ScopeFail::Memory) => Err(Stop::Memory),
    }
}

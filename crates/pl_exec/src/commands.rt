//! Commands as statements, each by the function for it.

ghost use Rattle.std.specs.Prelude.{◌≡◌, ◌≤◌, OnOk};
ghost use Rattle.pl_control.specs.pl_engine.Answers.{Answers};
ghost use Rattle.pl_control.specs.pl_engine.Engines.{kept, world};
ghost use Rattle.pl_control.specs.pl_engine.Runs.{Runs};
ghost use Rattle.pl_control.specs.pl_engine.Texts.{do_bodies};
ghost use Rattle.pl_world.specs.Statements as spec;
ghost use Rattle.pl_world.specs.Statements.{runner_for};

use pl_base::State;
use pl_control::pl_engine::{BodyRunner, Engine, Port, Runner, Spot, Stop, Task};
use pl_control::{call, define_text, do_text};
use pl_tree::Command;
use pl_world::Outcome;

/// A command that is neither a query nor a change, which have forms of their own. 0A000 where it is
/// none of CREATE, DROP, DO and CALL.
#[inline(never)]
pub(crate) fn command<P: Port, F, R: BodyRunner>(
    runner: &Runner<F>,
    bodies: &R,
    engine: &mut Engine,
    port: &mut P,
    at: Spot,
    c: &Command,
) -> Result<Outcome, Stop>
where
    F: Fn(u64, &mut Engine, &mut P, Task<'_>) -> Result<Outcome, Stop>,
    requires room { (world engine.old).steps ≤ runner.now.room }
    requires fits { P.fits (world engine.old).last port.old }
    requires runs { Runs P.Port runner.now.room (F.pre runner.now.run) (F.post runner.now.run) }
    requires bodies { R.runs bodies.now runner.now.room }
    ensures is { Answers P.Port
        (spec.command_form (runner_for do_bodies runner.now.room) at c.now (world engine.old))
        result engine.old engine.new port.old port.new }
    ensures keeps { OnOk result (kept engine.new ≡ kept engine.old) }
{
    match c {
        Command::Define { source, .. } => define_text(engine, port, at, source),
        Command::Do { language, body } => do_text(runner, engine, port, at, language, body),
        Command::Call { name, arguments } => {
            call(
                runner,
                bodies,
                engine,
                port,
                at,
                *name,
                arguments.as_slice(),
            )
        }
        Command::Query(_) | Command::Insert(_) | Command::Update(_) | Command::Delete(_) => {
            Ok(engine.raise(State::FEATURE_NOT_SUPPORTED, at))
        }
        Command::Begin
        | Command::StartTransaction
        | Command::Commit
        | Command::Rollback
        | Command::Savepoint(_)
        | Command::Release(_)
        | Command::RollbackTo(_) => Ok(engine.raise(State::FEATURE_NOT_SUPPORTED, at)),
    }
}

//! Every command but transaction control.

ghost use Rattle.std.specs.Prelude.{◌≡◌, ◌≤◌, OnOk};
ghost use Rattle.pl_command.specs.Shown.{no_reply};
ghost use Rattle.pl_control.specs.pl_engine.Answers.{Answers};
ghost use Rattle.pl_control.specs.pl_engine.Engines.{kept, world};
ghost use Rattle.pl_control.specs.pl_engine.Runs.{Runs};
ghost use Rattle.pl_control.specs.pl_engine.Texts.{do_bodies};
ghost use Rattle.pl_reading.specs.Computed.{CommandMeansAlike};
ghost use Rattle.pl_world.specs.Sessions.{command_done};
ghost use Rattle.pl_world.specs.Statements.{runner_for};

use crate::changing::alter;
use crate::defining::carry_out;
use crate::running::{run_procedure, run_text};
use crate::selecting::select;
use pl_bodies::Change;
use pl_control::pl_engine::{BodyRunner, Calls, Engine, Port, Runner, Stop, Task};
use pl_tree::Command;
use pl_world::{Outcome, Reply};

/// Does a command, and commits nothing of it but what COMMIT in a body does. Where it fails, what
/// it did since the last commit is still there. A command of transaction control does nothing and
/// answers nothing here.
pub fn perform<P: Port, F, R: BodyRunner>(
    runner: &Runner<F>,
    bodies: &R,
    engine: &mut Engine,
    port: &mut P,
    command: Command,
) -> Result<Reply, Stop>
where
    F: Fn(u64, &mut Engine, &mut P, Task<'_>) -> Result<Outcome, Stop>,
    requires alike { CommandMeansAlike command }
    requires room { (world engine.old).steps ≤ runner.now.room }
    requires fits { P.fits (world engine.old).last port.old }
    requires runs { Runs P.Port runner.now.room (F.pre runner.now.run) (F.post runner.now.run) }
    requires bodies { R.runs bodies.now runner.now.room }
    ensures is { Answers P.Port
        (command_done (runner_for do_bodies runner.now.room) command (world engine.old)) result
        engine.old engine.new port.old port.new }
    ensures keeps { OnOk result (kept engine.new ≡ kept engine.old) }
{
    let calls = Calls {
        room: runner.room,
        bodies,
    };
    match command {
        Command::Query(q) => select(&calls, engine, port, &q),
        Command::Insert(i) => {
            let c = Change::Insert(i);
            alter(&calls, engine, port, &c)
        }
        Command::Update(u) => {
            let c = Change::Update(u);
            alter(&calls, engine, port, &c)
        }
        Command::Delete(d) => {
            let c = Change::Delete(d);
            alter(&calls, engine, port, &c)
        }
        Command::Define { definition, source } => carry_out(engine, port, &definition, source),
        Command::Do { language, body } => run_text(runner, engine, port, &language, &body),
        Command::Call { name, arguments } => {
            run_procedure(runner, bodies, engine, port, name, arguments.as_slice())
        }
        Command::Begin
        | Command::StartTransaction
        | Command::Commit
        | Command::Rollback
        | Command::Savepoint(_)
        | Command::Release(_)
        | Command::RollbackTo(_) => Ok(nothing()),
    }
}

// Nothing is answered.
fn nothing() -> Reply
    ensures { result ≡ no_reply }
{
    Reply {
        tag: None,
        grid: None,
        fail: None,
    }
}

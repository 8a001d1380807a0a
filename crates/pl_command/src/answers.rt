//! What a command answers, once all that it does is done.

ghost use Rattle.std.specs.Prelude.{◌≡◌, ◌≤◌, [], IfOk, IsErrOf, OnOk};
ghost use Rattle.pl_command.specs.Ends.{IsIdle, as_ran};
ghost use Rattle.pl_command.specs.Lines.{lines_of};
ghost use Rattle.pl_command.specs.Replied.{replied};
ghost use Rattle.pl_control.specs.pl_engine.Answers.{Answers, Stopped};
ghost use Rattle.pl_control.specs.pl_engine.Engines.{kept, world};
ghost use Rattle.pl_control.specs.pl_engine.Runs.{Runs};
ghost use Rattle.pl_control.specs.pl_engine.Texts.{do_bodies};
ghost use Rattle.pl_control.specs.pl_engine.declared.stop.Stop.TheVariants.{Memory as WantOfMemory};
ghost use Rattle.pl_reading.specs.Computed.{CommandMeansAlike};
ghost use Rattle.pl_world.specs.Errors.{failure};
ghost use Rattle.pl_world.specs.Sessions.{alone, command_done, failed, top};
ghost use Rattle.pl_world.specs.Statements.{runner_for};
ghost use Rattle.pl_world.specs.World.{ends};

use crate::performing::perform;
use crate::replies::{fails, reply_lines};
use crate::settling::settle;
use pl_base::{Bytes, Memory, State};
use pl_control::pl_engine::{BodyRunner, Engine, Port, Runner, Stop, Task};
use pl_tree::Command;
use pl_world::{Outcome, Reply};

/// What a command answers.
#[derive(Drop)]
pub struct Answer {
    /// What is said of it: rows, a tag or an error.
    pub reply: Reply,
    /// The lines of the reply, each with its newline.
    pub lines: Bytes,
}

// What was answered is done: its lines are made before anything is committed, so that no commit
// lacks its reply for want of memory.
fn finish<P: Port>(engine: &mut Engine, port: &mut P, reply: Reply) -> Result<Answer, Stop>
    requires idle { IsIdle (world engine.old) }
    requires fits { P.fits (world engine.old).last port.old }
    ensures is { Answers P.Port (as_ran (alone (ends reply (world engine.old))))
        (replied result) engine.old engine.new port.old port.new }
    ensures memory { IsErrOf result WantOfMemory
        → P.took (world engine.old).last [] port.old port.new }
    ensures lines { IfOk result (λ answer. answer.lines ≡ lines_of answer.reply) }
    ensures keeps { OnOk result (kept engine.new ≡ kept engine.old) }
{
    let Ok(lines) = reply_lines(engine.alloc(), &reply) else {
        return Err(Stop::Memory);
    };
    match settle(engine, port, reply) {
        Ok(reply) => Ok(Answer { reply, lines }),
        Err(stop) => Err(stop),
    }
}

/// Does a command that is a transaction of its own. What it prints before its reply, and what it
/// commits, goes to the port; the reply is for the caller to print. To a command of transaction
/// control, which is for the caller to do, it answers nothing.
///
/// `Disk` and `Say` come where the port's device failed, and `Memory` before the command's own
/// commit. The engine isn't used again then.
pub fn command<P: Port, F, R: BodyRunner>(
    runner: &Runner<F>,
    bodies: &R,
    engine: &mut Engine,
    port: &mut P,
    command: Command,
) -> Result<Answer, Stop>
where
    F: Fn(u64, &mut Engine, &mut P, Task<'_>) -> Result<Outcome, Stop>,
    requires idle { IsIdle (world engine.old) }
    requires alike { CommandMeansAlike command }
    requires room { (world engine.old).steps ≤ runner.now.room }
    requires fits { P.fits (world engine.old).last port.old }
    requires runs { Runs P.Port runner.now.room (F.pre runner.now.run) (F.post runner.now.run) }
    requires bodies { R.runs bodies.now runner.now.room }
    ensures is { Answers P.Port
        (as_ran (alone (command_done (runner_for do_bodies runner.now.room) command
        (world engine.old)))) (replied result)
        engine.old engine.new port.old port.new }

    // For want of memory it stops before its own commit.
    ensures memory { IsErrOf result WantOfMemory → Stopped P.Port
        (command_done (runner_for do_bodies runner.now.room) command (world engine.old))
        WantOfMemory engine.old port.old port.new }
    ensures lines { IfOk result (λ answer. answer.lines ≡ lines_of answer.reply) }
    ensures keeps { OnOk result (kept engine.new ≡ kept engine.old) }
{
    match perform(runner, bodies, engine, port, command) {
        Ok(reply) => finish(engine, port, reply),
        Err(stop) => Err(stop),
    }
}

/// The answer to what is no command, with this SQLSTATE. Nothing is done.
pub fn refuse(engine: &Engine, state: State) -> Result<Answer, Memory>
    ensures reply { IfOk result (λ answer.
        answer.reply ≡ failed (failure state top (world engine.now))) }
    ensures lines { IfOk result (λ answer. answer.lines ≡ lines_of answer.reply) }
{
    let reply = fails(engine, state);
    let lines = reply_lines(engine.alloc(), &reply)?;
    Ok(Answer { reply, lines })
}

//! Commands that are no transaction control.

ghost use Rattle.std.specs.Prelude.{◌≡◌};
ghost use Rattle.pl_command.specs.Computed.{CommandMeansAlike};
ghost use Rattle.pl_command.specs.pl_engine.Engines.{world};
ghost use Rattle.pl_command.specs.pl_engine.Runs.{Runs};
ghost use Rattle.pl_command.specs.pl_engine.Texts.{do_bodies};
ghost use Rattle.pl_transactions.specs.Before.{told_of_plain};
ghost use Rattle.pl_transactions.specs.Goes.{Goes};
ghost use Rattle.pl_transactions.specs.State.{Stands, session_at};
ghost use Rattle.pl_command.specs.pl_world.Sessions as spec;
ghost use Rattle.pl_command.specs.pl_world.declared.session.Mode.TheVariants as modes;

use crate::replies::refuse;
use crate::transaction::Transaction;
use pl_base::State;
use pl_command::pl_engine::{BodyRunner, Engine, Port, Runner, Stop, Task};
use pl_command::pl_world::{Mode, Outcome};
use pl_command::{Answer, perform, reply_lines};
use pl_tree::Command;

// Outside of a block a command is a transaction of its own.
fn alone<P: Port, F, R: BodyRunner>(
    runner: &Runner<F>,
    bodies: &R,
    transaction: &Transaction,
    engine: &mut Engine,
    port: &mut P,
    command: Command,
) -> Result<Answer, Stop>
where
    F: Fn(u64, &mut Engine, &mut P, Task<'_>) -> Result<Outcome, Stop>,
    requires stands { Stands transaction.now engine.old }
    requires is { transaction.now.mode ≡ modes.Idle }
    requires alike { CommandMeansAlike command }
    requires fits { P.fits (world engine.old).last port.old }
    requires runs { Runs P.Port runner.now.room (F.pre runner.now.run) (F.post runner.now.run) }
    requires bodies { R.runs bodies.now runner.now.room }
    ensures { Goes P.Port
        (spec.does_plain do_bodies runner.now.room command transaction.now.mode
        (session_at transaction.now engine.old))
        (told_of_plain do_bodies runner.now.room command transaction.now.mode
        (session_at transaction.now engine.old)) result
        transaction.now engine.old engine.new port.old port.new }
{
    engine.give_steps(runner.room);
    pl_command::command(runner, bodies, engine, port, command)
}

// In a block what a command does waits for the block's end, and its error makes the block void.
fn inside<P: Port, F, R: BodyRunner>(
    runner: &Runner<F>,
    bodies: &R,
    transaction: &mut Transaction,
    engine: &mut Engine,
    port: &mut P,
    command: Command,
) -> Result<Answer, Stop>
where
    F: Fn(u64, &mut Engine, &mut P, Task<'_>) -> Result<Outcome, Stop>,
    requires stands { Stands transaction.old engine.old }
    requires is { transaction.old.mode ≡ modes.Block }
    requires alike { CommandMeansAlike command }
    requires fits { P.fits (world engine.old).last port.old }
    requires runs { Runs P.Port runner.now.room (F.pre runner.now.run) (F.post runner.now.run) }
    requires bodies { R.runs bodies.now runner.now.room }
    ensures { Goes P.Port
        (spec.does_plain do_bodies runner.now.room command transaction.old.mode
        (session_at transaction.old engine.old))
        (told_of_plain do_bodies runner.now.room command transaction.old.mode
        (session_at transaction.old engine.old)) result
        transaction.new engine.old engine.new port.old port.new }
{
    engine.give_steps(runner.room);
    let reply = perform(runner, bodies, engine, port, command)?;
    let Ok(lines) = reply_lines(engine.alloc(), &reply) else {
        return Err(Stop::Memory);
    };
    transaction.note(&reply);
    Ok(Answer { reply, lines })
}

/// A command that is no transaction control.
pub(crate) fn plain<P: Port, F, R: BodyRunner>(
    runner: &Runner<F>,
    bodies: &R,
    transaction: &mut Transaction,
    engine: &mut Engine,
    port: &mut P,
    command: Command,
) -> Result<Answer, Stop>
where
    F: Fn(u64, &mut Engine, &mut P, Task<'_>) -> Result<Outcome, Stop>,
    requires stands { Stands transaction.old engine.old }
    requires alike { CommandMeansAlike command }
    requires fits { P.fits (world engine.old).last port.old }
    requires runs { Runs P.Port runner.now.room (F.pre runner.now.run) (F.post runner.now.run) }
    requires bodies { R.runs bodies.now runner.now.room }
    ensures { Goes P.Port
        (spec.does_plain do_bodies runner.now.room command transaction.old.mode
        (session_at transaction.old engine.old))
        (told_of_plain do_bodies runner.now.room command transaction.old.mode
        (session_at transaction.old engine.old)) result
        transaction.new engine.old engine.new port.old port.new }
{
    match transaction.mode {
        Mode::Idle => alone(runner, bodies, &*transaction, engine, port, command),
        Mode::Block => inside(runner, bodies, transaction, engine, port, command),
        Mode::Failed => refuse(transaction, &*engine, State::IN_FAILED_SQL_TRANSACTION),
    }
}

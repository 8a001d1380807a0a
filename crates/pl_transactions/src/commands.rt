//! Every command.

ghost use Rattle.pl_command.specs.Computed.{CommandMeansAlike};
ghost use Rattle.pl_command.specs.pl_engine.Engines.{world};
ghost use Rattle.pl_command.specs.pl_engine.Runs.{Runs};
ghost use Rattle.pl_command.specs.pl_engine.Texts.{do_bodies};
ghost use Rattle.pl_transactions.specs.Before.{told};
ghost use Rattle.pl_transactions.specs.Goes.{Goes};
ghost use Rattle.pl_transactions.specs.State.{Stands, session_at};
ghost use Rattle.pl_command.specs.pl_world.Sessions.{does_command};

use crate::beginning::begin;
use crate::doing::plain;
use crate::ending::{end, roll_back};
use crate::savepoints::{go_back, release, save};
use crate::transaction::Transaction;
use pl_command::Answer;
use pl_command::pl_engine::{BodyRunner, Engine, Port, Runner, Stop, Task};
use pl_command::pl_world::Outcome;
use pl_print::Tag;
use pl_tree::Command;

/// Does a command of a session, which may take as many steps as the runner has room for. What it
/// prints before its reply, and what it commits, goes to the port; the reply is for the caller to
/// print.
///
/// `Disk` and `Say` come where the port's device failed, and `Memory` before the command's own
/// commit. The session isn't used again then.
pub fn command<P: Port, F, R: BodyRunner>(
    runner: &Runner<F>,
    bodies: &R,
    transaction: &mut Transaction,
    engine: &mut Engine,
    port: &mut P,
    command: Command,
) -> Result<Answer, Stop>
where
    F: Fn(u64, &mut Engine, &mut P, Task<'_>) -> Result<Outcome, Stop>,
    requires stands { Stands transaction.old engine.old }
    requires alike { CommandMeansAlike command }
    requires fits { P.fits (world engine.old).last port.old }
    requires runs { Runs P.Port runner.now.room (F.pre runner.now.run) (F.post runner.now.run) }
    requires bodies { R.runs bodies.now runner.now.room }
    ensures { Goes P.Port
        (does_command do_bodies runner.now.room command (session_at transaction.old engine.old))
        (told do_bodies runner.now.room command (session_at transaction.old engine.old)) result
        transaction.new engine.old engine.new port.old port.new }
{
    match command {
        Command::Begin => begin(transaction, engine, port, Tag::Begin),
        Command::StartTransaction => begin(transaction, engine, port, Tag::StartTransaction),
        Command::Commit => end(transaction, engine, port),
        Command::Rollback => roll_back(transaction, engine, port),
        Command::Savepoint(name) => save(transaction, engine, name),
        Command::Release(name) => release(transaction, engine, name),
        Command::RollbackTo(name) => go_back(transaction, engine, name),
        other => plain(runner, bodies, transaction, engine, port, other),
    }
}

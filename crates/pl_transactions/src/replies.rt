//! Answers that need no command to be done: tags, refusals and warnings.

ghost use Rattle.std.specs.Prelude.{◌≡◌, IfOk};
ghost use Rattle.pl_command.specs.Lines.{lines_of};
ghost use Rattle.pl_command.specs.pl_engine.Answers.{Answers};
ghost use Rattle.pl_command.specs.pl_engine.Engines.{world};
ghost use Rattle.pl_transactions.specs.Goes.{GoesQuietly};
ghost use Rattle.pl_transactions.specs.State.{Stands, session_at};
ghost use Rattle.pl_transactions.specs.Warnings.{warning_line};
ghost use Rattle.pl_command.specs.pl_world.Raising.{printed};
ghost use Rattle.pl_command.specs.pl_world.Sessions as spec;

use crate::transaction::Transaction;
use pl_base::{Bytes, Memory, State};
use pl_command::pl_engine::{Engine, Port, Spot, Stop, message_text, say};
use pl_command::pl_world::{Outcome, Reply};
use pl_command::{Answer, reply_lines};
use pl_print::{Level, Tag, notice};
use std::alloc::Global;

/// It is done.
pub(crate) fn tagged(alloc: Global, tag: Tag) -> Result<Answer, Memory>
    ensures reply { IfOk result (λ answer. answer.reply ≡ spec.tagged tag) }
    ensures lines { IfOk result (λ answer. answer.lines ≡ lines_of answer.reply) }
{
    let reply = Reply {
        tag: Some(tag),
        grid: None,
        fail: None,
    };
    let lines = reply_lines(alloc, &reply)?;
    Ok(Answer { reply, lines })
}

/// Answers a command or a piece that is none with this SQLSTATE. Nothing is done, and a block is
/// void then. `Memory` alone stops it.
pub fn refuse(transaction: &mut Transaction, engine: &Engine, state: State) -> Result<Answer, Stop>
    requires stands { Stands transaction.old engine.now }
    ensures { GoesQuietly (spec.refused state (session_at transaction.old engine.now)) result
        transaction.new engine.now engine.now }
{
    let Ok(answer) = pl_command::refuse(engine, state) else {
        return Err(Stop::Memory);
    };
    transaction.fail();
    Ok(answer)
}

// The line of a warning, which says what an error of its condition says.
fn line_of(engine: &Engine, state: State) -> Result<Bytes, Memory>
    ensures { IfOk result (λ line. line ≡ warning_line state) }
{
    let alloc = engine.alloc();
    let top = Spot {
        line: 1,
        ordinal: 0,
    };
    let text = message_text(alloc, &engine.failure(state, top))?;
    notice(alloc, Level::Warning, &text, None, None)
}

/// Prints a warning.
pub(crate) fn warn<P: Port>(engine: &Engine, port: &mut P, state: State) -> Result<Outcome, Stop>
    requires fits { P.fits (world engine.now).last port.old }
    ensures { Answers P.Port (printed (warning_line state) (world engine.now)) result
        engine.now engine.now port.old port.new }
{
    let Ok(line) = line_of(engine, state) else {
        return Err(Stop::Memory);
    };
    say(engine, port, line.as_slice())
}

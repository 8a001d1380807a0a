//! How a transaction block begins: PostgreSQL manual, "BEGIN", "START TRANSACTION".

ghost use Rattle.std.specs.Prelude.{◌≡◌};
ghost use Rattle.pl_command.specs.pl_engine.Engines.{world};
ghost use Rattle.pl_transactions.specs.Before.{told_of_begin};
ghost use Rattle.pl_transactions.specs.Goes.{Goes, GoesQuietly};
ghost use Rattle.pl_transactions.specs.State.{Stands, session_at};
ghost use Rattle.pl_command.specs.pl_world.Sessions as spec;
ghost use Rattle.pl_command.specs.pl_world.declared.session.Mode.TheVariants as modes;

use crate::replies::{refuse, tagged, warn};
use crate::transaction::Transaction;
use pl_base::State;
use pl_command::Answer;
use pl_command::pl_engine::{Engine, Port, Stop};
use pl_command::pl_world::Mode;
use pl_print::Tag;

// A block begins.
fn open(transaction: &mut Transaction, engine: &mut Engine, tag: Tag) -> Result<Answer, Stop>
    requires stands { Stands transaction.old engine.old }
    requires is { transaction.old.mode ≡ modes.Idle }
    ensures { GoesQuietly
        (spec.begins tag transaction.old.mode (session_at transaction.old engine.old)) result
        transaction.new engine.old engine.new }
{
    let Ok(answer) = tagged(engine.alloc(), tag) else {
        return Err(Stop::Memory);
    };
    engine.begin_block();
    transaction.mode = Mode::Block;
    Ok(answer)
}

// In a block it warns, and all stays as it is.
fn warn_of_block<P: Port>(
    transaction: &Transaction,
    engine: &Engine,
    port: &mut P,
    tag: Tag,
) -> Result<Answer, Stop>
    requires stands { Stands transaction.now engine.now }
    requires is { transaction.now.mode ≡ modes.Block }
    requires fits { P.fits (world engine.now).last port.old }
    ensures { Goes P.Port
        (spec.begins tag transaction.now.mode (session_at transaction.now engine.now))
        (told_of_begin transaction.now.mode) result
        transaction.now engine.now engine.now port.old port.new }
{
    let Ok(answer) = tagged(engine.alloc(), tag) else {
        return Err(Stop::Memory);
    };
    match warn(engine, port, State::ACTIVE_SQL_TRANSACTION) {
        Ok(_) => Ok(answer),
        Err(stop) => Err(stop),
    }
}

/// BEGIN and START TRANSACTION, which answer this.
pub(crate) fn begin<P: Port>(
    transaction: &mut Transaction,
    engine: &mut Engine,
    port: &mut P,
    tag: Tag,
) -> Result<Answer, Stop>
    requires stands { Stands transaction.old engine.old }
    requires fits { P.fits (world engine.old).last port.old }
    ensures { Goes P.Port
        (spec.begins tag transaction.old.mode (session_at transaction.old engine.old))
        (told_of_begin transaction.old.mode) result
        transaction.new engine.old engine.new port.old port.new }
{
    match transaction.mode {
        Mode::Idle => open(transaction, engine, tag),
        Mode::Block => warn_of_block(&*transaction, &*engine, port, tag),
        Mode::Failed => refuse(transaction, &*engine, State::IN_FAILED_SQL_TRANSACTION),
    }
}

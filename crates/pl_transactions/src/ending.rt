//! How a transaction block ends: PostgreSQL manual, "COMMIT", "ROLLBACK".

ghost use Rattle.std.specs.Prelude.{◌≡◌, []};
ghost use Rattle.pl_command.specs.pl_engine.Engines.{kept, world};
ghost use Rattle.pl_transactions.specs.Before.{told_of_end};
ghost use Rattle.pl_transactions.specs.Blocks.{ends_none, undoes};
ghost use Rattle.pl_transactions.specs.Goes.{Goes, GoesQuietly};
ghost use Rattle.pl_transactions.specs.State.{Stands, session_at};
ghost use Rattle.pl_command.specs.pl_world.Sessions as spec;
ghost use Rattle.pl_command.specs.pl_world.declared.session.Mode.TheVariants as modes;

use crate::replies::{tagged, warn};
use crate::transaction::Transaction;
use pl_base::State;
use pl_command::Answer;
use pl_command::pl_engine::{Engine, Mark, Port, Stop, commit};
use pl_command::pl_world::Mode;
use pl_print::Tag;

// Outside of a block there is nothing to end: it warns, and commits what is committed.
fn end_none<P: Port>(
    transaction: &Transaction,
    engine: &mut Engine,
    port: &mut P,
    tag: Tag,
) -> Result<Answer, Stop>
    requires stands { Stands transaction.now engine.old }
    requires is { transaction.now.mode ≡ modes.Idle }
    requires fits { P.fits (world engine.old).last port.old }
    ensures { Goes P.Port (ends_none tag (world engine.old)) (told_of_end transaction.now.mode)
        result transaction.now engine.old engine.new port.old port.new }
{
    let Ok(answer) = tagged(engine.alloc(), tag) else {
        return Err(Stop::Memory);
    };
    match warn(&*engine, port, State::NO_ACTIVE_SQL_TRANSACTION) {
        Ok(_) => match commit(engine, port) {
            Ok(_) => Ok(answer),
            Err(stop) => Err(stop),
        },
        Err(stop) => Err(stop),
    }
}

// No savepoint stands any longer, and what was done stays.
fn release_all(engine: &mut Engine)
    ensures world { world engine.new ≡ record (world engine.old) { depth = 0 } }
    ensures keeps { kept engine.new ≡ record (kept engine.old) { marks = [] } }
{
    if engine.depth() > 0 {
        engine.unprotect(Mark { at: 0 });
    }
}

// The block's changes are committed.
fn commit_block<P: Port>(
    transaction: &mut Transaction,
    engine: &mut Engine,
    port: &mut P,
) -> Result<Answer, Stop>
    requires stands { Stands transaction.old engine.old }
    requires is { transaction.old.mode ≡ modes.Block }
    requires fits { P.fits (world engine.old).last port.old }
    ensures { Goes P.Port
        (spec.commits transaction.old.mode (session_at transaction.old engine.old))
        (told_of_end transaction.old.mode) result
        transaction.new engine.old engine.new port.old port.new }
{
    let Ok(answer) = tagged(engine.alloc(), Tag::Commit) else {
        return Err(Stop::Memory);
    };
    release_all(engine);
    match commit(engine, port) {
        Ok(_) => {
            engine.end_block();
            transaction.end();
            Ok(answer)
        }
        Err(stop) => Err(stop),
    }
}

// The block's changes are undone.
fn undo_block(transaction: &mut Transaction, engine: &mut Engine) -> Result<Answer, Stop>
    ensures { GoesQuietly (undoes (world engine.old)) result
        transaction.new engine.old engine.new }
{
    let Ok(answer) = tagged(engine.alloc(), Tag::Rollback) else {
        return Err(Stop::Memory);
    };
    engine.reset();
    engine.end_block();
    transaction.end();
    Ok(answer)
}

/// COMMIT, and END.
pub(crate) fn end<P: Port>(
    transaction: &mut Transaction,
    engine: &mut Engine,
    port: &mut P,
) -> Result<Answer, Stop>
    requires stands { Stands transaction.old engine.old }
    requires fits { P.fits (world engine.old).last port.old }
    ensures { Goes P.Port
        (spec.commits transaction.old.mode (session_at transaction.old engine.old))
        (told_of_end transaction.old.mode) result
        transaction.new engine.old engine.new port.old port.new }
{
    match transaction.mode {
        Mode::Idle => end_none(&*transaction, engine, port, Tag::Commit),
        Mode::Block => commit_block(transaction, engine, port),
        Mode::Failed => undo_block(transaction, engine),
    }
}

/// ROLLBACK, and ABORT.
pub(crate) fn roll_back<P: Port>(
    transaction: &mut Transaction,
    engine: &mut Engine,
    port: &mut P,
) -> Result<Answer, Stop>
    requires stands { Stands transaction.old engine.old }
    requires fits { P.fits (world engine.old).last port.old }
    ensures { Goes P.Port
        (spec.rolls_back transaction.old.mode (session_at transaction.old engine.old))
        (told_of_end transaction.old.mode) result
        transaction.new engine.old engine.new port.old port.new }
{
    if transaction.is_idle() {
        return end_none(&*transaction, engine, port, Tag::Rollback);
    }
    undo_block(transaction, engine)
}

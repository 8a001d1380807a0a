//! Savepoints: PostgreSQL manual, "SAVEPOINT", "RELEASE SAVEPOINT", "ROLLBACK TO SAVEPOINT".

ghost use Rattle.std.specs.Prelude.{◌≡◌, ◌<◌, length, Some, true};
ghost use Rattle.pl_transactions.specs.Goes.{GoesQuietly};
ghost use Rattle.pl_transactions.specs.State.{Stands, is_block, session_at};
ghost use Rattle.pl_command.specs.pl_world.Sessions as spec;
ghost use Rattle.pl_command.specs.pl_world.declared.session.Mode.TheVariants as modes;

use crate::places::place_of;
use crate::replies::{refuse, tagged};
use crate::transaction::Transaction;
use pl_base::{Name, State};
use pl_command::Answer;
use pl_command::pl_engine::{Engine, Mark, Stop};
use pl_command::pl_world::Mode;
use pl_print::Tag;

// In a block a savepoint keeps the database now.
fn keep(transaction: &mut Transaction, engine: &mut Engine, name: Name) -> Result<Answer, Stop>
    requires stands { Stands transaction.old engine.old }
    requires is { transaction.old.mode ≡ modes.Block }
    ensures { GoesQuietly
        (spec.saves name transaction.old.mode (session_at transaction.old engine.old)) result
        transaction.new engine.old engine.new }
{
    let Ok(answer) = tagged(engine.alloc(), Tag::Savepoint) else {
        return Err(Stop::Memory);
    };
    let Ok(()) = transaction.names.push(name) else {
        return Err(Stop::Memory);
    };
    let Ok(_) = engine.protect() else {
        return Err(Stop::Memory);
    };
    Ok(answer)
}

/// SAVEPOINT
pub(crate) fn save(
    transaction: &mut Transaction,
    engine: &mut Engine,
    name: Name,
) -> Result<Answer, Stop>
    requires stands { Stands transaction.old engine.old }
    ensures { GoesQuietly
        (spec.saves name transaction.old.mode (session_at transaction.old engine.old)) result
        transaction.new engine.old engine.new }
{
    match transaction.mode {
        Mode::Idle => refuse(transaction, &*engine, State::NO_ACTIVE_SQL_TRANSACTION),
        Mode::Block => keep(transaction, engine, name),
        Mode::Failed => refuse(transaction, &*engine, State::IN_FAILED_SQL_TRANSACTION),
    }
}

// The savepoint at this place goes, with those behind it.
fn release_at(transaction: &mut Transaction, engine: &mut Engine, at: usize) -> Result<Answer, Stop>
    requires stands { Stands transaction.old engine.old }
    requires is { transaction.old.mode ≡ modes.Block }
    requires within { at < length transaction.old.names.items }
    ensures { GoesQuietly
        (spec.released_at (Some at) (session_at transaction.old engine.old)) result
        transaction.new engine.old engine.new }
{
    let Ok(answer) = tagged(engine.alloc(), Tag::Release) else {
        return Err(Stop::Memory);
    };
    engine.unprotect(Mark { at });
    transaction.names.truncate(at);
    Ok(answer)
}

// In a block the savepoint of this name goes.
fn release_it(
    transaction: &mut Transaction,
    engine: &mut Engine,
    name: Name,
) -> Result<Answer, Stop>
    requires stands { Stands transaction.old engine.old }
    requires is { transaction.old.mode ≡ modes.Block }
    ensures { GoesQuietly
        (spec.releases name transaction.old.mode (session_at transaction.old engine.old)) result
        transaction.new engine.old engine.new }
{
    match place_of(transaction.names.as_slice(), name) {
        Some(at) => release_at(transaction, engine, at),
        None => refuse(
            transaction,
            &*engine,
            State::INVALID_SAVEPOINT_SPECIFICATION,
        ),
    }
}

/// RELEASE
pub(crate) fn release(
    transaction: &mut Transaction,
    engine: &mut Engine,
    name: Name,
) -> Result<Answer, Stop>
    requires stands { Stands transaction.old engine.old }
    ensures { GoesQuietly
        (spec.releases name transaction.old.mode (session_at transaction.old engine.old)) result
        transaction.new engine.old engine.new }
{
    match transaction.mode {
        Mode::Idle => refuse(transaction, &*engine, State::NO_ACTIVE_SQL_TRANSACTION),
        Mode::Block => release_it(transaction, engine, name),
        Mode::Failed => refuse(transaction, &*engine, State::IN_FAILED_SQL_TRANSACTION),
    }
}

// The database is again that of the savepoint at this place, which stays; those behind it go.
fn return_at(transaction: &mut Transaction, engine: &mut Engine, at: usize) -> Result<Answer, Stop>
    requires stands { Stands transaction.old engine.old }
    requires is { is_block transaction.old.mode ≡ true }
    requires within { at < length transaction.old.names.items }
    ensures { GoesQuietly
        (spec.back_at (Some at) (session_at transaction.old engine.old)) result
        transaction.new engine.old engine.new }
{
    let Ok(answer) = tagged(engine.alloc(), Tag::Rollback) else {
        return Err(Stop::Memory);
    };
    engine.return_to(&Mark { at });
    transaction.names.truncate(at + 1);
    transaction.mode = Mode::Block;
    Ok(answer)
}

// In a block, be it void or not, the session goes back to the savepoint of this name.
fn return_to(transaction: &mut Transaction, engine: &mut Engine, name: Name) -> Result<Answer, Stop>
    requires stands { Stands transaction.old engine.old }
    requires is { is_block transaction.old.mode ≡ true }
    ensures { GoesQuietly
        (spec.goes_back name transaction.old.mode (session_at transaction.old engine.old)) result
        transaction.new engine.old engine.new }
{
    match place_of(transaction.names.as_slice(), name) {
        Some(at) => return_at(transaction, engine, at),
        None => refuse(
            transaction,
            &*engine,
            State::INVALID_SAVEPOINT_SPECIFICATION,
        ),
    }
}

/// ROLLBACK TO
pub(crate) fn go_back(
    transaction: &mut Transaction,
    engine: &mut Engine,
    name: Name,
) -> Result<Answer, Stop>
    requires stands { Stands transaction.old engine.old }
    ensures { GoesQuietly
        (spec.goes_back name transaction.old.mode (session_at transaction.old engine.old)) result
        transaction.new engine.old engine.new }
{
    match transaction.mode {
        Mode::Idle => refuse(transaction, &*engine, State::NO_ACTIVE_SQL_TRANSACTION),
        Mode::Block => return_to(transaction, engine, name),
        Mode::Failed => return_to(transaction, engine, name),
    }
}

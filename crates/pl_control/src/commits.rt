//! COMMIT and ROLLBACK in bodies: PostgreSQL manual, "PL/pgSQL", "Transaction Management".

ghost use Rattle.std.specs.Prelude.{◌≡◌, OnOk};
ghost use Rattle.pl_engine.specs.Answers.{Answers};
ghost use Rattle.pl_engine.specs.Engines.{Quiet, kept, world};
ghost use Rattle.pl_engine.specs.pl_world.Transactions as spec;

use pl_base::State;
use pl_engine::pl_world::Outcome;
use pl_engine::{Engine, Port, Spot, Stop};

/// COMMIT. 2D000 where a running call is no CALL and no DO, a block with handlers runs its
/// statements, or the session is in a transaction block.
pub fn commit<P: Port>(engine: &mut Engine, port: &mut P, at: Spot) -> Result<Outcome, Stop>
    requires fits { P.fits (world engine.old).last port.old }
    ensures is { Answers P.Port (spec.commits at (world engine.old)) result
        engine.old engine.new port.old port.new }
    ensures keeps { OnOk result (kept engine.new ≡ kept engine.old) }
{
    if engine.may_commit() {
        return pl_engine::commit(engine, port);
    }
    Ok(engine.raise(State::INVALID_TRANSACTION_TERMINATION, at))
}

/// ROLLBACK. 2D000 as for COMMIT.
pub fn roll_back(engine: &mut Engine, at: Spot) -> Outcome
    ensures is { Quiet (spec.rolls_back at (world engine.old)) result engine.old engine.new }
    ensures keeps { kept engine.new ≡ kept engine.old }
{
    if engine.may_commit() {
        engine.reset();
        return Outcome::Next;
    }
    engine.raise(State::INVALID_TRANSACTION_TERMINATION, at)
}

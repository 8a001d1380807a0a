//! RAISE alone: PostgreSQL manual, "PL/pgSQL", "Reporting Errors and Messages".

ghost use Rattle.std.specs.Prelude.{IfOk};
ghost use Rattle.pl_asking.specs.pl_engine.Engines.{Quiet, world};
ghost use Rattle.pl_world.specs.Raising as spec;

use crate::handled::handled_error;
use pl_asking::pl_engine::{Engine, Spot};
use pl_base::State;
use pl_world::Outcome;
use std::alloc::AllocError;

/// RAISE alone: the error that the newest call handles arises once more, as it was. 0Z002 where it
/// handles none.
pub fn again(engine: &Engine, at: Spot) -> Result<Outcome, AllocError>
    ensures { IfOk result (λ end. Quiet (spec.again at (world engine.now)) end
        engine.now engine.now) }
{
    match handled_error(engine)? {
        Some(f) => Ok(Outcome::Fail(f)),
        None => Ok(engine.raise(
            State::STACKED_DIAGNOSTICS_ACCESSED_WITHOUT_ACTIVE_HANDLER,
            at,
        )),
    }
}

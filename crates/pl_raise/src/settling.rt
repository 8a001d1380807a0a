//! What a statement finds without an event, or the error that it doesn't.

ghost use Rattle.pl_asking.specs.pl_engine.Engines.{world};
ghost use Rattle.pl_raise.specs.Finding.{FindsHere};
ghost use Rattle.pl_world.specs.Conversions.{settled};

use pl_asking::pl_engine::{Engine, Spot};
use pl_asking::raise_in_run;
use pl_base::State;
use pl_world::Outcome;

/// What was found. An error arises here where there is none.
pub(crate) fn settle<T: Drop>(
    engine: &Engine,
    at: Spot,
    found: Result<T, State>,
) -> Result<T, Outcome>
    ensures { FindsHere (settled found at (world engine.now)) result engine.now }
{
    match found {
        Ok(it) => Ok(it),
        Err(state) => Err(raise_in_run(engine, state, at)),
    }
}

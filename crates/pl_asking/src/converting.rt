//! Values as those of another type: PostgreSQL manual, "Value Storage".

ghost use Rattle.std.specs.Prelude.{IfOk};
ghost use Rattle.pl_base.specs.declared.types.Ty.TheVariants.{Int as Integer};
ghost use Rattle.pl_calling.specs.pl_engine.Asks.{number, truth};
ghost use Rattle.pl_calling.specs.pl_engine.Engines.{Quiet, world};
ghost use Rattle.pl_world.specs.Control.{as_number};
ghost use Rattle.pl_world.specs.Conversions as spec;
ghost use Rattle.pl_world.specs.Errors as errors;

use pl_base::{Memory, State, Ty, Value};
use pl_calc::CalcFail;
use pl_calling::pl_engine::{Engine, Spot};
use pl_calling::{convert, run_state};
use pl_flow::is_true;
use pl_world::Outcome;

/// The error of a value arises here, by the name that it has in a run.
pub fn raise_in_run(engine: &Engine, state: State, at: Spot) -> Outcome
    ensures { Quiet (errors.raised (errors.as_run_state state) at (world engine.now)) result
        engine.now engine.now }
{
    engine.raise(run_state(state), at)
}

/// Whether a condition of this value is true. Null isn't.
pub(crate) fn as_truth(engine: &Engine, at: Spot, v: &Value) -> Result<Outcome, Memory>
    ensures { IfOk result (λ o. Quiet (spec.as_truth v.now at (world engine.now) truth) o
        engine.now engine.now) }
{
    match convert(engine.alloc(), v, Ty::Bool) {
        Ok(v) => Ok(Outcome::Return(Value::Bool(is_true(&v)))),
        Err(CalcFail::State(state)) => Ok(raise_in_run(engine, state, at)),
        Err(CalcFail::Memory) => Err(Memory),
    }
}

// A converted value as a bound.
fn number_of(engine: &Engine, at: Spot, v: Value) -> Outcome
    ensures { Quiet (as_number v at (world engine.now) number) result engine.now engine.now }
{
    match v {
        Value::Int(z) => Outcome::Return(Value::Int(z)),
        Value::Null => engine.raise(State::NULL_VALUE_NOT_ALLOWED, at),
        Value::Big(_) | Value::Text(_) => engine.raise(State::INTERNAL_ERROR, at),
        Value::Bool(_) | Value::Row(_) => engine.raise(State::INTERNAL_ERROR, at),
    }
}

/// The bound of a FOR of this value: an integer. 22004 where it is null.
pub(crate) fn as_bound(engine: &Engine, at: Spot, v: &Value) -> Result<Outcome, Memory>
    ensures { IfOk result (λ o. Quiet (spec.as_type Integer v.now at (world engine.now)
        (λ v w. as_number v at w number)) o engine.now engine.now) }
{
    match convert(engine.alloc(), v, Ty::Int) {
        Ok(v) => Ok(number_of(engine, at, v)),
        Err(CalcFail::State(state)) => Ok(raise_in_run(engine, state, at)),
        Err(CalcFail::Memory) => Err(Memory),
    }
}

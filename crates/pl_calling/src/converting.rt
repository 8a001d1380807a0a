//! Values as those of another type.

ghost use Rattle.std.specs.Prelude.{◌≡◌, IfOk};
ghost use Rattle.pl_calc.specs.Answer.{Gives};
ghost use Rattle.pl_calc.specs.Casts as casts;
ghost use Rattle.pl_engine.specs.Asks.{returned};
ghost use Rattle.pl_engine.specs.Engines.{Quiet, world};
ghost use Rattle.pl_engine.specs.pl_world.Conversions as spec;
ghost use Rattle.pl_engine.specs.pl_world.Errors as errors;

use pl_base::{Memory, State, Ty, Value};
use pl_calc::{CalcFail, cast};
use pl_engine::pl_world::Outcome;
use pl_engine::{Engine, Spot};
use pl_print::text_of;
use std::alloc::Global;

// An assignment casts the value to this type.
fn is_assignable(v: &Value, to: &Ty) -> bool
    ensures { result ≡ casts.is_assignable v.now to.now }
{
    match v {
        Value::Null => true,
        Value::Int(_) | Value::Big(_) => matches!(to, Ty::Int | Ty::Big | Ty::Text),
        Value::Text(_) => matches!(to, Ty::Text),
        Value::Bool(_) => matches!(to, Ty::Bool | Ty::Text),
        Value::Row(_) => matches!(to, Ty::Row(_) | Ty::Rec | Ty::Text),
    }
}

/// A value as one of another type: as an assignment casts it, and where no cast does, by its text.
pub fn convert(alloc: Global, v: &Value, to: Ty) -> Result<Value, CalcFail>
    ensures { Gives result (spec.converted to v.now) }
{
    if is_assignable(v, &to) {
        return cast(alloc, v, to);
    }
    let text = Value::Text(text_of(alloc, v)?);
    cast(alloc, &text, to)
}

/// The name that a failure of an evaluation has as the error of a statement.
pub fn run_state(state: State) -> State
    ensures { result ≡ errors.as_run_state state }
{
    if State::AMBIGUOUS_COLUMN == state
        || State::DATATYPE_MISMATCH == state
        || State::FUNCTION_EXECUTED_NO_RETURN_STATEMENT == state
        || State::OBJECT_NOT_IN_PREREQUISITE_STATE == state
        || State::UNDEFINED_COLUMN == state
        || State::UNDEFINED_FUNCTION == state
        || State::UNDEFINED_TABLE == state
    {
        return State::INTERNAL_ERROR;
    }
    state
}

/// A value as one of another type. It is answered by `Return`.
pub fn as_type(engine: &Engine, at: Spot, v: &Value, to: Ty) -> Result<Outcome, Memory>
    ensures { IfOk result (λ o. Quiet (spec.as_type to v.now at (world engine.now) returned) o
        engine.now engine.now) }
{
    match convert(engine.alloc(), v, to) {
        Ok(v) => Ok(Outcome::Return(v)),
        Err(CalcFail::State(state)) => Ok(engine.raise(run_state(state), at)),
        Err(CalcFail::Memory) => Err(Memory),
    }
}

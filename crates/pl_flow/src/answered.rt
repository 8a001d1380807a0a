//! What was answered to what statements ask. What is no such answer ends the statement.

ghost use Rattle.std.specs.Prelude.{◌≡◌};
ghost use Rattle.pl_flow.specs.Answered as spec;
ghost use Rattle.pl_value.specs.Combined as combined;

use pl_base::Value;
use pl_engine::pl_world::Outcome;

/// The value is true; null isn't.
pub fn is_true(v: &Value) -> bool
    ensures { result ≡ combined.is_true v.now }
{
    match v {
        Value::Bool(is) => *is,
        _ => false,
    }
}

/// The truth that was answered, null as false.
pub fn truth_of(answer: Outcome) -> Result<bool, Outcome>
    ensures { result ≡ spec.truth_of answer }
{
    match answer {
        Outcome::Return(v) => Ok(is_true(&v)),
        other => Err(other),
    }
}

/// The integer that was answered.
pub fn number_of(answer: Outcome) -> Result<i32, Outcome>
    ensures { result ≡ spec.number_of answer }
{
    match answer {
        Outcome::Return(Value::Int(number)) => Ok(number),
        other => Err(other),
    }
}

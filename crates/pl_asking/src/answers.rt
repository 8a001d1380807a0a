//! What an expression was answered.

ghost use Rattle.std.specs.Prelude.{◌≡◌};
ghost use Rattle.pl_asking.specs.Values as spec;

use pl_base::Value;
use pl_world::Outcome;

/// The value that was answered. What is none ends the statement.
pub fn value_of(answer: Outcome) -> Result<Value, Outcome>
    ensures { result ≡ spec.value_of answer }
{
    match answer {
        Outcome::Return(v) => Ok(v),
        other => Err(other),
    }
}

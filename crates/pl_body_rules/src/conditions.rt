//! Conditions as they are written: PostgreSQL manual, "PostgreSQL Error Codes".

ghost use Rattle.std.specs.List.{list_all};
ghost use Rattle.std.specs.Prelude.{◌≡◌};
ghost use Rattle.pl_body_rules.specs.Conditions as spec;

use pl_base::{Name, State, state_of};
use pl_bodies::{Caught, Condition};
use std::str;

/// The length of a SQLSTATE in bytes.
const CODE_LEN: usize = 5;

#[tactic(auto, using(crate::proofs::Named::named, crate::proofs::Named::not_text))]
fn is_condition(name: &Name) -> bool
    ensures { result ≡ spec.is_condition name.now }
{
    match str::from_utf8(name.as_bytes()) {
        Ok(text) => state_of(text).is_some(),
        Err(_) => false,
    }
}

fn are_of_code(bytes: &[u8]) -> bool
    ensures { result ≡ list_all spec.is_of_code bytes.now }
{
    bytes
        .iter()
        .all(|byte| byte.is_ascii_digit() || byte.is_ascii_uppercase())
}

fn is_code(code: &[u8]) -> bool
    ensures { result ≡ spec.is_code code.now }
{
    code.len() == CODE_LEN && code != b"00000".as_slice() && are_of_code(code)
}

/// Whether the condition is one that can be raised.
pub(crate) fn is_known(condition: &Condition) -> bool
    ensures { result ≡ spec.is_known condition.now }
{
    match condition {
        Condition::Name(name) => is_condition(name),
        Condition::Code(code) => is_code(code.as_bytes()),
    }
}

fn is_caught(caught: &Caught) -> bool
    ensures { result ≡ spec.is_caught caught.now }
{
    match caught {
        Caught::Others => true,
        Caught::Condition(condition) => is_known(condition),
    }
}

/// 42704 where one of a handler's conditions isn't known.
pub(crate) fn caught_state(conditions: &[Caught]) -> Option<State>
    ensures { result ≡ spec.caught_state conditions.now }
{
    for caught in conditions {
        if !is_caught(caught) {
            return Some(State::UNDEFINED_OBJECT);
        }
    }
    None
}

//! The SQLSTATEs of conditions: PostgreSQL manual, "PL/pgSQL", "Trapping Errors"; "PostgreSQL Error
//! Codes".

ghost use Rattle.std.specs.Char.{is_ascii_digit, is_ascii_uppercase};
ghost use Rattle.std.specs.List.{list_all};
ghost use Rattle.std.specs.Prelude.{◌≡◌, ◌||◌};
ghost use Rattle.pl_world.specs.Conditions as spec;

use pl_base::{State, state_of};
use pl_bodies::Condition;
use std::str;

/// The length of a SQLSTATE in bytes.
const CODE_LEN: usize = 5;

// The SQLSTATE that the table gives the name.
#[tactic(auto, using(crate::proofs::Named::not_text))]
fn code_named(name: &[u8]) -> Option<State>
    ensures { result ≡ spec.code_named name.now }
{
    match str::from_utf8(name) {
        Ok(text) => state_of(text),
        Err(_) => None,
    }
}

fn are_of_code(bytes: &[u8]) -> bool
    ensures { result ≡ list_all (λ c. is_ascii_digit c || is_ascii_uppercase c) bytes.now }
{
    bytes
        .iter()
        .all(|byte| byte.is_ascii_digit() || byte.is_ascii_uppercase())
}

// Five digits or capital letters, and not those of success.
fn is_code(text: &[u8]) -> bool
    ensures { result ≡ spec.is_code text.now }
{
    text.len() == CODE_LEN && are_of_code(text) && text != b"00000".as_slice()
}

fn code_spelled(text: &[u8]) -> Option<State>
    ensures { result ≡ spec.code_spelled text.now }
{
    if !is_code(text) {
        return None;
    }
    match <[u8; CODE_LEN]>::try_from(text) {
        Ok(code) => Some(State { code }),
        Err(_) => None,
    }
}

/// The SQLSTATE of a condition, as it is written in a body. None where no condition has the name,
/// and where the text is no code.
pub fn code_of(condition: &Condition) -> Option<State>
    ensures { result ≡ spec.code_of condition.now }
{
    match condition {
        Condition::Name(name) => code_named(name.as_bytes()),
        Condition::Code(text) => code_spelled(text.as_bytes()),
    }
}

/// The SQLSTATE that a text is, or whose condition it names. None where it is neither.
pub fn code_or_name(text: &[u8]) -> Option<State>
    ensures { result ≡ spec.code_or_name text.now }
{
    match code_spelled(text) {
        Some(code) => Some(code),
        None => code_named(text),
    }
}

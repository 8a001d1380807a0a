//! What is written down, and variables.

ghost use Rattle.std.specs.Prelude.{◌≡◌, IfSome, Ok};
ghost use Rattle.pl_direct.specs.Known.{NullAt, NullIs, Stands, type_of, value_of};
ghost use Rattle.pl_direct.specs.Search.{StandsFor, meaning_of};
ghost use Rattle.pl_names.specs.Names as meanings;
ghost use Rattle.pl_names.specs.Names.{around};
ghost use Rattle.pl_typing.specs.Literals as literals;

use crate::Known;
use crate::search::{Spot, variables_within};
use pl_base::{Name, Value};
use pl_names::{Meaning, Names, Scope, parameter_means};
use pl_tree::Literal;

/// A number or a truth. None for a text and for NULL, and for a number that 64 bits can't hold.
pub(crate) fn constant(literal: &Literal) -> Option<Known>
    ensures { IfSome result (λ known. literals.literal_means literal.now
        ≡ Ok (literals.constant (value_of known) (type_of known))) }
{
    match literal {
        Literal::Bool(truth) => Some(Known::Bool(*truth)),
        Literal::Number { is_negative, size } => number(*is_negative, *size),
        Literal::Null | Literal::Text(_) => None,
    }
}

fn number(is_negative: bool, size: u64) -> Option<Known>
    ensures { IfSome result (λ known. literals.number_means (literals.signed is_negative size)
        ≡ Ok (literals.constant (value_of known) (type_of known))) }
{
    let number = whole(is_negative, size)?;
    Some(sized(number))
}

fn whole(is_negative: bool, size: u64) -> Option<i64>
    ensures { result ≡ literals.in_64_bits (literals.signed is_negative size) }
{
    if is_negative {
        0i64.checked_sub_unsigned(size)
    } else {
        i64::try_from(size).ok()
    }
}

fn sized(number: i64) -> Known
    ensures { literals.sized number ≡ literals.constant (value_of result) (type_of result) }
{
    match i32::try_from(number) {
        Ok(number) => Known::Int(number),
        Err(_) => Known::Big(number),
    }
}

// ---- variables

/// The variable that the name means, where it is one and no query is around. Nothing is copied.
pub(crate) fn variable<'a>(name: &Name, names: &Names<'a>) -> Option<Spot<'a>>
    ensures { IfSome result (λ spot. meanings.name_means name.now (around names.now)
        ≡ Ok (meaning_of spot)) }
{
    if names.levels.is_empty() {
        return match variables_within(name, names.scope.frames.as_slice())? {
            Some(spot) => Some(spot),
            None => None,
        };
    }
    None
}

/// The variable that the name means outside of queries, where it is one. Nothing is copied.
pub fn direct_variable<'a>(scope: &'a Scope, name: &Name) -> Option<Spot<'a>>
    ensures { IfSome result (λ spot. StandsFor name.now scope.now spot) }
{
    match variables_within(name, scope.frames.as_slice())? {
        Some(spot) => Some(spot),
        None => None,
    }
}

/// What `$number` means, where there is such a parameter.
pub(crate) fn parameter(number: u16, names: &Names<'_>) -> Option<Meaning>
    ensures { IfSome result (λ m. (meanings.parameter_means number (around names.now) ≡ Ok m)
        × (m.row ≡ 0)) }
{
    match parameter_means(number, names) {
        Ok(meaning) if meaning.row == 0 => Some(meaning),
        _ => None,
    }
}

/// The value of a parameter. None where it is null, or neither a number nor a truth.
pub(crate) fn known_at(meaning: Meaning, variables: &[Value]) -> Option<Known>
    ensures { IfSome result (λ known. Stands meaning variables.now (type_of known)
        (value_of known)) }
{
    let value = variables.get(meaning.column)?;
    Known::of(&meaning.ty, value)
}

/// The value of a variable. None where it is null, or neither a number nor a truth.
pub(crate) fn known_there(spot: Spot<'_>, variables: &[Value]) -> Option<Known>
    ensures { IfSome result (λ known. Stands (meaning_of spot.entry) variables.now (type_of known)
        (value_of known)) }
{
    let value = variables.get(spot.column)?;
    Known::of(&spot.seen.ty, value)
}

/// Whether a variable is null. None for a row, which is null where its fields are.
pub(crate) fn is_null_there(spot: Spot<'_>, variables: &[Value]) -> Option<bool>
    ensures { IfSome result (λ is_null. NullAt (meaning_of spot.entry) variables.now is_null) }
{
    let value = variables.get(spot.column)?;
    null_or_not(value)
}

fn null_or_not(value: &Value) -> Option<bool>
    ensures { IfSome result (λ is_null. NullIs value.now is_null) }
{
    match value {
        Value::Null => Some(true),
        Value::Row(_) => None,
        Value::Int(_) | Value::Big(_) | Value::Text(_) | Value::Bool(_) => Some(false),
    }
}

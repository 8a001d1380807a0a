//! Values, read from the front of what is left of a payload.

ghost use Rattle.std.specs.Prelude.{◌≡◌, ◌∷◌, length, IfOk, IfSome};
ghost use Rattle.std.specs.List.{flat_map, list_all};
ghost use Rattle.pl_codec.specs.Spelling.{value_bytes, is_stored_value};
ghost use Rattle.pl_codec.specs.Reading.{int_front, big_front, truth_front, text_value_front, value_front, values_front};
ghost use Rattle.pl_codec.specs.Reads.{Reads, Takes};

use crate::input::Input;
use pl_base::{List, Txt, Value};
use std::alloc::{AllocError, Global};

// The integer behind a 1.
fn read_int(input: &mut Input<'_>) -> Option<Value>
    ensures read { Reads (int_front input.old) result input.new }
    ensures taken { Takes value_bytes is_stored_value (1 ∷ input.old) result input.new }
{
    let Some(number) = input.number_of_32_bits() else {
        return None;
    };
    Some(Value::Int(number.cast_signed()))
}

// The integer behind a 2.
fn read_big(input: &mut Input<'_>) -> Option<Value>
    ensures read { Reads (big_front input.old) result input.new }
    ensures taken { Takes value_bytes is_stored_value (2 ∷ input.old) result input.new }
{
    let Some(number) = input.number_of_64_bits() else {
        return None;
    };
    Some(Value::Big(number.cast_signed()))
}

// The text behind a 3.
fn read_text(alloc: Global, input: &mut Input<'_>) -> Result<Option<Value>, AllocError>
    ensures read { IfOk result (λ found. Reads (text_value_front input.old) found input.new) }
    ensures taken { IfOk result (λ found.
        Takes value_bytes is_stored_value (3 ∷ input.old) found input.new) }
{
    let Some(text) = input.text() else {
        return Ok(None);
    };
    Ok(Some(Value::Text(Txt::from_slice(alloc, text)?)))
}

// The truth value behind a 4.
fn read_truth(input: &mut Input<'_>) -> Option<Value>
    ensures read { Reads (truth_front input.old) result input.new }
    ensures taken { Takes value_bytes is_stored_value (4 ∷ input.old) result input.new }
{
    match input.byte() {
        Some(0) => Some(Value::Bool(false)),
        Some(1) => Some(Value::Bool(true)),
        Some(_) | None => None,
    }
}

/// The value in front.
#[tactic(auto, unfolding(crate::specs::Reading::value_front))]
pub fn read_value(alloc: Global, input: &mut Input<'_>) -> Result<Option<Value>, AllocError>
    ensures read { IfOk result (λ found. Reads (value_front input.old) found input.new) }
    ensures taken { IfOk result (λ found.
        Takes value_bytes is_stored_value input.old found input.new) }
{
    let Some(kind) = input.byte() else {
        return Ok(None);
    };
    match kind {
        0 => Ok(Some(Value::Null)),
        1 => Ok(read_int(input)),
        2 => Ok(read_big(input)),
        3 => read_text(alloc, input),
        4 => Ok(read_truth(input)),
        _ => Ok(None),
    }
}

/// So many values.
pub fn read_values(
    alloc: Global,
    input: &mut Input<'_>,
    count: usize,
) -> Result<Option<List<Value>>, AllocError>
    ensures read { IfOk result (λ found. Reads (values_front count input.old) found input.new) }
    ensures size { IfOk result (λ found. IfSome found (λ values. length values ≡ count)) }
    ensures taken { IfOk result (λ found.
        Takes (flat_map value_bytes) (list_all is_stored_value) input.old found input.new) }
{
    let mut values = List::from_vec(Vec::with_capacity(alloc, count)?);
    for _turn in 0..count {
        let Some(value) = read_value(alloc, input)? else {
            return Ok(None);
        };
        values.push(value)?;
    }
    Ok(Some(values))
}

//! What variables were before a turn gave them values, so that the turn can be undone.

ghost use Rattle.std.specs.Prelude.{◌≡◌, slice_set, true, IfSome};
ghost use Rattle.pl_quick.specs.Old.{IsOld, Tracked, old_value, undone_in};

use crate::scratch::Scratch;
use pl_base::{List, Value};
use pl_direct::Known;

/// What a variable was.
#[derive(Clone, Copy)]
pub(crate) struct Old {
    pub column: usize,
    /// None for null.
    pub value: Option<Known>,
}

/// Null, a number or a truth. None for any other value.
pub(crate) fn known_or_null(value: &Value) -> Option<Option<Known>>
    ensures { IfSome result (λ known. value.now ≡ old_value known) }
{
    match value {
        Value::Null => Some(None),
        Value::Int(number) => Some(Some(Known::Int(*number))),
        Value::Big(number) => Some(Some(Known::Big(*number))),
        Value::Bool(truth) => Some(Some(Known::Bool(*truth))),
        Value::Text(_) | Value::Row(_) => None,
    }
}

fn value_of(known: Option<Known>) -> Value
    ensures { result ≡ old_value known }
{
    match known {
        Some(known) => known.value(),
        None => Value::Null,
    }
}

// What the variable of this place is. None where there is none, and where it is neither null nor a
// number or a truth.
fn old_at(values: &[Value], column: usize) -> Option<Old>
    ensures { IfSome result (λ old. IsOld old column values.now) }
{
    let value = values.get(column)?;
    Some(Old {
        column,
        value: known_or_null(value)?,
    })
}

// The variable of this place has this value, if there is one.
#[inline(always)]
fn set(values: &mut List<Value>, column: usize, value: Value)
    ensures { values.new ≡ slice_set values.old column value }
{
    if column < values.len() {
        values.set(column, value);
    }
}

/// The variable of this place has this value, and what it was is kept. False where nothing is done.
pub(crate) fn assign(scratch: &mut Scratch, column: usize, value: Value) -> bool
    ensures done { result ≡ true
        → scratch.new.values ≡ slice_set scratch.old.values column value }
    ensures tracked { Tracked scratch.old scratch.new }
    ensures steps { scratch.new.steps ≡ scratch.old.steps }
{
    let Some(old) = old_at(scratch.values.as_slice(), column) else {
        return false;
    };
    let Ok(()) = scratch.olds.push(old) else {
        return false;
    };
    set(&mut scratch.values, column, value);
    true
}

/// The variables are again what they were.
pub(crate) fn undo(scratch: &mut Scratch)
    ensures { scratch.new.values ≡ undone_in scratch.old }
{
    while let Some(old) = scratch.olds.pop() {
        set(&mut scratch.values, old.column, value_of(old.value));
    }
}

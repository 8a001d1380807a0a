//! Numbers and truths that resolved expressions give over a row of variables. What is null or of
//! another kind, or fails, has none.

ghost use Rattle.std.specs.Prelude.{◌≡◌, [], ◌∷◌, map, not, true, IfSome, Some};
ghost use Rattle.pl_base.specs.declared.value.Value.TheVariants.{Bool as Truth};
ghost use Rattle.pl_direct.specs.Direct.{Valued};
ghost use Rattle.pl_direct.specs.Known.{value_of};
ghost use Rattle.pl_quick.specs.Calling.{AllRead};
ghost use Rattle.pl_value.specs.Meaning as spec;
ghost use Rattle.pl_value.specs.Meaning.{Calls, Sub};
ghost use Rattle.pl_value.specs.Number.{number_value};
ghost use Rattle.pl_value.specs.Reading.{got};

use pl_base::{List, Value};
use pl_direct::Known;
use pl_resolved::RExpr;
use pl_value::{Lent, Number, given_number, truth_in};

// The number with its type. None for an integer that 32 bits can't hold.
#[inline(always)]
fn known(number: Number) -> Option<Known>
    ensures { IfSome result (λ known. number_value number ≡ value_of known) }
{
    if !number.is_integer {
        return Some(Known::Big(number.whole));
    }
    match i32::try_from(number.whole) {
        Ok(whole) => Some(Known::Int(whole)),
        Err(_) => None,
    }
}

// The truth of what is neither AND nor OR.
#[inline(always)]
fn plain_truth<C>(e: &RExpr, variables: &[Value]) -> Option<bool>
    ensures { IfSome result (λ b. Valued C e.now variables.now (Truth b)) }
{
    let frame = [Lent { cells: variables }];
    match truth_in::<C>(e, &frame) {
        Some(Some(truth)) => Some(truth),
        _ => None,
    }
}

/// The truth of a condition. None where it is unknown too.
#[cycle(reading)]
pub(crate) fn truth<C>(e: &RExpr, variables: &[Value]) -> Option<bool>
    ensures { IfSome result (λ b. Valued C e.now variables.now (Truth b)) }
{
    match e {
        RExpr::And(parts) => joined::<C>(false, parts.as_slice(), variables),
        RExpr::Or(parts) => joined::<C>(true, parts.as_slice(), variables),
        _ => plain_truth::<C>(e, variables),
    }
}

// The truth of AND, or of OR where true is what fixes it.
#[cycle(reading)]
fn joined<C>(fixed: bool, parts: &[RExpr], variables: &[Value]) -> Option<bool>
    ensures { IfSome result (λ b. (calls : Calls C) (sub : Sub C) (w : C)
        → spec.junction fixed (map (spec.value calls sub) parts.now) (variables.now ∷ []) w
        ≡ got (Truth b) w) }
{
    let truth = truth_from::<C>(fixed, parts, variables)?;
    Some(truth)
}

// The same, as the truth or nothing.
#[cycle(reading)]
fn truth_from<C>(fixed: bool, parts: &[RExpr], variables: &[Value]) -> Option<bool>
    ensures { IfSome result (λ b. (calls : Calls C) (sub : Sub C) (w : C)
        → spec.joined fixed (map (spec.value calls sub) parts.now) (Some (not fixed))
        (variables.now ∷ []) w ≡ got (Some b) w) }
{
    for part in parts {
        let truth = truth::<C>(part, variables)?;
        if truth == fixed {
            return Some(fixed);
        }
    }
    Some(!fixed)
}

/// The number or the truth of an expression.
#[inline(always)]
pub(crate) fn number_or_truth<C>(e: &RExpr, variables: &[Value]) -> Option<Known>
    ensures { IfSome result (λ known. Valued C e.now variables.now (value_of known)) }
{
    let frame = [Lent { cells: variables }];
    match given_number::<C>(e, &frame) {
        Some(number) => known(number),
        None => Some(Known::Bool(truth::<C>(e, variables)?)),
    }
}

fn clear(values: &mut List<Value>)
    ensures { values.new ≡ [] }
{
    while let Some(_value) = values.pop() {}
}

/// The numbers and the truths of expressions, in the place of what was read before. False where one
/// isn't read at once.
pub(crate) fn all_read<C>(list: &[RExpr], variables: &[Value], read: &mut List<Value>) -> bool
    ensures { result ≡ true → AllRead C list.now variables.now read.new }
{
    clear(read);
    for e in list {
        let Some(known) = number_or_truth::<C>(e, variables) else {
            return false;
        };
        let Ok(()) = read.push(known.value()) else {
            return false;
        };
    }
    true
}

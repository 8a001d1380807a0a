//! Arithmetic on numbers that stand, without a value in between. What is null or no number, or
//! fails, is left to the reading of values: nothing here says why there is no number.

ghost use Rattle.std.specs.Prelude.{◌≡◌, ℤ, false, if◌then◌else◌, map, option_map, true, IfSome};
ghost use Rattle.std.specs.Prelude.{Ok, Some};
ghost use Rattle.pl_calc.specs.Numbers.{arithmetic, then_as};
ghost use Rattle.pl_calc.specs.Numbers.{bigint as as_bigint, integer as as_integer};
ghost use Rattle.pl_calc.specs.Operators.{binary_value};
ghost use Rattle.pl_value.specs.Frames.{cell, or_null, rows_of};
ghost use Rattle.pl_value.specs.Meaning as spec;
ghost use Rattle.pl_value.specs.Meaning.{Calls, Sub};
ghost use Rattle.pl_value.specs.Number.{number_value, of_kind, packed_value};
ghost use Rattle.pl_value.specs.Number.{typed_value};
ghost use Rattle.pl_value.specs.Reading.{got};

use crate::Lent;
use crate::standing::cell_at;
use pl_base::{Arithmetic, Operator, Value};
use pl_calc::whole;
use pl_resolved::{RChain, RExpr, RStep};

/// A number, and whether its type is integer, of 32 bits, or bigint, of 64.
#[derive(Clone, Copy)]
pub struct Number {
    pub whole: i64,
    pub is_integer: bool,
}

// A number or none, in two scalars, which a call hands back in registers.
#[derive(Clone, Copy)]
struct Packed {
    kind: Kind,
    whole: i64,
}

#[derive(Clone, Copy)]
enum Kind {
    Nothing,
    Integer,
    Bigint,
}

#[inline(always)]
fn pack(number: Option<Number>) -> Packed
    ensures { packed_value result ≡ option_map number_value number }
{
    match number {
        Some(number) => Packed {
            kind: number_kind(number.is_integer),
            whole: number.whole,
        },
        None => Packed {
            kind: Kind::Nothing,
            whole: 0,
        },
    }
}

#[inline(always)]
fn number_kind(is_integer: bool) -> Kind
    ensures { (z : ℤ) → of_kind result z ≡ Some (typed_value is_integer z) }
{
    if is_integer {
        Kind::Integer
    } else {
        Kind::Bigint
    }
}

#[inline(always)]
fn unpack(packed: Packed) -> Option<Number>
    ensures { option_map number_value result ≡ packed_value packed }
{
    let whole = packed.whole;
    match packed.kind {
        Kind::Nothing => None,
        Kind::Integer => Some(Number {
            whole,
            is_integer: true,
        }),
        Kind::Bigint => Some(Number {
            whole,
            is_integer: false,
        }),
    }
}

/// How deep chains in chains are read as numbers. It bounds how often a part is read again as a
/// value, where a chain around it turns out to be no number.
pub(crate) const NUMBER_DEPTH: usize = 8;

/// The number as a value. None for an integer that 32 bits can't hold.
#[inline(always)]
pub(crate) fn value_of(number: Number) -> Option<Value>
    ensures { IfSome result (λ v. v ≡ number_value number) }
{
    if !number.is_integer {
        return Some(Value::Big(number.whole));
    }
    match i32::try_from(number.whole) {
        Ok(whole) => Some(Value::Int(whole)),
        Err(_) => None,
    }
}

#[inline(always)]
fn number_of(value: &Value) -> Option<Number>
    ensures { IfSome result (λ n. value.now ≡ number_value n) }
{
    match value {
        Value::Int(number) => Some(Number {
            whole: i64::from(*number),
            is_integer: true,
        }),
        Value::Big(number) => Some(Number {
            whole: *number,
            is_integer: false,
        }),
        _ => None,
    }
}

#[inline(always)]
fn number_at(frame: &[Lent<'_>], row: usize, column: usize) -> Option<Number>
    ensures { IfSome result (λ n.
        or_null (cell (rows_of frame.now) row column) ≡ number_value n) }
{
    match cell_at(frame, row, column) {
        Some(value) => number_of(value),
        None => None,
    }
}

/// The number that the expression gives over the rows that stand. None where it is to be read as a
/// value.
#[inline(always)]
pub fn given_number<C>(e: &RExpr, frame: &[Lent<'_>]) -> Option<Number>
    ensures { IfSome result (λ n. (calls : Calls C) (sub : Sub C) (caller : C)
        → spec.value calls sub e.now (rows_of frame.now) caller ≡ got (number_value n) caller) }
{
    number_in::<C>(e, frame, NUMBER_DEPTH)
}

/// The same, where chains in chains are read so deep.
#[cycle(number)]
#[inline(always)]
pub(crate) fn number_in<C>(e: &RExpr, frame: &[Lent<'_>], depth: usize) -> Option<Number>
    ensures { IfSome result (λ n. (calls : Calls C) (sub : Sub C) (caller : C)
        → spec.value calls sub e.now (rows_of frame.now) caller ≡ got (number_value n) caller) }
{
    match e {
        RExpr::Constant(value) => number_of(value),
        RExpr::Place { row, column } => number_at(frame, *row, *column),
        RExpr::Chain(chain) if depth > 0 => {
            unpack(chain_packed::<C>(chain.get(), frame, depth - 1))
        }
        _ => None,
    }
}

/// The value of operators of one level that gives a number. None where it is to be read as a value.
#[inline(always)]
pub(crate) fn chain_made<C>(chain: &RChain, frame: &[Lent<'_>]) -> Option<Value>
    ensures { IfSome result (λ v. (calls : Calls C) (sub : Sub C) (caller : C)
        → spec.chain calls sub chain.now (rows_of frame.now) caller ≡ got v caller) }
{
    let number = chain_number::<C>(chain, frame)?;
    let v = value_of(number)?;
    Some(v)
}

#[inline(always)]
fn chain_number<C>(chain: &RChain, frame: &[Lent<'_>]) -> Option<Number>
    ensures { IfSome result (λ n. (calls : Calls C) (sub : Sub C) (caller : C)
        → spec.chain calls sub chain.now (rows_of frame.now) caller
        ≡ got (number_value n) caller) }
{
    unpack(chain_packed::<C>(chain, frame, NUMBER_DEPTH))
}

#[cycle(number)]
#[inline(never)]
fn chain_packed<C>(chain: &RChain, frame: &[Lent<'_>], depth: usize) -> Packed
    ensures { IfSome (packed_value result) (λ v. (calls : Calls C) (sub : Sub C) (caller : C)
        → spec.chain calls sub chain.now (rows_of frame.now) caller ≡ got v caller) }
{
    pack(outer_chain::<C>(chain, frame, depth))
}

#[cycle(number)]
#[inline(always)]
fn outer_chain<C>(chain: &RChain, frame: &[Lent<'_>], depth: usize) -> Option<Number>
    ensures { IfSome result (λ n. (calls : Calls C) (sub : Sub C) (caller : C)
        → spec.chain calls sub chain.now (rows_of frame.now) caller
        ≡ got (number_value n) caller) }
{
    let first = number_of_chain::<C>(&chain.first, frame, depth)?;
    steps_number::<C>(chain.steps.as_slice(), first, frame, depth)
}

/// The same as `number_in`, for operands that mostly are chains: such a chain is read in place,
/// which spares a call.
#[cycle(number)]
#[inline(always)]
pub(crate) fn number_of_chain<C>(e: &RExpr, frame: &[Lent<'_>], depth: usize) -> Option<Number>
    ensures { IfSome result (λ n. (calls : Calls C) (sub : Sub C) (caller : C)
        → spec.value calls sub e.now (rows_of frame.now) caller ≡ got (number_value n) caller) }
{
    match e {
        RExpr::Chain(chain) if depth > 0 => inner_chain::<C>(chain.get(), frame, depth - 1),
        _ => number_in::<C>(e, frame, depth),
    }
}

#[cycle(number)]
#[inline(always)]
fn inner_chain<C>(chain: &RChain, frame: &[Lent<'_>], depth: usize) -> Option<Number>
    ensures { IfSome result (λ n. (calls : Calls C) (sub : Sub C) (caller : C)
        → spec.chain calls sub chain.now (rows_of frame.now) caller
        ≡ got (number_value n) caller) }
{
    let first = number_in::<C>(&chain.first, frame, depth)?;
    steps_number::<C>(chain.steps.as_slice(), first, frame, depth)
}

#[cycle(number)]
#[inline(always)]
fn steps_number<C>(
    steps: &[RStep],
    first: Number,
    frame: &[Lent<'_>],
    depth: usize,
) -> Option<Number>
    ensures { IfSome result (λ n. (calls : Calls C) (sub : Sub C) (caller : C)
        → spec.steps_read (map (spec.step calls sub) steps.now) (number_value first)
        (rows_of frame.now) caller ≡ got (number_value n) caller) }
{
    let mut so_far = first;
    for step in steps {
        so_far = step_number::<C>(step, so_far, frame, depth)?;
    }
    Some(so_far)
}

#[cycle(number)]
#[inline(always)]
fn step_number<C>(step: &RStep, so_far: Number, frame: &[Lent<'_>], depth: usize) -> Option<Number>
    ensures { IfSome result (λ n. (calls : Calls C) (sub : Sub C) (caller : C)
        → spec.step_read (spec.step calls sub step.now) (number_value so_far)
        (rows_of frame.now) caller ≡ got (number_value n) caller) }
{
    let Operator::Arithmetic(operator) = step.operator else {
        return None;
    };
    let operand = number_in::<C>(&step.operand, frame, depth)?;
    calculated(operator, so_far, operand)
}

#[inline(always)]
#[tactic(auto, using(crate::proofs::Numbers::integers_give, crate::proofs::Numbers::bigints_give))]
fn calculated(operator: Arithmetic, a: Number, b: Number) -> Option<Number>
    ensures { IfSome result (λ n. binary_value (Operator.Arithmetic operator)
        (number_value a) (number_value b) ≡ Ok (number_value n)) }
{
    if are_integers(a, b) {
        let whole = integer(operator, a.whole, b.whole)?;
        Some(Number {
            whole,
            is_integer: true,
        })
    } else {
        let whole = bigint(operator, a.whole, b.whole)?;
        Some(Number {
            whole,
            is_integer: false,
        })
    }
}

#[inline(always)]
fn are_integers(a: Number, b: Number) -> bool
    ensures { result ≡ (if a.is_integer then b.is_integer else false) }
{
    a.is_integer && b.is_integer
}

#[inline(always)]
fn integer(operator: Arithmetic, a: i64, b: i64) -> Option<i64>
    ensures { IfSome result (λ z. then_as as_integer (arithmetic operator a b)
        ≡ Ok (typed_value true z)) }
{
    let Ok(number) = whole(operator, a, b) else {
        return None;
    };
    match i32::try_from(number) {
        Ok(number) => Some(i64::from(number)),
        Err(_) => None,
    }
}

#[inline(always)]
fn bigint(operator: Arithmetic, a: i64, b: i64) -> Option<i64>
    ensures { IfSome result (λ z. then_as as_bigint (arithmetic operator a b)
        ≡ Ok (typed_value false z)) }
{
    match whole(operator, a, b) {
        Ok(number) => Some(number),
        Err(_) => None,
    }
}

/// What the operator gives for two numbers. None where it is to be read as a value.
pub(crate) fn of_numbers(operator: Operator, x: &Value, y: &Value) -> Option<Value>
    ensures { IfSome result (λ v. binary_value operator x.now y.now ≡ Ok v) }
{
    let Operator::Arithmetic(operator) = operator else {
        return None;
    };
    let number = calculated(operator, number_of(x)?, number_of(y)?)?;
    let v = value_of(number)?;
    Some(v)
}

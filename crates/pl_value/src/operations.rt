//! What is made of values that were read, by the tables of values.

ghost use Rattle.std.specs.Prelude.{◌≡◌, not, option_map, true, Bool, Ok, Result, Some};
ghost use Rattle.pl_base.specs.declared.state.State.{State as AState};
ghost use Rattle.pl_calc.specs.Answer.{Answer, Gives};
ghost use Rattle.pl_calc.specs.Casts.{cast_to};
ghost use Rattle.pl_calc.specs.Logic.{and_of, is_null, or_of, truth_of, truth_value};
ghost use Rattle.pl_calc.specs.Reading.{GivesTruth};
ghost use Rattle.pl_calc.specs.Operators.{binary_value, unary_value};
ghost use Rattle.pl_value.specs.Answers.{Reads};
ghost use Rattle.pl_value.specs.Combined.{cast_through, equals, is_true, repeated};
ghost use Rattle.pl_value.specs.Meaning.{is_fixed, is_so, joint, met, true_of};
ghost use Rattle.pl_value.specs.Reading.{settled};

use crate::number::of_numbers;
use crate::{Operand, Unsettled};
use pl_base::{Comparison, Operator, State, Ty, Value};
use pl_calc::{CalcFail, binary, cast, unary};
use std::alloc::Global;

/// The answer of an operation on values, as evaluation gives it.
pub(crate) fn settle<C>(outcome: Result<Value, CalcFail>) -> Result<Value, Unsettled>
    ensures { (answer : Answer) (left : C) → Gives outcome answer
        → Reads (settled answer left) result left }
{
    match outcome {
        Ok(value) => Ok(value),
        Err(CalcFail::State(state)) => Err(Unsettled::Fails(state)),
        Err(CalcFail::Memory) => Err(Unsettled::Memory),
    }
}

/// The same, of an operand.
pub(crate) fn settle_operand<'a, C>(
    outcome: Result<Operand<'a>, CalcFail>,
) -> Result<Operand<'a>, Unsettled>
    ensures { (answer : Answer) (left : C) → Gives outcome.entry answer
        → Reads (settled answer left) result left }
{
    match outcome {
        Ok(value) => Ok(value),
        Err(CalcFail::State(state)) => Err(Unsettled::Fails(state)),
        Err(CalcFail::Memory) => Err(Unsettled::Memory),
    }
}

/// Whether a WHEN of this value equals the operand of CASE.
pub(crate) fn is_met<C>(alloc: Global, x: &Value, v: &Value) -> Result<bool, Unsettled>
    ensures { (left : C) → Reads (settled (met (Some x.now) v.now) left) result left }
{
    settle_truth::<C>(is_equal(alloc, x, v))
}

fn settle_truth<C>(outcome: Result<bool, CalcFail>) -> Result<bool, Unsettled>
    ensures { (answer : Result Bool AState) (left : C) → GivesTruth outcome answer
        → Reads (settled answer left) result left }
{
    match outcome {
        Ok(truth) => Ok(truth),
        Err(CalcFail::State(state)) => Err(Unsettled::Fails(state)),
        Err(CalcFail::Memory) => Err(Unsettled::Memory),
    }
}

/// An operator on two values.
#[inline(never)]
pub(crate) fn of_two<'a, C>(
    alloc: Global,
    operator: Operator,
    x: &Value,
    y: &Value,
) -> Result<Operand<'a>, Unsettled>
    ensures { (left : C) → Reads (settled (binary_value operator x.now y.now) left) result left }
{
    match of_numbers(operator, x, y) {
        Some(v) => Ok(Operand::made(v)),
        None => of_two_values::<C>(alloc, operator, x, y),
    }
}

#[inline(never)]
fn of_two_values<'a, C>(
    alloc: Global,
    operator: Operator,
    x: &Value,
    y: &Value,
) -> Result<Operand<'a>, Unsettled>
    ensures { (left : C) → Reads (settled (binary_value operator x.now y.now) left) result left }
{
    match binary(alloc, operator, x, y) {
        Ok(value) => Ok(Operand::made(value)),
        Err(CalcFail::State(state)) => Err(Unsettled::Fails(state)),
        Err(CalcFail::Memory) => Err(Unsettled::Memory),
    }
}

/// A cast to the type gives the value itself.
pub(crate) fn is_of(v: &Value, to: &Ty) -> bool
    ensures { result ≡ true → cast_to v.now to.now ≡ Ok v.now }
{
    match (v, to) {
        (Value::Null, _) => true,
        (Value::Int(_), Ty::Int) => true,
        (Value::Big(_), Ty::Big) => true,
        (Value::Text(_), Ty::Text) => true,
        (Value::Bool(_), Ty::Bool) => true,
        _ => false,
    }
}

/// The operand by a cast. It is copied only where the cast changes it.
pub(crate) fn as_type<'a>(alloc: Global, v: Operand<'a>, to: &Ty) -> Result<Operand<'a>, CalcFail>
    ensures { Gives result (cast_to v.entry to.now) }
{
    if is_of(v.get(), to) {
        return Ok(v);
    }
    Ok(Operand::made(cast(alloc, v.get(), *to)?))
}

/// The operand by a cast to each type in turn.
pub(crate) fn cast_through<'a>(
    alloc: Global,
    v: Operand<'a>,
    types: &[Ty],
) -> Result<Operand<'a>, CalcFail>
    ensures { Gives result (cast_through types.now v.entry) }
{
    let mut v = v;
    let mut rest = types;
    while let Some((first, more)) = rest.split_first() {
        v = as_type(alloc, v, first)?;
        rest = more;
    }
    Ok(v)
}

fn of_one(operator: Operator, v: &Value) -> Result<Value, CalcFail>
    ensures { Gives result (unary_value operator v.now) }
{
    unary(operator, v).map_err(CalcFail::State)
}

// The operand by an operator.
fn once<'a>(operator: Operator, v: Operand<'a>) -> Result<Operand<'a>, CalcFail>
    ensures { Gives result (unary_value operator v.entry) }
{
    let made = of_one(operator, v.get())?;
    Ok(Operand::made(made))
}

/// An operator on one operand, so many times.
pub(crate) fn of_one_times<'a>(
    operator: Operator,
    times: usize,
    v: Operand<'a>,
) -> Result<Operand<'a>, CalcFail>
    ensures { Gives result (repeated operator times v.entry) }
{
    let mut v = v;
    let mut more = times;
    while more > 0 {
        let made = once(operator, v)?;
        v = made;
        more -= 1;
    }
    Ok(v)
}

/// The truth of a value. 42804 where it has none.
pub(crate) fn truth_of(v: &Value) -> Result<Option<bool>, State>
    ensures { result ≡ truth_of v.now }
{
    match v {
        Value::Null => Ok(None),
        Value::Bool(truth) => Ok(Some(*truth)),
        _ => Err(State::DATATYPE_MISMATCH),
    }
}

/// A condition of this truth passes.
pub(crate) fn is_so(truth: Option<bool>) -> bool
    ensures { result ≡ is_so truth }
{
    truth == Some(true)
}

/// NOT
pub(crate) fn turned(truth: Option<bool>) -> Option<bool>
    ensures { result ≡ option_map not truth }
{
    match truth {
        Some(truth) => Some(!truth),
        None => None,
    }
}

/// Whether the values are equal. 42883 where they can't be compared.
fn is_equal(alloc: Global, x: &Value, v: &Value) -> Result<bool, CalcFail>
    ensures { GivesTruth result (true_of (equals x.now v.now)) }
{
    let is_equal = binary(alloc, Operator::Compare(Comparison::Equal), x, v)?;
    Ok(is_true(&is_equal))
}

pub(crate) fn truth_value(truth: Option<bool>) -> Value
    ensures { result ≡ truth_value truth }
{
    match truth {
        Some(truth) => Value::Bool(truth),
        None => Value::Null,
    }
}

pub(crate) fn is_null(v: &Value) -> bool
    ensures { result ≡ is_null v.now }
{
    matches!(v, Value::Null)
}

pub(crate) fn is_true(v: &Value) -> bool
    ensures { result ≡ is_true v.now }
{
    match v {
        Value::Bool(truth) => *truth,
        _ => false,
    }
}

/// Two truths in OR, where true is what fixes its answer, or in AND.
pub(crate) fn joint(fixed: bool, a: Option<bool>, b: Option<bool>) -> Option<bool>
    ensures { result ≡ joint fixed a b }
{
    if fixed { either(a, b) } else { both(a, b) }
}

fn both(a: Option<bool>, b: Option<bool>) -> Option<bool>
    ensures { result ≡ and_of a b }
{
    match (a, b) {
        (Some(false), _) | (_, Some(false)) => Some(false),
        (Some(true), Some(true)) => Some(true),
        _ => None,
    }
}

fn either(a: Option<bool>, b: Option<bool>) -> Option<bool>
    ensures { result ≡ or_of a b }
{
    match (a, b) {
        (Some(true), _) | (_, Some(true)) => Some(true),
        (Some(false), Some(false)) => Some(false),
        _ => None,
    }
}

pub(crate) fn is_fixed(fixed: bool, truth: Option<bool>) -> bool
    ensures { result ≡ is_fixed fixed truth }
{
    match truth {
        Some(truth) => truth == fixed,
        None => false,
    }
}

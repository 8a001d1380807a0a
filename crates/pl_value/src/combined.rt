//! What is made of the values of all operands: PostgreSQL manual, "Conditional Expressions",
//! "Comparison Functions and Operators".

ghost use Rattle.std.specs.Prelude.{◌≡◌, false, IfOk};
ghost use Rattle.pl_calc.specs.Answer.{Gives};
ghost use Rattle.pl_calc.specs.Casts.{cast_to};
ghost use Rattle.pl_value.specs.Combined.{among, best, better, between, combined, equals, fields};
ghost use Rattle.pl_value.specs.Combined.{is_in, nullif, row_value, then_answer};

use crate::operations::{is_null, is_true};
use pl_base::{Comparison, Field, List, Name, Operator, State, Ty, Value};
use pl_calc::{CalcFail, apply, binary, cast};
use pl_resolved::Combination;
use std::alloc::{AllocError, Global};

/// What is made of the values. 42883 where there are too few or too many of them, or no such
/// comparison.
pub fn combine(alloc: Global, combination: Combination, values: &[Value]) -> Result<Value, CalcFail>
    ensures { Gives result (combined combination values.now) }
{
    match (combination, values) {
        (Combination::Function(function), _) => apply(alloc, function, values),
        (Combination::Greatest(to), _) => best(alloc, Comparison::Greater, &to, values),
        (Combination::Least(to), _) => best(alloc, Comparison::Less, &to, values),
        (Combination::NullIf, [a, b]) => nullif(alloc, a, b),
        (Combination::Between, [x, low, high]) => between(alloc, x, low, high),
        (Combination::In(to), [x, others @ ..]) => is_in(alloc, &to, x, others),
        _ => Err(CalcFail::State(State::UNDEFINED_FUNCTION)),
    }
}

fn equals(alloc: Global, x: &Value, y: &Value) -> Result<Value, CalcFail>
    ensures { Gives result (equals x.now y.now) }
{
    binary(alloc, Operator::Compare(Comparison::Equal), x, y)
}

fn nullif(alloc: Global, a: &Value, b: &Value) -> Result<Value, CalcFail>
    ensures { Gives result (nullif a.now b.now) }
{
    let is_equal = equals(alloc, a, b)?;
    if is_true(&is_equal) {
        Ok(Value::Null)
    } else {
        Ok(a.copy(alloc)?)
    }
}

fn between(alloc: Global, x: &Value, low: &Value, high: &Value) -> Result<Value, CalcFail>
    ensures { Gives result (between x.now low.now high.now) }
{
    let above = binary(alloc, Operator::Compare(Comparison::GreaterOrEqual), x, low)?;
    let below = binary(alloc, Operator::Compare(Comparison::LessOrEqual), x, high)?;
    binary(alloc, Operator::And, &above, &below)
}

/// The one of two values that the comparison prefers, the first where it prefers none; a null is
/// left aside. 42883 where there is no such comparison.
pub fn better(alloc: Global, op: Comparison, a: Value, b: &Value) -> Result<Value, CalcFail>
    ensures { Gives result (better op a b.now) }
{
    if is_null(b) {
        return Ok(a);
    }
    if is_null(&a) {
        return Ok(b.copy(alloc)?);
    }
    let is_better = binary(alloc, Operator::Compare(op), b, &a)?;
    if is_true(&is_better) {
        Ok(b.copy(alloc)?)
    } else {
        Ok(a)
    }
}

// The best of what was found and one more value, cast to the type.
fn better_cast(
    alloc: Global,
    op: Comparison,
    to: &Ty,
    so_far: Value,
    v: &Value,
) -> Result<Value, CalcFail>
    ensures { Gives result (then_answer (cast_to v.now to.now) (better op so_far)) }
{
    let v = cast(alloc, v, *to)?;
    better(alloc, op, so_far, &v)
}

fn best(alloc: Global, op: Comparison, to: &Ty, values: &[Value]) -> Result<Value, CalcFail>
    ensures { Gives result (best op to.now Value.Null values.now) }
{
    let mut so_far = Value::Null;
    let mut rest = values;
    while let Some((first, more)) = rest.split_first() {
        so_far = better_cast(alloc, op, to, so_far, first)?;
        rest = more;
    }
    Ok(so_far)
}

// Whether the value, cast to the type, equals.
fn equals_cast(alloc: Global, to: &Ty, x: &Value, v: &Value) -> Result<Value, CalcFail>
    ensures { Gives result (then_answer (cast_to v.now to.now) (equals x.now)) }
{
    let v = cast(alloc, v, *to)?;
    equals(alloc, x, &v)
}

/// IN: true at the first value that equals, else null where a comparison gave null.
pub fn is_in(alloc: Global, to: &Ty, x: &Value, values: &[Value]) -> Result<Value, CalcFail>
    ensures { Gives result (is_in to.now x.now values.now) }
{
    let x = cast(alloc, x, *to)?;
    among(alloc, to, &x, values)
}

fn among(alloc: Global, to: &Ty, x: &Value, values: &[Value]) -> Result<Value, CalcFail>
    ensures { Gives result (among to.now x.now false values.now) }
{
    let mut has_null = false;
    let mut rest = values;
    while let Some((first, more)) = rest.split_first() {
        let is_equal = equals_cast(alloc, to, x, first)?;
        if is_true(&is_equal) {
            return Ok(is_equal);
        }
        has_null |= is_null(&is_equal);
        rest = more;
    }
    Ok(if has_null {
        Value::Null
    } else {
        Value::Bool(false)
    })
}

/// A row of copies of the values, without names.
pub fn row(alloc: Global, types: &[Ty], values: &[Value]) -> Result<Value, AllocError>
    ensures { IfOk result (λ v. v ≡ row_value types.now values.now) }
{
    Ok(Value::Row(fields(alloc, types, values)?))
}

fn fields(alloc: Global, types: &[Ty], values: &[Value]) -> Result<List<Field>, AllocError>
    ensures { IfOk result (λ list. list ≡ fields types.now values.now) }
{
    let mut list = List::new(alloc);
    let mut types = types;
    let mut values = values;
    while let Some((ty, more_types)) = types.split_first() {
        let Some((value, more_values)) = values.split_first() else {
            break;
        };
        list.push(Field {
            name: Name::NONE,
            ty: *ty,
            value: value.copy(alloc)?,
        })?;
        types = more_types;
        values = more_values;
    }
    Ok(list)
}

//! The truth of a condition, without a value in between: of a comparison whose operands stand or
//! are numbers, of IS NULL, IN and BETWEEN over what stands, and of NOT over these. Whatever else
//! there is, each failure among it, is left to the reading of values.

ghost use Rattle.std.specs.Prelude.{◌≡◌, map, IfSome, Ok};
ghost use Rattle.pl_base.specs.declared.value.Value.TheVariants.{Bool as Truth};
ghost use Rattle.pl_calc.specs.Logic.{truth_value};
ghost use Rattle.pl_calc.specs.Operators.{unary_value};
ghost use Rattle.pl_value.specs.Combined as made;
ghost use Rattle.pl_value.specs.Frames.{rows_of};
ghost use Rattle.pl_value.specs.Meaning as spec;
ghost use Rattle.pl_value.specs.Meaning.{Calls, Sub};
ghost use Rattle.pl_value.specs.Reading.{got, settled};

use crate::Lent;
use crate::comparison::{numbers_hold, values_compared};
use crate::membership::{is_among, lies_between};
use crate::number::{NUMBER_DEPTH, number_in, number_of_chain};
use crate::operations::{is_null, turned};
use crate::standing::leaf;
use pl_base::{Operator, Test, Value};
use pl_resolved::{Combination, RExpr, RPair};

/// The truth of the expression, which is None where it is unknown. No truth at all where it is to
/// be read as a value.
#[cycle(truth)]
pub fn truth_in<'a, C>(e: &'a RExpr, frame: &[Lent<'a>]) -> Option<Option<bool>>
    ensures { IfSome result (λ t. (calls : Calls C) (sub : Sub C) (caller : C)
        → spec.value calls sub e.now (rows_of frame.now) caller ≡ got (truth_value t) caller) }
{
    match e {
        RExpr::Binary { operator, operands } => compared::<C>(operands.get(), *operator, frame),
        RExpr::Unary {
            operator,
            times,
            operand,
        } => tested::<C>(operand.get(), *operator, *times, frame),
        RExpr::Combined {
            combination,
            operands,
        } => combined::<C>(operands.as_slice(), *combination, frame),
        _ => None,
    }
}

// The truth of NOT, IS NULL or IS NOT NULL.
#[cycle(truth)]
fn tested<'a, C>(
    operand: &'a RExpr,
    operator: Operator,
    times: usize,
    frame: &[Lent<'a>],
) -> Option<Option<bool>>
    ensures { IfSome result (λ t. (calls : Calls C) (sub : Sub C) (caller : C)
        → spec.one (made.repeated operator times) (spec.value calls sub operand.now)
        (rows_of frame.now) caller ≡ got (truth_value t) caller) }
{
    if times != 1 {
        return None;
    }
    match operator {
        Operator::Not => {
            let truth = truth_in::<C>(operand, frame)?;
            Some(turned(truth))
        }
        _ => {
            let v = leaf::<C>(operand, frame)?;
            null_tested(operator, v)
        }
    }
}

// The truth of IS NULL or IS NOT NULL, of a value that is no row.
fn null_tested(operator: Operator, v: &Value) -> Option<Option<bool>>
    ensures { IfSome result (λ t. unary_value operator v.now ≡ Ok (truth_value t)) }
{
    match (operator, v) {
        (_, Value::Row(_)) => None,
        (Operator::Is(Test::Null), _) => Some(Some(is_null(v))),
        (Operator::IsNot(Test::Null), _) => Some(Some(!is_null(v))),
        _ => None,
    }
}

fn combined<'a, C>(
    operands: &'a [RExpr],
    combination: Combination,
    frame: &[Lent<'a>],
) -> Option<Option<bool>>
    ensures { IfSome result (λ t. (calls : Calls C) (sub : Sub C) (caller : C)
        → spec.all_of (λ vs w. settled (made.combined combination vs) w)
        (map (spec.value calls sub) operands.now) (rows_of frame.now) caller
        ≡ got (truth_value t) caller) }
{
    match combination {
        Combination::In(to) => is_among::<C>(operands, &to, frame),
        Combination::Between => lies_between::<C>(operands, frame),
        _ => None,
    }
}

fn compared<'a, C>(pair: &'a RPair, operator: Operator, frame: &[Lent<'a>]) -> Option<Option<bool>>
    ensures { IfSome result (λ t. (calls : Calls C) (sub : Sub C) (caller : C)
        → spec.two operator (spec.pair calls sub pair.now) (rows_of frame.now) caller
        ≡ got (truth_value t) caller) }
{
    match numbers_compared::<C>(pair, operator, frame) {
        Some(holds) => Some(Some(holds)),
        None => leaves_compared::<C>(pair, operator, frame),
    }
}

// The same of two values that stand.
fn leaves_compared<'a, C>(
    pair: &'a RPair,
    operator: Operator,
    frame: &[Lent<'a>],
) -> Option<Option<bool>>
    ensures { IfSome result (λ t. (calls : Calls C) (sub : Sub C) (caller : C)
        → spec.two operator (spec.pair calls sub pair.now) (rows_of frame.now) caller
        ≡ got (truth_value t) caller) }
{
    let Operator::Compare(comparison) = operator else {
        return None;
    };
    let a = leaf::<C>(&pair.first, frame)?;
    let b = leaf::<C>(&pair.second, frame)?;
    values_compared(comparison, a, b)
}

/// Whether the condition holds, a comparison of two numbers. None of any other.
#[inline(never)]
pub(crate) fn numbers_hold_in<C>(e: &RExpr, frame: &[Lent<'_>]) -> Option<bool>
    ensures { IfSome result (λ b. (calls : Calls C) (sub : Sub C) (caller : C)
        → spec.value calls sub e.now (rows_of frame.now) caller ≡ got (Truth b) caller) }
{
    match e {
        RExpr::Binary { operator, operands } => {
            numbers_compared::<C>(operands.get(), *operator, frame)
        }
        _ => None,
    }
}

// Whether a comparison of two numbers holds. None where an operand is no number.
#[inline(always)]
fn numbers_compared<C>(pair: &RPair, operator: Operator, frame: &[Lent<'_>]) -> Option<bool>
    ensures { IfSome result (λ b. (calls : Calls C) (sub : Sub C) (caller : C)
        → spec.two operator (spec.pair calls sub pair.now) (rows_of frame.now) caller
        ≡ got (Truth b) caller) }
{
    let Operator::Compare(comparison) = operator else {
        return None;
    };
    let a = number_of_chain::<C>(&pair.first, frame, NUMBER_DEPTH)?;
    let b = number_in::<C>(&pair.second, frame, NUMBER_DEPTH)?;
    Some(numbers_hold(comparison, a, b))
}

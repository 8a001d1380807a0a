//! Comparisons of values and numbers that give a truth.

ghost use Rattle.std.specs.Prelude.{◌≡◌, IfSome, Ok, Some};
ghost use Rattle.pl_base.specs.declared.value.Value.TheVariants.{Bool as Truth};
ghost use Rattle.pl_calc.specs.Comparison.{holds, order_of};
ghost use Rattle.pl_calc.specs.Logic.{truth_value};
ghost use Rattle.pl_calc.specs.Operators.{binary_value};
ghost use Rattle.pl_value.specs.Number.{number_value};

use crate::number::Number;
use crate::operations::is_null;
use pl_base::{Comparison, Operator, Value};
use pl_calc::compare;
use std::cmp::Ordering;

/// The truth of a comparison of two values, which is None where it is unknown. No truth at all
/// where they have no order.
pub(crate) fn values_compared(comparison: Comparison, a: &Value, b: &Value) -> Option<Option<bool>>
    ensures { IfSome result (λ t. binary_value (Operator.Compare comparison) a.now b.now
        ≡ Ok (truth_value t)) }
{
    if is_null(a) || is_null(b) {
        return Some(None);
    }
    let order = compare(a, b)?;
    Some(Some(is_order(comparison, order)))
}

/// Whether the comparison holds of two numbers.
pub(crate) fn numbers_hold(comparison: Comparison, a: Number, b: Number) -> bool
    ensures { binary_value (Operator.Compare comparison) (number_value a) (number_value b)
        ≡ Ok (Truth result) }
{
    is_order(comparison, order(a, b))
}

#[tactic(auto, using(crate::proofs::Numbers::ordered))]
fn order(a: Number, b: Number) -> Ordering
    ensures { order_of (number_value a) (number_value b) ≡ Some result }
{
    a.whole.cmp(&b.whole)
}

// The comparison holds of two values in this order.
fn is_order(comparison: Comparison, order: Ordering) -> bool
    ensures { result ≡ holds comparison order }
{
    match comparison {
        Comparison::Equal => order == Ordering::Equal,
        Comparison::NotEqual => order != Ordering::Equal,
        Comparison::Less => order == Ordering::Less,
        Comparison::Greater => order == Ordering::Greater,
        Comparison::LessOrEqual => order != Ordering::Greater,
        Comparison::GreaterOrEqual => order != Ordering::Less,
    }
}

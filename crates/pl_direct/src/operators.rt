//! Operators on what is known.

ghost use Rattle.std.specs.Prelude.{◌≡◌, [], ◌∷◌, if◌then◌else◌, not, IfSome, Ok};
ghost use Rattle.pl_base.specs.declared.operator.Operator.TheVariants as operator;
ghost use Rattle.pl_base.specs.declared.types.Ty.TheVariants as type;
ghost use Rattle.pl_calc.specs.Comparison.{holds, order_of};
ghost use Rattle.pl_calc.specs.Numbers as numbers;
ghost use Rattle.pl_direct.specs.Known.{Operates, Opposes, Turns, together, type_of, value_of};

use crate::Known;
use pl_base::{Arithmetic, Comparison, Test};
use pl_calc::whole;
use pl_tree::Sign;
use std::cmp::Ordering;

// ---- arithmetic

/// The number that the operator gives. None where there is none, as for a zero divisor or where its
/// type can't hold it.
pub(crate) fn calculated(op: Arithmetic, a: Known, b: Known) -> Option<Known>
    ensures { IfSome result (λ known. Operates (operator.Arithmetic op) a b known) }
{
    match (a, b) {
        (Known::Int(a), Known::Int(b)) => integer(op, a, b),
        (Known::Int(a), Known::Big(b)) => bigint(op, i64::from(a), b),
        (Known::Big(a), Known::Int(b)) => bigint(op, a, i64::from(b)),
        (Known::Big(a), Known::Big(b)) => bigint(op, a, b),
        _ => None,
    }
}

fn integer(op: Arithmetic, a: i32, b: i32) -> Option<Known>
    ensures { IfSome result (λ known. (type_of known ≡ type_of (Known.Int a))
        × (numbers.then_as numbers.integer (numbers.arithmetic op a b) ≡ Ok (value_of known))) }
{
    let Ok(number) = whole(op, i64::from(a), i64::from(b)) else {
        return None;
    };
    match i32::try_from(number) {
        Ok(number) => Some(Known::Int(number)),
        Err(_) => None,
    }
}

fn bigint(op: Arithmetic, a: i64, b: i64) -> Option<Known>
    ensures { IfSome result (λ known. (type_of known ≡ type_of (Known.Big a))
        × (numbers.then_as numbers.bigint (numbers.arithmetic op a b) ≡ Ok (value_of known))) }
{
    match whole(op, a, b) {
        Ok(number) => Some(Known::Big(number)),
        Err(_) => None,
    }
}

// The number with its sign turned. None for the least of its type, and for a truth.
fn negative(known: Known) -> Option<Known>
    ensures { IfSome result (λ turned. Turns known turned) }
{
    match known {
        Known::Int(number) => Some(Known::Int(number.checked_neg()?)),
        Known::Big(number) => Some(Known::Big(number.checked_neg()?)),
        Known::Bool(_) => None,
    }
}

/// The operand behind these signs. None but for one minus.
pub(crate) fn signed(signs: &[Sign], operand: Known) -> Option<Known>
    ensures { IfSome result (λ turned. (signs.now ≡ Sign.Minus ∷ []) × Turns operand turned) }
{
    match signs {
        [Sign::Minus] => negative(operand),
        _ => None,
    }
}

// ---- comparison

/// Whether the comparison holds. None for a number beside a truth.
#[tactic(auto, using(crate::proofs::Orders::compared_in))]
pub(crate) fn compared(op: Comparison, a: Known, b: Known) -> Option<Known>
    ensures { IfSome result (λ known. (type_of known ≡ type.Bool)
        × Operates (operator.Compare op) a b known) }
{
    let order = order(a, b)?;
    Some(Known::Bool(is_order(op, order)))
}

fn order(a: Known, b: Known) -> Option<Ordering>
    ensures { order_of (value_of a) (value_of b) ≡ result }
{
    match (a, b) {
        (Known::Int(a), Known::Int(b)) => Some(a.cmp(&b)),
        (Known::Int(a), Known::Big(b)) => Some(i64::from(a).cmp(&b)),
        (Known::Big(a), Known::Int(b)) => Some(a.cmp(&i64::from(b))),
        (Known::Big(a), Known::Big(b)) => Some(a.cmp(&b)),
        (Known::Bool(a), Known::Bool(b)) => Some(a.cmp(&b)),
        _ => None,
    }
}

// The comparison holds of two values in this order.
fn is_order(op: Comparison, order: Ordering) -> bool
    ensures { result ≡ holds op order }
{
    match op {
        Comparison::Equal => order == Ordering::Equal,
        Comparison::NotEqual => order != Ordering::Equal,
        Comparison::Less => order == Ordering::Less,
        Comparison::Greater => order == Ordering::Greater,
        Comparison::LessOrEqual => order != Ordering::Greater,
        Comparison::GreaterOrEqual => order != Ordering::Less,
    }
}

// ---- truths

/// The truth. None for a number.
pub(crate) fn as_truth(known: Known) -> Option<bool>
    ensures { IfSome result (λ t. known ≡ Known.Bool t) }
{
    match known {
        Known::Bool(truth) => Some(truth),
        Known::Int(_) | Known::Big(_) => None,
    }
}

/// The operand behind so many NOTs. None but for one.
pub(crate) fn opposite(count: usize, operand: Known) -> Option<Known>
    ensures { IfSome result (λ turned. (count ≡ 1) × Opposes operand turned) }
{
    if count != 1 {
        return None;
    }
    match operand {
        Known::Bool(truth) => Some(Known::Bool(!truth)),
        Known::Int(_) | Known::Big(_) => None,
    }
}

/// AND, or OR where true is what fixes it.
pub(crate) fn both(fixed: bool, a: bool, b: bool) -> bool
    ensures { result ≡ together fixed a b }
{
    if fixed { a || b } else { a && b }
}

/// IS NULL, or IS NOT NULL, of what is null or not. None for another test.
pub(crate) fn null_asked(is_negated: bool, test: Test, is_null: bool) -> Option<Known>
    ensures { IfSome result (λ known. (test ≡ Test.Null)
        × (known ≡ Known.Bool (if is_negated then not is_null else is_null))) }
{
    match test {
        Test::Null => Some(Known::Bool(if is_negated { !is_null } else { is_null })),
        Test::True | Test::False | Test::Unknown => None,
    }
}

//! IN and BETWEEN over operands that stand, none of which is copied. Whatever else there is, each
//! failure among it, is left to the reading of values.

ghost use Rattle.std.specs.Prelude.{◌≡◌, [], ◌∷◌, false, map, true, IfSome, Ok, Some};
ghost use Rattle.pl_base.specs.declared.value.Value as base;
ghost use Rattle.pl_calc.specs.Casts.{cast_to};
ghost use Rattle.pl_calc.specs.Logic.{truth_value};
ghost use Rattle.pl_value.specs.Among.{rest_among};
ghost use Rattle.pl_value.specs.Combined as made;
ghost use Rattle.pl_value.specs.Combined.{equals, then_answer};
ghost use Rattle.pl_value.specs.Frames.{rows_of};
ghost use Rattle.pl_value.specs.Meaning as spec;
ghost use Rattle.pl_value.specs.Meaning.{Calls, Sub};
ghost use Rattle.pl_value.specs.Reading.{got, settled};

use crate::comparison::values_compared;
use crate::number::{NUMBER_DEPTH, number_in, value_of};
use crate::operations::{is_of, joint};
use crate::standing::leaf;
use crate::{Lent, Operand};
use pl_base::{Comparison, Ty, Value};
use pl_resolved::{Combination, RExpr};

/// The truth of IN, of the first operand among the others. No truth at all where it is to be read
/// as a value.
pub(crate) fn is_among<'a, C>(
    operands: &'a [RExpr],
    to: &Ty,
    frame: &[Lent<'a>],
) -> Option<Option<bool>>
    ensures { IfSome result (λ t. (calls : Calls C) (sub : Sub C) (caller : C)
        → spec.all_of (λ vs w. settled (made.combined (Combination.In to.now) vs) w)
        (map (spec.value calls sub) operands.now) (rows_of frame.now) caller
        ≡ got (truth_value t) caller) }
{
    let (first, others) = operands.split_first()?;
    let x = operand_in::<C>(first, frame)?;
    if !is_of(x.get(), to) {
        return None;
    }
    found::<C>(x.get(), others, to, frame)
}

/// The truth of BETWEEN, of three operands. No truth at all where it is to be read as a value.
pub(crate) fn lies_between<'a, C>(operands: &'a [RExpr], frame: &[Lent<'a>]) -> Option<Option<bool>>
    ensures { IfSome result (λ t. (calls : Calls C) (sub : Sub C) (caller : C)
        → spec.all_of (λ vs w. settled (made.combined Combination.Between vs) w)
        (map (spec.value calls sub) operands.now) (rows_of frame.now) caller
        ≡ got (truth_value t) caller) }
{
    let (first, low, high) = three_operands(operands)?;
    let x = operand_in::<C>(first, frame)?;
    let low = operand_in::<C>(low, frame)?;
    let high = operand_in::<C>(high, frame)?;
    between(x.get(), low.get(), high.get())
}

fn three_operands(operands: &[RExpr]) -> Option<(&RExpr, &RExpr, &RExpr)>
    ensures { IfSome result (λ three. operands.now
        ≡ three.0.now ∷ three.1.now ∷ three.2.now ∷ []) }
{
    match operands {
        [first, second, third] => Some((first, second, third)),
        _ => None,
    }
}

fn between(x: &Value, low: &Value, high: &Value) -> Option<Option<bool>>
    ensures { IfSome result (λ t. made.between x.now low.now high.now ≡ Ok (truth_value t)) }
{
    let above = values_compared(Comparison::GreaterOrEqual, x, low)?;
    let below = values_compared(Comparison::LessOrEqual, x, high)?;
    Some(joint(false, above, below))
}

// The operand, where it stands or is a number.
fn operand_in<'a, C>(e: &'a RExpr, frame: &[Lent<'a>]) -> Option<Operand<'a>>
    ensures { IfSome result (λ v. (calls : Calls C) (sub : Sub C) (caller : C)
        → spec.value calls sub e.now (rows_of frame.now) caller ≡ got v caller) }
{
    if let Some(v) = leaf::<C>(e, frame) {
        return Some(Operand::lent(v));
    }
    let number = number_in::<C>(e, frame, NUMBER_DEPTH)?;
    let v = value_of(number)?;
    Some(Operand::made(v))
}

// Whether one of the others equals x. Each of them is looked at, also behind one that does, since
// all are to stand.
fn found<'a, C>(x: &Value, others: &'a [RExpr], to: &Ty, frame: &[Lent<'a>]) -> Option<Option<bool>>
    ensures { IfSome result (λ t. (calls : Calls C) (sub : Sub C) (caller : C)
        → rest_among to.now x.now (Some false) (map (spec.value calls sub) others.now)
        (rows_of frame.now) caller ≡ got (truth_value t) caller) }
{
    let mut so_far = Some(false);
    for other in others {
        let equals = equals_operand::<C>(x, other, to, frame)?;
        so_far = joint(true, so_far, equals);
    }
    Some(so_far)
}

// Whether x equals the other operand, cast to the type.
fn equals_operand<'a, C>(
    x: &Value,
    other: &'a RExpr,
    to: &Ty,
    frame: &[Lent<'a>],
) -> Option<Option<bool>>
    ensures { IfSome result (λ t. (v : base.Value)
        × ((calls : Calls C) (sub : Sub C) (caller : C)
        → spec.value calls sub other.now (rows_of frame.now) caller ≡ got v caller)
        × (then_answer (cast_to v to.now) (equals x.now) ≡ Ok (truth_value t))) }
{
    let v = leaf::<C>(other, frame)?;
    if !is_alike(x, v, to) {
        return None;
    }
    values_compared(Comparison::Equal, x, v)
}

// A cast of v to the type equals x where v does.
fn is_alike(x: &Value, v: &Value, to: &Ty) -> bool
    ensures { result ≡ true → then_answer (cast_to v.now to.now) (equals x.now)
        ≡ equals x.now v.now }
{
    match (v, to) {
        (Value::Int(_), Ty::Big) => true,
        _ => is_of(v, to),
    }
}

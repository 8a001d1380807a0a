//! Values that are written down: PostgreSQL manual, "Constants".

ghost use Rattle.std.specs.Prelude.{◌≡◌, IfOk};
ghost use Rattle.pl_typing.specs.Resolved.{Gives};
ghost use Rattle.pl_typing.specs.Literals as spec;

use crate::{ScopeFail, Typed, with_type};
use pl_base::{State, Ty, Value};
use pl_resolved::RExpr;
use pl_tree::Literal;
use std::alloc::{AllocError, Global};

fn constant(alloc: Global, value: Value, ty: Ty) -> Result<Typed, AllocError>
    ensures { IfOk result (λ made. made ≡ spec.constant value ty) }
{
    with_type(alloc, RExpr::Constant(value), ty)
}

/// A literal: a number is an integer where 32 bits hold it, else a bigint; a text and NULL have no
/// type yet. 22003 for 9223372036854775808 without a minus.
pub fn literal(alloc: Global, literal: &Literal) -> Result<Typed, ScopeFail>
    ensures { Gives result (spec.literal_means literal.now) }
{
    match literal {
        Literal::Null => Ok(constant(alloc, Value::Null, Ty::Unknown)?),
        Literal::Bool(truth) => Ok(constant(alloc, Value::Bool(*truth), Ty::Bool)?),
        Literal::Text(text) => {
            let text = text.copy(alloc)?;
            Ok(constant(alloc, Value::Text(text), Ty::Unknown)?)
        }
        Literal::Number { is_negative, size } => number(alloc, *is_negative, *size),
    }
}

fn number(alloc: Global, is_negative: bool, size: u64) -> Result<Typed, ScopeFail>
    ensures { Gives result (spec.number_means (spec.signed is_negative size)) }
{
    match whole(is_negative, size) {
        Some(number) => Ok(sized(alloc, number)?),
        None => Err(ScopeFail::State(State::NUMERIC_VALUE_OUT_OF_RANGE)),
    }
}

// The number, where 64 bits hold it.
fn whole(is_negative: bool, size: u64) -> Option<i64>
    ensures { result ≡ spec.in_64_bits (spec.signed is_negative size) }
{
    if is_negative {
        0i64.checked_sub_unsigned(size)
    } else {
        i64::try_from(size).ok()
    }
}

fn sized(alloc: Global, number: i64) -> Result<Typed, AllocError>
    ensures { IfOk result (λ made. made ≡ spec.sized number) }
{
    match i32::try_from(number) {
        Ok(number) => constant(alloc, Value::Int(number), Ty::Int),
        Err(_) => constant(alloc, Value::Big(number), Ty::Big),
    }
}

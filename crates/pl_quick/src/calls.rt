//! Calls of routines whose statements only compute.

ghost use Rattle.std.specs.Prelude.{◌≡◌, true, IfSome};
ghost use Rattle.pl_quick.specs.Calling.{Enters, Leaves};
ghost use Rattle.pl_quick.specs.Computing as spec;
ghost use Rattle.pl_quick.specs.Old.{Tracked};

use crate::act::Assign;
use crate::acting::{End, put};
use crate::old::known_or_null;
use crate::reading::all_read;
use crate::scratch::Scratch;
use pl_base::{Shared, Ty, Value};
use pl_direct::pl_scope::ResolvedExpr;
use pl_engine::Moment;
use pl_resolved::RExpr;

/// A call begins, with its step: its variables are the arguments, and FOUND behind them. False
/// where it can't be done at once.
pub(crate) fn enter(call: &Shared<ResolvedExpr>, scratch: &Scratch, inner: &mut Scratch) -> bool
    ensures { result ≡ true → Enters call.now scratch.now inner.new }
{
    let RExpr::Call { arguments, .. } = call.get().typed.tree.get() else {
        return false;
    };
    inner.olds.clear();
    inner.steps = scratch.steps;
    if !inner.take_step() {
        return false;
    }
    let values = scratch.values.as_slice();
    if !all_read::<Moment>(arguments.as_slice(), values, &mut inner.values) {
        return false;
    }
    match inner.values.push(Value::Bool(false)) {
        Ok(()) => true,
        Err(_) => false,
    }
}

/// A call is over, and so many steps are left. What RETURN gave, as one of the result's type, goes
/// into a variable.
pub(crate) fn leave_call(end: End, a: &Assign, ty: &Ty, steps: u64, scratch: &mut Scratch) -> End
    ensures computes { IfSome (spec.outcome_of result) (λ o.
        Leaves end a.now ty.now steps o scratch.old scratch.new) }
    ensures tracked { Tracked scratch.old scratch.new }
{
    let End::Return(known) = end else {
        return End::Left;
    };
    let Some(value) = known.fitted(ty) else {
        return End::Left;
    };
    let Some(Some(known)) = known_or_null(&value) else {
        return End::Left;
    };
    scratch.steps = steps;
    put(known, a, scratch)
}

//! Whether an expression has a query inside. One that has none has the same value whatever runs
//! queries.

ghost use Rattle.std.specs.Prelude.{◌≡◌, false, map, option_map};
ghost use Rattle.pl_value.specs.Meaning as meaning;
ghost use Rattle.pl_value.specs.Meaning.{Calls, Sub};

use pl_base::Boxed;
use pl_resolved::{RArm, RCase, RChain, RExpr, RPair, RStep};

/// Whether the expression has a query inside. What stands in a query isn't looked at.
#[cycle(asking)]
pub fn has_query<C>(e: &RExpr) -> bool
    ensures { result ≡ false → (calls : Calls C) (these those : Sub C)
        → meaning.value calls these e.now ≡ meaning.value calls those e.now }
{
    match e {
        RExpr::Constant(_) => false,
        RExpr::Place { .. } => false,
        RExpr::Cast { operand, .. } => has_query::<C>(operand.get()),
        RExpr::Unary { operand, .. } => has_query::<C>(operand.get()),
        RExpr::Binary { operands, .. } => pair_has_query::<C>(operands.get()),
        RExpr::Chain(chain) => chain_has_query::<C>(chain.get()),
        RExpr::And(parts) => any_has_query::<C>(parts.as_slice()),
        RExpr::Or(parts) => any_has_query::<C>(parts.as_slice()),
        RExpr::Case(case) => case_has_query::<C>(case.get()),
        RExpr::Coalesce { operands, .. } => any_has_query::<C>(operands.as_slice()),
        RExpr::Combined { operands, .. } => any_has_query::<C>(operands.as_slice()),
        RExpr::Row { fields, .. } => any_has_query::<C>(fields.as_slice()),
        RExpr::Call { arguments, .. } => any_has_query::<C>(arguments.as_slice()),
        RExpr::Scalar(_) => true,
        RExpr::Exists(_) => true,
        RExpr::InQuery { .. } => true,
    }
}

/// Whether one of the expressions has a query inside.
#[cycle(asking)]
pub fn any_has_query<C>(parts: &[RExpr]) -> bool
    ensures { result ≡ false → (calls : Calls C) (these those : Sub C)
        → map (meaning.value calls these) parts.now ≡ map (meaning.value calls those) parts.now }
{
    for part in parts {
        if has_query::<C>(part) {
            return true;
        }
    }
    false
}

/// Whether the expression has a query inside, if there is one.
#[cycle(asking)]
pub fn if_has_query<C>(e: &Option<Boxed<RExpr>>) -> bool
    ensures { result ≡ false → (calls : Calls C) (these those : Sub C)
        → option_map (meaning.value calls these) e.now
        ≡ option_map (meaning.value calls those) e.now }
{
    match e {
        None => false,
        Some(e) => has_query::<C>(e.get()),
    }
}

#[cycle(asking)]
fn pair_has_query<C>(pair: &RPair) -> bool
    ensures { result ≡ false → (calls : Calls C) (these those : Sub C)
        → meaning.pair calls these pair.now ≡ meaning.pair calls those pair.now }
{
    if has_query::<C>(&pair.first) {
        return true;
    }
    has_query::<C>(&pair.second)
}

#[cycle(asking)]
fn chain_has_query<C>(chain: &RChain) -> bool
    ensures { result ≡ false → (calls : Calls C) (these those : Sub C)
        → meaning.chain calls these chain.now ≡ meaning.chain calls those chain.now }
{
    if has_query::<C>(&chain.first) {
        return true;
    }
    any_step_has_query::<C>(chain.steps.as_slice())
}

#[cycle(asking)]
fn step_has_query<C>(step: &RStep) -> bool
    ensures { result ≡ false → (calls : Calls C) (these those : Sub C)
        → meaning.step calls these step.now ≡ meaning.step calls those step.now }
{
    has_query::<C>(&step.operand)
}

#[cycle(asking)]
fn any_step_has_query<C>(steps: &[RStep]) -> bool
    ensures { result ≡ false → (calls : Calls C) (these those : Sub C)
        → map (meaning.step calls these) steps.now ≡ map (meaning.step calls those) steps.now }
{
    for step in steps {
        if step_has_query::<C>(step) {
            return true;
        }
    }
    false
}

#[cycle(asking)]
fn arm_has_query<C>(arm: &RArm) -> bool
    ensures { result ≡ false → (calls : Calls C) (these those : Sub C)
        → meaning.arm calls these arm.now ≡ meaning.arm calls those arm.now }
{
    if has_query::<C>(&arm.when) {
        return true;
    }
    has_query::<C>(&arm.then)
}

#[cycle(asking)]
fn any_arm_has_query<C>(arms: &[RArm]) -> bool
    ensures { result ≡ false → (calls : Calls C) (these those : Sub C)
        → map (meaning.arm calls these) arms.now ≡ map (meaning.arm calls those) arms.now }
{
    for arm in arms {
        if arm_has_query::<C>(arm) {
            return true;
        }
    }
    false
}

#[cycle(asking)]
fn case_has_query<C>(case: &RCase) -> bool
    ensures { result ≡ false → (calls : Calls C) (these those : Sub C)
        → meaning.case calls these case.now ≡ meaning.case calls those case.now }
{
    if if_has_query::<C>(&case.operand) {
        return true;
    }
    if any_arm_has_query::<C>(case.arms.as_slice()) {
        return true;
    }
    if_has_query::<C>(&case.otherwise)
}

//! The functions' types: PostgreSQL manual, "Function Type Resolution", "Mathematical Functions and
//! Operators", "String Functions and Operators".

ghost use Rattle.std.specs.Prelude.{◌≡◌, IfOk};
ghost use Rattle.pl_typing.specs.Resolved.{Gives};
ghost use Rattle.pl_typing.specs.Functions as spec;

use crate::typed::settled;
use crate::{Arguments, ScopeFail, Typed, fitted, headed};
use pl_base::{Arithmetic, List, Name, Operator, State, Ty};
use pl_calc::{Builtin, function_named, type_of_op};
use pl_resolved::{Combination, RExpr};
use std::alloc::{AllocError, Global};

/// What a function takes, one type for each argument, and what it gives.
#[derive(Drop)]
pub struct Signature {
    pub takes: List<Ty>,
    pub gives: Ty,
}

/// A call of the function of this name. 42883 where there is none or it doesn't take the arguments.
#[tactic(auto, unfolding(crate::specs::Functions::function_called))]
pub fn function_called(alloc: Global, name: Name, arguments: Arguments) -> Result<Typed, ScopeFail>
    ensures { Gives result (spec.function_called name arguments) }
{
    match function_named(name.as_bytes()) {
        Some(function) => called(alloc, function, name, arguments),
        None => Err(ScopeFail::State(State::UNDEFINED_FUNCTION)),
    }
}

fn called(
    alloc: Global,
    function: Builtin,
    name: Name,
    arguments: Arguments,
) -> Result<Typed, ScopeFail>
    ensures { Gives result (spec.called function name arguments) }
{
    let Signature { takes, gives } = signature_of(alloc, function, arguments.types.as_slice())?;
    let operands = fitted(alloc, arguments, takes.as_slice())?;
    let tree = RExpr::Combined {
        combination: Combination::Function(function),
        operands,
    };
    Ok(headed(alloc, tree, gives, name)?)
}

// What the function takes and gives, where arguments of these types are given.
fn signature_of(alloc: Global, function: Builtin, given: &[Ty]) -> Result<Signature, ScopeFail>
    ensures { Gives result (spec.signature_of function given.now) }
{
    match function {
        Builtin::Abs => signature_of_abs(alloc, given),
        Builtin::Mod => signature_of_mod(alloc, given),
        Builtin::Length => Ok(taking(alloc, &[Ty::Text], Ty::Int)?),
        Builtin::Upper | Builtin::Lower | Builtin::Btrim => {
            Ok(taking(alloc, &[Ty::Text], Ty::Text)?)
        }
        Builtin::Substr => Ok(signature_of_substr(alloc, given)?),
        Builtin::Strpos => Ok(taking(alloc, &[Ty::Text, Ty::Text], Ty::Int)?),
        Builtin::Replace => Ok(taking(alloc, &[Ty::Text, Ty::Text, Ty::Text], Ty::Text)?),
        Builtin::Repeat => Ok(taking(alloc, &[Ty::Text, Ty::Int], Ty::Text)?),
    }
}

/// The signature of these types.
pub(crate) fn taking(alloc: Global, takes: &[Ty], gives: Ty) -> Result<Signature, AllocError>
    ensures { IfOk result (λ made. made ≡ spec.taking takes.now gives) }
{
    let takes = List::from_slice(alloc, takes)?;
    Ok(Signature { takes, gives })
}

// A number of either type.
fn signature_of_abs(alloc: Global, given: &[Ty]) -> Result<Signature, ScopeFail>
    ensures { Gives result (spec.signature_of_abs given.now) }
{
    match given {
        [ty] => match type_of_op(Operator::Plus, *ty, *ty) {
            Ok(gives) => Ok(taking(alloc, &[gives], gives)?),
            Err(state) => Err(ScopeFail::State(state)),
        },
        _ => Err(ScopeFail::State(State::UNDEFINED_FUNCTION)),
    }
}

// As the operator `%`.
fn signature_of_mod(alloc: Global, given: &[Ty]) -> Result<Signature, ScopeFail>
    ensures { Gives result (spec.signature_of_mod given.now) }
{
    match given {
        [a, b] => match type_of_op(Operator::Arithmetic(Arithmetic::Remainder), *a, *b) {
            Ok(gives) => Ok(taking(alloc, &[settled(a, b), settled(b, a)], gives)?),
            Err(state) => Err(ScopeFail::State(state)),
        },
        _ => Err(ScopeFail::State(State::UNDEFINED_FUNCTION)),
    }
}

// The count of characters may be left out.
fn signature_of_substr(alloc: Global, given: &[Ty]) -> Result<Signature, AllocError>
    ensures { IfOk result (λ made. made ≡ spec.signature_of_substr given.now) }
{
    match given {
        [_, _] => taking(alloc, &[Ty::Text, Ty::Int], Ty::Text),
        _ => taking(alloc, &[Ty::Text, Ty::Int, Ty::Int], Ty::Text),
    }
}

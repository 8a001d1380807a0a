//! Calls of functions inside of expressions, those that are built in and those of the catalogue:
//! PostgreSQL manual, "Function Type Resolution".

ghost use Rattle.std.specs.Prelude.{◌≡◌, IfOk};
ghost use Rattle.std.specs.Option.{option_copied};
ghost use Rattle.pl_names.specs.Names.{around};
ghost use Rattle.pl_names.specs.Routines as spec;
ghost use Rattle.pl_typing.specs.Resolved.{Gives};

use crate::Names;
use pl_base::{List, Name, State, Ty};
use pl_calc::function_named;
use pl_catalog::{Heading, Routine};
use pl_resolved::RExpr;
use pl_tree::{Param, ResultType, RoutineKind, Way};
use pl_typing::{Arguments, ScopeFail, Typed, fitted, function_called, headed};
use std::alloc::{AllocError, Global};

/// A call of the function of this name: a built-in one, else a routine of the catalogue. 42883
/// where there is none or it doesn't take the arguments, 42809 where it is a procedure, 0A000 where
/// a call of it gives no single value, or gives it to a trigger.
#[tactic(auto, unfolding(crate::specs::Routines::called))]
pub fn called(
    alloc: Global,
    name: Name,
    arguments: Arguments,
    names: &Names<'_>,
) -> Result<Typed, ScopeFail>
    ensures { Gives result (spec.called name arguments (around names.now)) }
{
    match function_named(name.as_bytes()) {
        Some(_) => function_called(alloc, name, arguments),
        None => routine_called(alloc, names.catalog.routine(name), name, arguments),
    }
}

fn routine_called(
    alloc: Global,
    found: Option<&Routine>,
    name: Name,
    arguments: Arguments,
) -> Result<Typed, ScopeFail>
    ensures { Gives result (spec.routine_called (option_copied found.entry) name arguments) }
{
    match found {
        None => Err(ScopeFail::State(State::UNDEFINED_FUNCTION)),
        Some(routine) => {
            if !all_go_in(routine.heading.params.as_slice()) {
                return Err(ScopeFail::State(State::FEATURE_NOT_SUPPORTED));
            }
            given_to(alloc, &routine.heading, name, arguments)
        }
    }
}

fn given_to(
    alloc: Global,
    heading: &Heading,
    name: Name,
    arguments: Arguments,
) -> Result<Typed, ScopeFail>
    ensures { Gives result (spec.given_to heading.now name arguments) }
{
    let types = types_of(alloc, heading.params.as_slice())?;
    let arguments = fitted(alloc, arguments, types.as_slice())?;
    let ty = function_value(heading.kind, &heading.result)?;
    let tree = RExpr::Call {
        routine: name,
        arguments,
    };
    Ok(headed(alloc, tree, ty, name)?)
}

fn all_go_in(params: &[Param]) -> bool
    ensures { result ≡ spec.all_go_in params.now }
{
    params.iter().all(|param| goes_in(param.way))
}

fn goes_in(way: Way) -> bool
    ensures { result ≡ spec.goes_in way }
{
    match way {
        Way::In => true,
        Way::Out | Way::InOut => false,
    }
}

fn types_of(alloc: Global, params: &[Param]) -> Result<List<Ty>, AllocError>
    ensures { IfOk result (λ types. types ≡ spec.types_of params.now) }
{
    let mut types = List::new(alloc);
    for param in params {
        types.push(param.ty)?;
    }
    Ok(types)
}

// ---- what a call gives

fn function_value(kind: RoutineKind, given: &ResultType) -> Result<Ty, ScopeFail>
    ensures { Gives result (spec.function_value kind given.now) }
{
    match kind {
        RoutineKind::Function => value_of(given),
        RoutineKind::Procedure => Err(ScopeFail::State(State::WRONG_OBJECT_TYPE)),
    }
}

fn value_of(given: &ResultType) -> Result<Ty, ScopeFail>
    ensures { Gives result (spec.value_of given.now) }
{
    match given {
        ResultType::One(ty) => one_value(*ty),
        ResultType::Absent | ResultType::Set(_) | ResultType::Columns(_) => {
            Err(ScopeFail::State(State::FEATURE_NOT_SUPPORTED))
        }
    }
}

fn one_value(ty: Ty) -> Result<Ty, ScopeFail>
    ensures { Gives result (spec.one_value ty) }
{
    match ty {
        Ty::Trigger => Err(ScopeFail::State(State::FEATURE_NOT_SUPPORTED)),
        Ty::Unknown | Ty::Int | Ty::Big | Ty::Text | Ty::Bool => Ok(ty),
        Ty::Row(_) | Ty::Rec | Ty::Void => Ok(ty),
    }
}

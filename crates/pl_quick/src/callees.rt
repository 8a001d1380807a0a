//! Routines whose calls can be planned.

ghost use Rattle.std.specs.Prelude.{◌≡◌, false, true, IfOk, IfSome};
ghost use Rattle.pl_engine.specs.Engines.{world};
ghost use Rattle.pl_engine.specs.pl_world.Calls as spec;
ghost use Rattle.pl_quick.specs.Acts.{CanBeCalled, IsCallee, IsHeld, IsPlain, names_inside};

use pl_base::{Name, Shared, Ty};
use pl_catalog::{Routine, RoutineBody};
use pl_direct::pl_scope::ResolvedExpr;
use pl_engine::Engine;
use pl_engine::pl_declared::Static;
use pl_resolved::RExpr;
use pl_tree::{ResultType, RoutineKind};
use std::alloc::{AllocError, Global};

/// So many calls run at the most.
const MOST_CALLS: usize = 64;

/// A function whose body is one block, which neither declares nor catches.
#[derive(Drop)]
pub(crate) struct Callee {
    pub routine: Name,
    /// What names mean in its block.
    pub declared: Static,
    /// The type of the result.
    pub ty: Ty,
    pub body: RoutineBody,
}

fn is_function(kind: RoutineKind) -> bool
    ensures { result ≡ spec.is_called_by false kind }
{
    match kind {
        RoutineKind::Function => true,
        RoutineKind::Procedure => false,
    }
}

fn unless_void(ty: Ty) -> Option<Ty>
    ensures { result ≡ spec.unless_void ty }
{
    match ty {
        Ty::Void => None,
        other => Some(other),
    }
}

// The type of what RETURN gives. None where it gives no value.
fn given_type(returns: &ResultType) -> Option<Ty>
    ensures { result ≡ spec.result_type returns.now }
{
    match returns {
        ResultType::One(ty) => unless_void(*ty),
        ResultType::Absent => None,
        ResultType::Set(_) => None,
        ResultType::Columns(_) => None,
    }
}

// What names mean in its block.
fn declared_in(alloc: Global, routine: &Routine, ty: Ty) -> Result<Static, AllocError>
    ensures { IfOk result (λ s. s ≡ names_inside routine.now ty) }
{
    let params = routine.heading.params.as_slice();
    let mut declared = Static::entering(alloc, routine.name, params, Some(ty))?;
    declared.open(alloc, routine.body.get().block.label)?;
    Ok(declared)
}

// Whether its body is one block, which neither declares nor catches, and it takes so many values.
fn is_plain(routine: &Routine, count: usize) -> bool
    ensures { result ≡ true → IsPlain routine.now count }
{
    let block = &routine.body.get().block;
    if !is_function(routine.heading.kind) || routine.heading.params.len() != count {
        return false;
    }
    block.declarations.is_empty() && block.handlers.is_empty()
}

fn hold(alloc: Global, routine: &Routine, ty: Ty) -> Result<Callee, AllocError>
    ensures { IfOk result (λ c. IsHeld c routine.now ty) }
{
    let declared = declared_in(alloc, routine, ty)?;
    Ok(Callee {
        routine: routine.name,
        declared,
        ty,
        body: routine.body.share()?,
    })
}

// None where it is no such function, or doesn't take so many values.
fn callee_for(alloc: Global, routine: &Routine, count: usize) -> Option<Callee>
    ensures { IfSome result (λ c. IsCallee c routine.now count) }
{
    if !is_plain(routine, count) {
        return None;
    }
    let ty = given_type(&routine.heading.result)?;
    match hold(alloc, routine, ty) {
        Ok(callee) => Some(callee),
        Err(_) => None,
    }
}

// The function that an expression calls, if it is a call and nothing else.
fn callee_in(engine: &Engine, e: &Shared<ResolvedExpr>) -> Option<Callee>
    ensures { IfSome result (λ c. CanBeCalled c e.now (world engine.now)) }
{
    let RExpr::Call { routine, arguments } = e.get().typed.tree.get() else {
        return None;
    };
    if engine.calls() >= MOST_CALLS {
        return None;
    }
    let routine = engine.journal().catalog().routine(*routine)?;
    callee_for(engine.alloc(), routine, arguments.len())
}

/// The function that an expression calls, if it is a call and nothing else, and calls are planned.
pub(crate) fn callee_if(may_call: bool, engine: &Engine, e: &Shared<ResolvedExpr>) -> Option<Callee>
    ensures { IfSome result (λ c. CanBeCalled c e.now (world engine.now)) }
{
    if may_call { callee_in(engine, e) } else { None }
}

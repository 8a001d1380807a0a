//! The routine that a call names.

ghost use Rattle.std.specs.Prelude.{◌≡◌, Bool, IfOk};
ghost use Rattle.pl_calling.specs.Called.{CallsIt, IsCallee};
ghost use Rattle.pl_engine.specs.Engines.{world};
ghost use Rattle.pl_engine.specs.pl_world.Calls as spec;

use pl_base::{Name, Ty, Value};
use pl_catalog::{Routine, RoutineBody};
use pl_engine::Engine;
use pl_engine::pl_declared::Static;
use pl_tree::{ResultType, RoutineKind};
use std::alloc::{AllocError, Global};

/// A routine that is called. Its body is that of the moment of the call, whatever becomes of the
/// routine while it runs.
#[derive(Drop)]
pub struct Found {
    pub routine: Name,
    /// What names mean when the call is entered.
    pub declared: Static,
    /// The type of what RETURN gives. None where it gives no value.
    pub result: Option<Ty>,
    pub body: RoutineBody,
}

fn unless_void(ty: Ty) -> Option<Ty>
    ensures { result ≡ spec.unless_void ty }
{
    match ty {
        Ty::Void => None,
        other => Some(other),
    }
}

// The type of what RETURN gives.
fn result_type(returns: &ResultType) -> Option<Ty>
    ensures { result ≡ spec.result_type returns.now }
{
    match returns {
        ResultType::One(ty) => unless_void(*ty),
        ResultType::Absent => None,
        ResultType::Set(_) => None,
        ResultType::Columns(_) => None,
    }
}

// A procedure is called by CALL, which is a command, and a function inside of an expression.
fn is_called_by(is_command: bool, kind: RoutineKind) -> bool
    ensures { result ≡ spec.is_called_by is_command kind }
{
    match (is_command, kind) {
        (true, RoutineKind::Procedure) => true,
        (true, RoutineKind::Function) => false,
        (false, RoutineKind::Procedure) => false,
        (false, RoutineKind::Function) => true,
    }
}

// It can be called so, with so many values.
fn can_be_called(is_command: bool, values: &[Value], routine: &Routine) -> bool
    ensures { result ≡ spec.can_be_called is_command values.now routine.now }
{
    is_called_by(is_command, routine.heading.kind) && values.len() == routine.heading.params.len()
}

fn hold(alloc: Global, routine: &Routine) -> Result<Found, AllocError>
    ensures { IfOk result (λ found. (is_command : Bool)
        → IsCallee is_command found (spec.callee_of is_command routine.now)) }
{
    let result = result_type(&routine.heading.result);
    let params = routine.heading.params.as_slice();
    let declared = Static::entering(alloc, routine.name, params, result)?;
    Ok(Found {
        routine: routine.name,
        declared,
        result,
        body: routine.body.share()?,
    })
}

/// The routine of this name, if it can be called with so many values: a procedure by a command, and
/// a function inside of an expression.
pub fn find(
    engine: &Engine,
    is_command: bool,
    name: Name,
    values: &[Value],
) -> Result<Option<Found>, AllocError>
    ensures { IfOk result (λ found.
        CallsIt is_command found name values.now (world engine.now)) }
{
    match engine.journal().catalog().routine(name) {
        None => Ok(None),
        Some(routine) => {
            if can_be_called(is_command, values, routine) {
                Ok(Some(hold(engine.alloc(), routine)?))
            } else {
                Ok(None)
            }
        }
    }
}

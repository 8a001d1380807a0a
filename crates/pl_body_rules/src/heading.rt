//! The routine of a body.

ghost use Rattle.std.specs.Prelude.{◌≡◌, ◌<◌, ◌≤◌, length, OnOk, IfOk};
ghost use Rattle.pl_body_rules.specs.Frames.{with_variable};
ghost use Rattle.pl_body_rules.specs.Heading as spec;

use crate::{Frame, FrameKind, Variable, VariableKind, Variables};
use pl_base::{Name, Ty};
use pl_tree::{Param, ResultType};
use std::alloc::{AllocError, Global};

/// What a body is of.
#[derive(Clone, Copy)]
pub enum Kind {
    Function,
    Procedure,
    /// DO
    Do,
}

/// What is declared of a routine.
#[derive(Clone, Copy)]
pub struct Heading<'a> {
    /// None in a DO.
    pub name: Option<Name>,
    pub kind: Kind,
    pub params: &'a [Param],
    /// `ResultType::Absent` of a procedure and in a DO.
    pub result: &'a ResultType,
}

/// What a variable of this type may be used for.
pub(crate) fn kind_of_type(ty: &Ty) -> VariableKind
    ensures { result ≡ spec.kind_of_type ty.now }
{
    match ty {
        Ty::Row(_) | Ty::Rec => VariableKind::Row,
        Ty::Unknown | Ty::Int | Ty::Big | Ty::Text | Ty::Bool => VariableKind::Plain,
        Ty::Void | Ty::Trigger => VariableKind::Plain,
    }
}

/// A variable that isn't a constant.
pub(crate) fn variable(kind: VariableKind) -> Variable
    ensures { result ≡ spec.variable kind }
{
    Variable {
        kind,
        is_constant: false,
    }
}

// A parameter without a name is no variable.
fn declare_param(variables: &mut Variables, param: &Param) -> Result<(), AllocError>
    ensures { OnOk result (variables.new ≡ spec.with_param param.now variables.old) }
{
    match param.name {
        None => Ok(()),
        Some(name) => variables.declare(name, variable(kind_of_type(&param.ty))),
    }
}

fn declare_params(variables: &mut Variables, params: &[Param]) -> Result<(), AllocError>
    ensures { OnOk result (variables.new ≡ spec.with_params params.now variables.old) }
{
    for param in params {
        declare_param(variables, param)?;
    }
    Ok(())
}

// The columns of TABLE.
fn declare_columns(variables: &mut Variables, result_type: &ResultType) -> Result<(), AllocError>
    ensures { OnOk result (variables.new ≡ spec.with_columns result_type.now variables.old) }
{
    match result_type {
        ResultType::Columns(columns) => declare_params(variables, columns.as_slice()),
        ResultType::Absent | ResultType::One(_) | ResultType::Set(_) => Ok(()),
    }
}

// A variable that is declared by nobody.
fn declare_own(variables: &mut Variables, name: &str, variable: Variable) -> Result<(), AllocError>
    requires short { (0 < length name.now) × (length name.now ≤ 63) }
    ensures { OnOk result (variables.new ≡ with_variable name.now variable variables.old) }
{
    match Name::of(name) {
        None => Ok(()),
        Some(name) => variables.declare(name, variable),
    }
}

fn is_trigger(result_type: &ResultType) -> bool
    ensures { result ≡ spec.is_trigger result_type.now }
{
    match result_type {
        ResultType::One(Ty::Trigger) => true,
        ResultType::Absent | ResultType::One(_) => false,
        ResultType::Set(_) | ResultType::Columns(_) => false,
    }
}

// NEW, OLD and those that tell of the trigger.
fn declare_trigger(variables: &mut Variables) -> Result<(), AllocError>
    ensures { OnOk result (variables.new ≡ spec.with_trigger variables.old) }
{
    declare_own(variables, "new", variable(VariableKind::Row))?;
    declare_own(variables, "old", variable(VariableKind::Row))?;
    declare_own(variables, "tg_name", variable(VariableKind::Plain))?;
    declare_own(variables, "tg_when", variable(VariableKind::Plain))?;
    declare_own(variables, "tg_level", variable(VariableKind::Plain))?;
    declare_own(variables, "tg_op", variable(VariableKind::Plain))?;
    declare_own(variables, "tg_table_name", variable(VariableKind::Plain))
}

fn declare_found(variables: &mut Variables, result_type: &ResultType) -> Result<(), AllocError>
    ensures { OnOk result (variables.new ≡ spec.with_found result_type.now variables.old) }
{
    declare_own(variables, "found", variable(VariableKind::Plain))?;
    if is_trigger(result_type) {
        declare_trigger(variables)
    } else {
        Ok(())
    }
}

/// The outermost frame of a body. FOUND and the variables of triggers hide parameters and columns.
pub(crate) fn routine_frame(alloc: Global, heading: &Heading<'_>) -> Result<Frame, AllocError>
    ensures { IfOk result (λ frame. frame ≡ spec.routine_frame (spec.routine heading.now)) }
{
    let mut variables = Variables::new(alloc);
    declare_found(&mut variables, heading.result)?;
    declare_params(&mut variables, heading.params)?;
    declare_columns(&mut variables, heading.result)?;
    Ok(Frame {
        label: heading.name,
        kind: FrameKind::Routine,
        variables,
    })
}

/// The frame of a handler: SQLSTATE and SQLERRM, which no statement changes, under the label of its
/// block.
pub(crate) fn handler_frame(alloc: Global, label: Option<Name>) -> Result<Frame, AllocError>
    ensures { IfOk result (λ frame. frame ≡ spec.handler_frame label) }
{
    let constant = Variable {
        kind: VariableKind::Plain,
        is_constant: true,
    };
    let mut variables = Variables::new(alloc);
    declare_own(&mut variables, "sqlstate", constant)?;
    declare_own(&mut variables, "sqlerrm", constant)?;
    Ok(Frame {
        label,
        kind: FrameKind::Handler,
        variables,
    })
}

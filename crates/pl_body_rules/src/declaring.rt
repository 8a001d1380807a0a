//! Declarations: PostgreSQL manual, PL/pgSQL, "Declarations".

ghost use Rattle.std.specs.Prelude.{◌≡◌, [], IfOk};
ghost use Rattle.pl_body_rules.specs.Declaring as spec;

use crate::heading::{kind_of_type, variable};
use crate::targets::variable_named;
use crate::{Breach, Frame, FrameKind, Variable, VariableKind, Variables};
use pl_base::{Name, State};
use pl_bodies::{Declaration, DeclarationKind, VariableType};
use std::alloc::{AllocError, Global};

/// What comes of a block's declarations.
#[derive(Drop)]
pub enum Declared {
    /// The frame that they make.
    Frame(Frame),
    /// The first that breaks a rule.
    Breach(Breach),
}

// What a variable of the type of this one may be used for. It is bound to no query.
fn kind_like(variable: Option<Variable>) -> VariableKind
    ensures { result ≡ spec.kind_like variable }
{
    match variable {
        None => VariableKind::Plain,
        Some(variable) => match variable.kind {
            VariableKind::Plain => VariableKind::Plain,
            VariableKind::Row => VariableKind::Row,
            VariableKind::Cursor | VariableKind::Bound { .. } => VariableKind::Cursor,
        },
    }
}

fn kind_of(ty: &VariableType, outer: &[Frame], declared: &Variables) -> VariableKind
    ensures { result ≡ spec.kind_of ty.now outer.now declared.now }
{
    match ty {
        VariableType::Ty(ty) => kind_of_type(ty),
        VariableType::Cursor => VariableKind::Cursor,
        VariableType::OfVariable(name) => {
            kind_like(declared.get(*name).or(variable_named(*name, outer)))
        }
        VariableType::OfColumn { .. } => VariableKind::Plain,
    }
}

fn variable_of(kind: &DeclarationKind, outer: &[Frame], declared: &Variables) -> Variable
    ensures { result ≡ spec.variable_of kind.now outer.now declared.now }
{
    match kind {
        DeclarationKind::Variable {
            is_constant,
            ty,
            ..
        } => Variable {
            kind: kind_of(ty, outer, declared),
            is_constant: *is_constant,
        },
        DeclarationKind::Cursor { parameters, .. } => variable(VariableKind::Bound {
            parameters: parameters.len(),
        }),
    }
}

fn lacks_default(kind: &DeclarationKind) -> bool
    ensures { result ≡ spec.lacks_default kind.now }
{
    match kind {
        DeclarationKind::Variable {
            is_not_null,
            default,
            ..
        } => *is_not_null && default.is_none(),
        DeclarationKind::Cursor { .. } => false,
    }
}

// 42601 where the block has a variable of this name already, 22004 where a value is due.
fn declaration_state(declaration: &Declaration, declared: &Variables) -> Option<State>
    ensures { result ≡ spec.declaration_state declaration.now declared.now }
{
    if declared.get(declaration.name).is_some() {
        return Some(State::SYNTAX_ERROR);
    }
    if lacks_default(&declaration.kind) {
        Some(State::NULL_VALUE_NOT_ALLOWED)
    } else {
        None
    }
}

/// The frame of a block with this label and these declarations, within others. Each declaration
/// sees those before it.
pub(crate) fn declare(
    alloc: Global,
    label: Option<Name>,
    declarations: &[Declaration],
    outer: &[Frame],
) -> Result<Declared, AllocError>
    ensures { IfOk result (λ made. made ≡ spec.declared label declarations.now outer.now []) }
{
    let mut variables = Variables::new(alloc);
    for declaration in declarations {
        if let Some(state) = declaration_state(declaration, &variables) {
            let breach = Breach {
                state,
                line: declaration.line,
            };
            return Ok(Declared::Breach(breach));
        }
        let variable = variable_of(&declaration.kind, outer, &variables);
        variables.declare(declaration.name, variable)?;
    }
    Ok(Declared::Frame(Frame {
        label,
        kind: FrameKind::Block,
        variables,
    }))
}

//! Whether a body has a form that a later part of the language brings.

ghost use Rattle.std.specs.Prelude.{◌≡◌, map};
ghost use Rattle.std.specs.List.{list_any};
ghost use Rattle.std.specs.Option.{option_map};
ghost use Rattle.pl_waiting.specs.Waiting as spec;

use pl_base::{Boxed, Ty};
use pl_bodies::{
    Block, Body, Branch, CaseArm, Declaration, DeclarationKind, Handler, Loop, LoopHead, Otherwise,
    Simple, Statement, StatementKind, VariableType,
};

// ---- parts that hold no statement

fn is_scalar(ty: &Ty) -> bool
    ensures { result ≡ spec.is_scalar ty.now }
{
    match ty {
        Ty::Int | Ty::Big | Ty::Text | Ty::Bool => true,
        Ty::Unknown | Ty::Row(_) | Ty::Rec | Ty::Void | Ty::Trigger => false,
    }
}

fn type_waits(ty: &VariableType) -> bool
    ensures { result ≡ spec.type_waits ty.now }
{
    match ty {
        VariableType::Ty(ty) => !is_scalar(ty),
        VariableType::OfVariable(_) => false,
        VariableType::Cursor | VariableType::OfColumn { .. } => true,
    }
}

fn declaration_waits(declaration: &Declaration) -> bool
    ensures { result ≡ spec.declaration_waits declaration.now }
{
    match &declaration.kind {
        DeclarationKind::Variable { ty, .. } => type_waits(ty),
        DeclarationKind::Cursor { .. } => true,
    }
}

fn any_declaration(declarations: &[Declaration]) -> bool
    ensures { result ≡ list_any spec.declaration_waits declarations.now }
{
    declarations
        .iter()
        .any(|declaration| declaration_waits(declaration))
}

fn simple_waits(simple: &Simple) -> bool
    ensures { result ≡ spec.simple_waits simple.now }
{
    match simple {
        Simple::ReturnNext(_) | Simple::ReturnQuery(_) | Simple::ReturnExecute(_) => true,
        Simple::Execute { .. } | Simple::Open { .. } | Simple::Fetch { .. } => true,
        Simple::Move { .. } | Simple::Close(_) => true,
        Simple::Assign { .. } | Simple::Null | Simple::Commit | Simple::Rollback => false,
        Simple::Perform(_) | Simple::Query { .. } | Simple::Change { .. } => false,
        Simple::Command(_) | Simple::Jump { .. } | Simple::Return(_) => false,
        Simple::RaiseAgain | Simple::Raise(_) | Simple::Assert { .. } => false,
        Simple::GetDiagnostics(_) | Simple::GetStackedDiagnostics(_) => false,
    }
}

fn head_waits(head: &LoopHead) -> bool
    ensures { result ≡ spec.head_waits head.now }
{
    match head {
        LoopHead::Forever | LoopHead::While(_) | LoopHead::Range { .. } => false,
        LoopHead::Rows { .. } | LoopHead::Cursor { .. } => true,
    }
}

// ---- statements

#[cycle(waiting)]
fn any_statement(statements: &[Statement]) -> bool
    ensures { result ≡ spec.any_waits (map spec.statement_waits statements.now) }
{
    for statement in statements {
        if statement_waits(statement) {
            return true;
        }
    }
    false
}

#[cycle(waiting)]
#[tactic(auto, using(crate::proofs::Equations::statement_out))]
fn statement_waits(statement: &Statement) -> bool
    ensures { result ≡ spec.statement_waits statement.now }
{
    kind_waits(&statement.kind)
}

#[cycle(waiting)]
#[tactic(auto, using(crate::proofs::Equations::kind_equations))]
fn kind_waits(kind: &StatementKind) -> bool
    ensures { result ≡ spec.kind_waits kind.now }
{
    match kind {
        StatementKind::Block(block) => block_waits(block),
        StatementKind::If {
            branches,
            otherwise,
        } => any_branch(branches.as_slice()) || otherwise_waits(otherwise),
        StatementKind::Case {
            arms,
            otherwise,
            ..
        } => any_arm(arms.as_slice()) || otherwise_waits(otherwise),
        StatementKind::Loop(inner) => loop_waits(inner),
        StatementKind::Simple(simple) => simple_waits(simple),
    }
}

#[cycle(waiting)]
fn any_branch(branches: &[Branch]) -> bool
    ensures { result ≡ spec.any_waits (map spec.branch_waits branches.now) }
{
    for branch in branches {
        if any_statement(branch.statements.as_slice()) {
            return true;
        }
    }
    false
}

#[cycle(waiting)]
fn any_arm(arms: &[CaseArm]) -> bool
    ensures { result ≡ spec.any_waits (map spec.arm_waits arms.now) }
{
    for arm in arms {
        if any_statement(arm.statements.as_slice()) {
            return true;
        }
    }
    false
}

#[cycle(waiting)]
fn otherwise_waits(otherwise: &Option<Boxed<Otherwise>>) -> bool
    ensures { result ≡ spec.if_there (option_map spec.otherwise_waits otherwise.now) }
{
    match otherwise {
        None => false,
        Some(otherwise) => any_statement(otherwise.get().statements.as_slice()),
    }
}

#[cycle(waiting)]
#[tactic(auto, using(crate::proofs::Equations::loop_out))]
fn loop_waits(inner: &Loop) -> bool
    ensures { result ≡ spec.loop_waits inner.now }
{
    head_waits(&inner.head) || any_statement(inner.statements.as_slice())
}

#[cycle(waiting)]
#[tactic(auto, using(crate::proofs::Equations::block_out))]
fn block_waits(block: &Block) -> bool
    ensures { result ≡ spec.block_waits block.now }
{
    any_declaration(block.declarations.as_slice())
        || any_statement(block.statements.as_slice())
        || any_handler(block.handlers.as_slice())
}

#[cycle(waiting)]
fn any_handler(handlers: &[Handler]) -> bool
    ensures { result ≡ spec.any_waits (map spec.handler_waits handlers.now) }
{
    for handler in handlers {
        if any_statement(handler.statements.as_slice()) {
            return true;
        }
    }
    false
}

// ---- bodies

/// Whether the body has a form that can't be run yet: a variable of a row type, a record or a
/// cursor, a loop over rows, EXECUTE, a statement of cursors, or a RETURN of a set.
pub fn waits(body: &Body) -> bool
    ensures { result ≡ spec.body_waits body.now }
{
    block_waits(&body.block)
}

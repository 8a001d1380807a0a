//! Blocks, and statements that hold others.

ghost use Rattle.std.specs.Prelude.{◌≡◌, map, IfOk, OnOk};
ghost use Rattle.std.specs.Option.{option_map};
ghost use Rattle.pl_body_rules.specs.Heading.{routine};
ghost use Rattle.pl_body_rules.specs.Rules as spec;

use crate::breach::at;
use crate::conditions::caught_state;
use crate::cursors::cursor_loop_state;
use crate::declaring::declare;
use crate::frames::Frames;
use crate::heading::{handler_frame, routine_frame, variable};
use crate::jumps::end_state;
use crate::returning::returns_of;
use crate::simple::simple_state;
use crate::targets::{targets_state, variable_named};
use crate::{Breach, Declared, Frame, FrameKind, Heading, Returns, VariableKind, Variables};
use pl_base::{Boxed, Name, State};
use pl_bodies::{
    Block, Body, Branch, CaseArm, Handler, Loop, LoopHead, Otherwise, Statement, StatementKind,
};
use std::alloc::{AllocError, Global};

// ---- loops

fn head_state(head: &LoopHead, frames: &[Frame]) -> Option<State>
    ensures { result ≡ spec.head_state head.now frames.now }
{
    match head {
        LoopHead::Forever | LoopHead::While(_) | LoopHead::Range { .. } => None,
        LoopHead::Rows { targets, .. } => targets_state(targets.as_slice(), frames),
        LoopHead::Cursor {
            cursor,
            arguments,
            ..
        } => cursor_loop_state(variable_named(*cursor, frames), arguments.len()),
    }
}

// The variable of its own that a loop has.
fn declare_variable(variables: &mut Variables, head: &LoopHead) -> Result<(), AllocError>
    ensures { OnOk result (variables.new ≡ spec.with_loop_variable head.now variables.old) }
{
    match head {
        LoopHead::Forever | LoopHead::While(_) | LoopHead::Rows { .. } => Ok(()),
        LoopHead::Range { variable: name, .. } => {
            variables.declare(*name, variable(VariableKind::Plain))
        }
        LoopHead::Cursor { variable: name, .. } => {
            variables.declare(*name, variable(VariableKind::Row))
        }
    }
}

fn loop_frame(alloc: Global, label: Option<Name>, head: &LoopHead) -> Result<Frame, AllocError>
    ensures { IfOk result (λ frame. frame ≡ spec.loop_frame label head.now) }
{
    let mut variables = Variables::new(alloc);
    declare_variable(&mut variables, head)?;
    Ok(Frame {
        label,
        kind: FrameKind::Loop,
        variables,
    })
}

// ---- statements

#[cycle(rules)]
#[tactic(auto, using(crate::proofs::Options::options))]
fn in_statements(
    alloc: Global,
    statements: &[Statement],
    returns: Returns,
    frames: &mut Frames,
) -> Result<Option<Breach>, AllocError>
    ensures is { IfOk result (λ breach. breach
        ≡ spec.first (map (spec.in_statement returns) statements.now) frames.old) }
    ensures stays { OnOk result (frames.new ≡ frames.old) }
{
    for statement in statements {
        let breach = in_statement(alloc, statement, returns, frames)?;
        if breach.is_some() {
            return Ok(breach);
        }
    }
    Ok(None)
}

#[cycle(rules)]
#[tactic(auto, using(crate::proofs::Equations::statement_out, crate::proofs::Options::options))]
fn in_statement(
    alloc: Global,
    statement: &Statement,
    returns: Returns,
    frames: &mut Frames,
) -> Result<Option<Breach>, AllocError>
    ensures is { IfOk result (λ breach. breach
        ≡ spec.in_statement returns statement.now frames.old) }
    ensures stays { OnOk result (frames.new ≡ frames.old) }
{
    in_kind(alloc, &statement.kind, statement.line, returns, frames)
}

#[cycle(rules)]
#[tactic(auto, using(crate::proofs::Equations::kind_equations, crate::proofs::Options::options))]
fn in_kind(
    alloc: Global,
    kind: &StatementKind,
    line: u32,
    returns: Returns,
    frames: &mut Frames,
) -> Result<Option<Breach>, AllocError>
    ensures is { IfOk result (λ breach. breach ≡ spec.in_kind returns kind.now line frames.old) }
    ensures stays { OnOk result (frames.new ≡ frames.old) }
{
    match kind {
        StatementKind::Block(block) => in_block(alloc, block, line, returns, frames),
        StatementKind::If {
            branches,
            otherwise,
        } => {
            let breach = in_branches(alloc, branches.as_slice(), returns, frames)?;
            if breach.is_some() {
                return Ok(breach);
            }
            in_otherwise(alloc, otherwise, returns, frames)
        }
        StatementKind::Case {
            arms,
            otherwise,
            ..
        } => {
            let breach = in_arms(alloc, arms.as_slice(), returns, frames)?;
            if breach.is_some() {
                return Ok(breach);
            }
            in_otherwise(alloc, otherwise, returns, frames)
        }
        StatementKind::Loop(inner) => in_loop(alloc, inner, line, returns, frames),
        StatementKind::Simple(simple) => {
            Ok(at(line, simple_state(simple, returns, frames.as_slice())))
        }
    }
}

#[cycle(rules)]
#[tactic(auto, using(crate::proofs::Options::options))]
fn in_branches(
    alloc: Global,
    branches: &[Branch],
    returns: Returns,
    frames: &mut Frames,
) -> Result<Option<Breach>, AllocError>
    ensures is { IfOk result (λ breach. breach
        ≡ spec.first (map (spec.branch_view returns) branches.now) frames.old) }
    ensures stays { OnOk result (frames.new ≡ frames.old) }
{
    for branch in branches {
        let breach = in_statements(alloc, branch.statements.as_slice(), returns, frames)?;
        if breach.is_some() {
            return Ok(breach);
        }
    }
    Ok(None)
}

#[cycle(rules)]
#[tactic(auto, using(crate::proofs::Options::options))]
fn in_arms(
    alloc: Global,
    arms: &[CaseArm],
    returns: Returns,
    frames: &mut Frames,
) -> Result<Option<Breach>, AllocError>
    ensures is { IfOk result (λ breach. breach
        ≡ spec.first (map (spec.arm_view returns) arms.now) frames.old) }
    ensures stays { OnOk result (frames.new ≡ frames.old) }
{
    for arm in arms {
        let breach = in_statements(alloc, arm.statements.as_slice(), returns, frames)?;
        if breach.is_some() {
            return Ok(breach);
        }
    }
    Ok(None)
}

#[cycle(rules)]
#[tactic(auto, using(crate::proofs::Options::options))]
fn in_otherwise(
    alloc: Global,
    otherwise: &Option<Boxed<Otherwise>>,
    returns: Returns,
    frames: &mut Frames,
) -> Result<Option<Breach>, AllocError>
    ensures is { IfOk result (λ breach. breach
        ≡ spec.if_there (option_map (spec.otherwise_view returns) otherwise.now) frames.old) }
    ensures stays { OnOk result (frames.new ≡ frames.old) }
{
    match otherwise {
        None => Ok(None),
        Some(otherwise) => {
            in_statements(
                alloc,
                otherwise.get().statements.as_slice(),
                returns,
                frames,
            )
        }
    }
}

// ---- loops and blocks

#[cycle(rules)]
#[tactic(auto, using(crate::proofs::Equations::loop_out, crate::proofs::Options::options))]
fn in_loop(
    alloc: Global,
    inner: &Loop,
    line: u32,
    returns: Returns,
    frames: &mut Frames,
) -> Result<Option<Breach>, AllocError>
    ensures is { IfOk result (λ breach. breach ≡ spec.in_loop returns inner.now line frames.old) }
    ensures stays { OnOk result (frames.new ≡ frames.old) }
{
    let state = head_state(&inner.head, frames.as_slice());
    if state.is_some() {
        return Ok(at(line, state));
    }
    frames.enter(loop_frame(alloc, inner.label, &inner.head)?)?;
    let breach = in_statements(alloc, inner.statements.as_slice(), returns, frames)?;
    frames.leave();
    Ok(breach.or(at(line, end_state(&inner.label, &inner.end_label))))
}

#[cycle(rules)]
#[tactic(auto, using(crate::proofs::Equations::block_out, crate::proofs::Options::options))]
fn in_block(
    alloc: Global,
    block: &Block,
    line: u32,
    returns: Returns,
    frames: &mut Frames,
) -> Result<Option<Breach>, AllocError>
    ensures is { IfOk result (λ breach. breach ≡ spec.in_block returns block.now line frames.old) }
    ensures stays { OnOk result (frames.new ≡ frames.old) }
{
    let declarations = block.declarations.as_slice();
    match declare(alloc, block.label, declarations, frames.as_slice())? {
        Declared::Breach(breach) => Ok(Some(breach)),
        Declared::Frame(frame) => {
            frames.enter(frame)?;
            let breach = in_parts(alloc, block, line, returns, frames)?;
            frames.leave();
            Ok(breach.or(at(line, end_state(&block.label, &block.end_label))))
        }
    }
}

// The statements and the handlers of a block, within its frame.
#[cycle(rules)]
#[tactic(auto, using(crate::proofs::Options::options))]
fn in_parts(
    alloc: Global,
    block: &Block,
    line: u32,
    returns: Returns,
    frames: &mut Frames,
) -> Result<Option<Breach>, AllocError>
    ensures is { IfOk result (λ breach. breach
        ≡ spec.parts_view returns block.now line frames.old) }
    ensures stays { OnOk result (frames.new ≡ frames.old) }
{
    let breach = in_statements(alloc, block.statements.as_slice(), returns, frames)?;
    if breach.is_some() {
        return Ok(breach);
    }
    let handlers = block.handlers.as_slice();
    in_handlers(alloc, handlers, &block.label, line, returns, frames)
}

#[cycle(rules)]
#[tactic(auto, using(crate::proofs::Options::options))]
fn in_handlers(
    alloc: Global,
    handlers: &[Handler],
    label: &Option<Name>,
    line: u32,
    returns: Returns,
    frames: &mut Frames,
) -> Result<Option<Breach>, AllocError>
    ensures is { IfOk result (λ breach. breach
        ≡ spec.first_on label.now line (map (spec.handler_view returns) handlers.now) frames.old) }
    ensures stays { OnOk result (frames.new ≡ frames.old) }
{
    for handler in handlers {
        let breach = in_handler(alloc, handler, label, line, returns, frames)?;
        if breach.is_some() {
            return Ok(breach);
        }
    }
    Ok(None)
}

#[cycle(rules)]
#[tactic(auto, using(crate::proofs::Options::options))]
fn in_handler(
    alloc: Global,
    handler: &Handler,
    label: &Option<Name>,
    line: u32,
    returns: Returns,
    frames: &mut Frames,
) -> Result<Option<Breach>, AllocError>
    ensures is { IfOk result (λ breach. breach
        ≡ spec.handler_view returns handler.now label.now line frames.old) }
    ensures stays { OnOk result (frames.new ≡ frames.old) }
{
    let state = caught_state(handler.conditions.as_slice());
    if state.is_some() {
        return Ok(at(line, state));
    }
    frames.enter(handler_frame(alloc, *label)?)?;
    let breach = in_statements(alloc, handler.statements.as_slice(), returns, frames)?;
    frames.leave();
    Ok(breach)
}

// ---- bodies

/// The first rule that the body of a routine breaks, of those that are tested when the routine is
/// created. Rules that one statement breaks come in the order 42601, 42704, 22004, 22005, 42804,
/// but where a cursor is opened 42804 comes before the number of its arguments. A name behind END
/// comes behind what stands in the block or the loop.
pub fn first_breach(
    alloc: Global,
    heading: &Heading<'_>,
    body: &Body,
) -> Result<Option<Breach>, AllocError>
    ensures { IfOk result (λ breach. breach ≡ spec.first_breach (routine heading.now) body.now) }
{
    let mut frames = Frames::new(alloc);
    frames.enter(routine_frame(alloc, heading)?)?;
    in_block(
        alloc,
        &body.block,
        body.line,
        returns_of(heading),
        &mut frames,
    )
}

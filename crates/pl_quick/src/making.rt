//! What statements that only compute stand for, with their names resolved.

ghost use Rattle.std.specs.Prelude.{◌≡◌, ℕ, IfSome, None, Some};
ghost use Rattle.std.specs.Option.{option_copied};
ghost use Rattle.pl_engine.specs.Engines.{kept, world};
ghost use Rattle.pl_bodies.specs.declared.statement.StatementKind.TheOpen as kind;
ghost use Rattle.pl_bodies.specs.declared.simple.Simple.TheVariants as simple;
ghost use Rattle.pl_quick.specs.Acts.{AreFor, AreForBranches, IsForForm, IsForOne, IsGiven};
ghost use Rattle.pl_engine.specs.pl_world.Control.{else_of};
ghost use Rattle.pl_quick.specs.Acts.{AreWithin, IsForArm, IsPlace, IsRead, IsReadIf};

use crate::act::{Act, Arm, Assign};
use crate::callees::{Callee, callee_if};
use pl_base::{Boxed, List, Shared, Ty};
use pl_bodies::{Branch, Jump, Otherwise, Simple, Statement, StatementKind, Target};
use pl_direct::direct_variable;
use pl_direct::pl_scope::ResolvedExpr;
use pl_engine::{Engine, Spot};
use pl_tree::Expr;

/// How deep statements may stand in statements and in routines that are called.
pub(crate) const DEPTH: usize = 16;

// ---- names

fn read(engine: &mut Engine, at: Spot, e: &Expr) -> Option<Shared<ResolvedExpr>>
    ensures reads { IfSome result (λ x. IsRead x e.now (world engine.old)) }
    ensures is { world engine.new ≡ world engine.old }
    ensures keeps { kept engine.new ≡ kept engine.old }
{
    match engine.resolve_expr(at, e) {
        Ok(read) => Some(read),
        Err(_) => None,
    }
}

fn read_if(
    engine: &mut Engine,
    at: Spot,
    e: &Option<Boxed<Expr>>,
) -> Option<Option<Shared<ResolvedExpr>>>
    ensures reads { IfSome result (λ x. IsReadIf x e.now (world engine.old)) }
    ensures is { world engine.new ≡ world engine.old }
    ensures keeps { kept engine.new ≡ kept engine.old }
{
    match e {
        Some(e) => Some(Some(read(engine, at, e.get())?)),
        None => Some(None),
    }
}

/// The condition of a loop, if it has one.
pub(crate) fn asked_for(
    engine: &mut Engine,
    at: Spot,
    condition: Option<&Expr>,
) -> Option<Option<Shared<ResolvedExpr>>>
    ensures reads { IfSome result (λ x. IsReadIf x (option_copied condition.entry)
        (world engine.old)) }
    ensures is { world engine.new ≡ world engine.old }
    ensures keeps { kept engine.new ≡ kept engine.old }
{
    match condition {
        Some(e) => Some(Some(read(engine, at, e)?)),
        None => Some(None),
    }
}

/// A variable that is given a value.
#[derive(Clone, Copy)]
struct Place {
    column: usize,
    ty: Ty,
}

// The variable that a target names. None where it has a qualifier.
fn place_of(engine: &Engine, target: &Target) -> Option<Place>
    ensures { IfSome result (λ place. IsPlace place target.now (world engine.now)) }
{
    match target.qualifier {
        None => {
            let spot = direct_variable(engine.declared().scope(), &target.name)?;
            Some(Place {
                column: spot.column,
                ty: spot.seen.ty,
            })
        }
        Some(_) => None,
    }
}

// ---- statements that hold no other

fn assigning(engine: &mut Engine, at: Spot, target: &Target, e: &Expr) -> Option<Assign>
    ensures assigns { IfSome result (λ a. IsGiven a target.now e.now (world engine.old)) }
    ensures is { world engine.new ≡ world engine.old }
    ensures keeps { kept engine.new ≡ kept engine.old }
{
    let place = place_of(&*engine, target)?;
    let value = read(engine, at, e)?;
    Some(Assign {
        column: place.column,
        ty: place.ty,
        value,
    })
}

fn jump_for(
    engine: &mut Engine,
    at: Spot,
    jump: Jump,
    condition: &Option<Boxed<Expr>>,
) -> Option<Act>
    ensures act { IfSome result (λ act. (n : ℕ) → IsForForm n act
        (kind.Simple (simple.Jump jump None condition.now)) (world engine.old)) }
    ensures is { world engine.new ≡ world engine.old }
    ensures keeps { kept engine.new ≡ kept engine.old }
{
    let condition = read_if(engine, at, condition)?;
    Some(Act::Jump { jump, condition })
}

// RETURN, where a value is due.
fn return_for(engine: &mut Engine, at: Spot, e: &Expr) -> Option<Act>
    ensures act { IfSome result (λ act. (n : ℕ) → IsForForm n act
        (kind.Simple (simple.Return (Some e.now))) (world engine.old)) }
    ensures is { world engine.new ≡ world engine.old }
    ensures keeps { kept engine.new ≡ kept engine.old }
{
    let Some(_ty) = engine.declared().result() else {
        return None;
    };
    let value = read(engine, at, e)?;
    Some(Act::Return(value))
}

// ---- all of them

// Of the routine that is called: no call in it is planned.
#[cycle(making)]
fn acts_within(engine: &mut Engine, callee: Callee, depth: usize) -> Option<List<Act>>
    ensures acts { IfSome result (λ acts. AreWithin depth acts callee (world engine.old)) }
    ensures is { world engine.new ≡ world engine.old }
    ensures keeps { kept engine.new ≡ kept engine.old }
{
    let Callee {
        routine,
        declared,
        body,
        ..
    } = callee;
    let none = List::new(engine.alloc());
    let Ok(()) = engine.enter(routine, false, declared, none) else {
        return None;
    };
    let acts = acts_for(engine, body.get().block.statements.as_slice(), depth, false);
    engine.leave();
    acts
}

#[cycle(making)]
fn assign_for(
    engine: &mut Engine,
    at: Spot,
    target: &Target,
    e: &Expr,
    depth: usize,
    may_call: bool,
) -> Option<Act>
    ensures act { IfSome result (λ act. IsForForm depth act
        (kind.Simple (simple.Assign target.now e.now)) (world engine.old)) }
    ensures is { world engine.new ≡ world engine.old }
    ensures keeps { kept engine.new ≡ kept engine.old }
{
    let assign = assigning(engine, at, target, e)?;
    match callee_if(may_call, &*engine, &assign.value) {
        Some(callee) => {
            let ty = callee.ty;
            let acts = acts_within(engine, callee, depth)?;
            Some(Act::Call { assign, ty, acts })
        }
        None => Some(Act::Assign(assign)),
    }
}

#[cycle(making)]
fn simple_act(
    engine: &mut Engine,
    at: Spot,
    s: &Simple,
    depth: usize,
    may_call: bool,
) -> Option<Act>
    ensures act { IfSome result (λ act. IsForForm depth act (kind.Simple s.now)
        (world engine.old)) }
    ensures is { world engine.new ≡ world engine.old }
    ensures keeps { kept engine.new ≡ kept engine.old }
{
    match s {
        Simple::Null => Some(Act::Nothing),
        Simple::Assign { target, value } => {
            assign_for(engine, at, target, value, depth, may_call)
        }
        Simple::Jump {
            jump,
            label: None,
            condition,
        } => jump_for(engine, at, *jump, condition),
        Simple::Return(Some(value)) => return_for(engine, at, value.get()),
        _ => None,
    }
}

#[cycle(making)]
fn arm_for(
    engine: &mut Engine,
    at: Spot,
    branch: &Branch,
    depth: usize,
    may_call: bool,
) -> Option<Arm>
    ensures arm { IfSome result (λ arm. IsForArm depth arm branch.now (world engine.old)) }
    ensures is { world engine.new ≡ world engine.old }
    ensures keeps { kept engine.new ≡ kept engine.old }
{
    let condition = read(engine, at, &branch.condition)?;
    let acts = acts_for(engine, branch.statements.as_slice(), depth, may_call)?;
    Some(Arm { condition, acts })
}

#[cycle(making)]
fn arms_for(
    engine: &mut Engine,
    at: Spot,
    branches: &[Branch],
    depth: usize,
    may_call: bool,
) -> Option<List<Arm>>
    ensures arms { IfSome result (λ arms. AreForBranches depth arms branches.now
        (world engine.old)) }
    ensures is { world engine.new ≡ world engine.old }
    ensures keeps { kept engine.new ≡ kept engine.old }
{
    let mut arms = List::new(engine.alloc());
    for branch in branches {
        let arm = arm_for(engine, at, branch, depth, may_call)?;
        let Ok(()) = arms.push(arm) else {
            return None;
        };
    }
    Some(arms)
}

#[cycle(making)]
fn otherwise_for(
    engine: &mut Engine,
    otherwise: &Option<Boxed<Otherwise>>,
    depth: usize,
    may_call: bool,
) -> Option<List<Act>>
    ensures acts { IfSome result (λ acts. AreFor depth acts (else_of otherwise.now)
        (world engine.old)) }
    ensures is { world engine.new ≡ world engine.old }
    ensures keeps { kept engine.new ≡ kept engine.old }
{
    match otherwise {
        Some(otherwise) => {
            acts_for(
                engine,
                otherwise.get().statements.as_slice(),
                depth,
                may_call,
            )
        }
        None => Some(List::new(engine.alloc())),
    }
}

#[cycle(making)]
fn act_for(engine: &mut Engine, s: &Statement, depth: usize, may_call: bool) -> Option<Act>
    ensures act { IfSome result (λ act. IsForOne depth act s.now (world engine.old)) }
    ensures is { world engine.new ≡ world engine.old }
    ensures keeps { kept engine.new ≡ kept engine.old }
{
    if depth == 0 {
        return None;
    }
    let at = Spot {
        line: s.line,
        ordinal: s.ordinal,
    };
    match &s.kind {
        StatementKind::Simple(s) => simple_act(engine, at, s, depth - 1, may_call),
        StatementKind::If {
            branches,
            otherwise,
        } => {
            let arms = arms_for(engine, at, branches.as_slice(), depth - 1, may_call)?;
            let others = otherwise_for(engine, otherwise, depth - 1, may_call)?;
            Some(Act::Choose {
                arms,
                otherwise: others,
            })
        }
        _ => None,
    }
}

/// What the statements do. None where one of them does more than compute, or isn't resolved.
#[cycle(making)]
pub(crate) fn acts_for(
    engine: &mut Engine,
    statements: &[Statement],
    depth: usize,
    may_call: bool,
) -> Option<List<Act>>
    ensures acts { IfSome result (λ acts. AreFor depth acts statements.now (world engine.old)) }
    ensures is { world engine.new ≡ world engine.old }
    ensures keeps { kept engine.new ≡ kept engine.old }
{
    let mut acts = List::new(engine.alloc());
    for s in statements {
        let act = act_for(engine, s, depth, may_call)?;
        let Ok(()) = acts.push(act) else {
            return None;
        };
    }
    Some(acts)
}

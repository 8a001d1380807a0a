//! CASE with an operand: PostgreSQL manual, "PL/pgSQL", "Conditionals".

ghost use Rattle.std.specs.Prelude.{◌≡◌, ◌≤◌, OnOk, Some};
ghost use Rattle.pl_asking.specs.Values.{read_match};
ghost use Rattle.pl_calling.specs.pl_engine.Answers.{Answers};
ghost use Rattle.pl_calling.specs.pl_engine.Engines.{kept, world};
ghost use Rattle.pl_calling.specs.pl_engine.Runs.{Runs};
ghost use Rattle.pl_calling.specs.pl_engine.Texts.{do_bodies};
ghost use Rattle.pl_typing.specs.Typing as typing;
ghost use Rattle.pl_world.specs.Control as spec;
ghost use Rattle.pl_world.specs.Expressions.{evaluated};
ghost use Rattle.pl_world.specs.Statements.{runner_for};

use crate::answers::value_of;
use crate::resolving::find;
use pl_base::{Boxed, Ty, Value};
use pl_bodies::{CaseArm, Otherwise};
use pl_calling::pl_engine::{BodyRunner, Calls, Engine, Port, Runner, Spot, Stop, Task, all};
use pl_calling::{evaluate, evaluate_beside};
use pl_direct::pl_scope::ResolvedExpr;
use pl_flow::{not_found, truth_of};
use pl_tree::Expr;
use pl_typing::{ScopeFail, as_text_type};
use pl_world::Outcome;
use std::slice::from_ref;

// Whether the operand is IN the values of an arm; null where that isn't known.
fn match_operand<P: Port, R: BodyRunner>(
    calls: &Calls<'_, R>,
    engine: &mut Engine,
    port: &mut P,
    at: Spot,
    ty: &Ty,
    operand: &[Value],
    values: &[Expr],
) -> Result<Outcome, Stop>
    requires room { (world engine.old).steps ≤ calls.now.room }
    requires fits { P.fits (world engine.old).last port.old }
    requires runs { R.runs calls.now.bodies.now calls.now.room }
    ensures is { Answers P.Port
        (read_match (runner_for do_bodies calls.now.room) at ty.now operand.now values.now
        (world engine.old)) result
        engine.old engine.new port.old port.new }
    ensures keeps { OnOk result (kept engine.new ≡ kept engine.old) }
{
    match find(engine, *ty, values) {
        Ok(e) => evaluate_beside(calls, engine, port, at, e.get(), operand),
        Err(ScopeFail::State(state)) => Ok(engine.raise(state, at)),
        Err(ScopeFail::Memory) => Err(Stop::Memory),
    }
}

// The statements of the first arm among whose values the operand is, or those of ELSE.
fn try_arms<P: Port, F, R: BodyRunner>(
    runner: &Runner<F>,
    bodies: &R,
    engine: &mut Engine,
    port: &mut P,
    at: Spot,
    ty: &Ty,
    operand: &Value,
    arms: &[CaseArm],
    otherwise: &Option<Boxed<Otherwise>>,
) -> Result<Outcome, Stop>
where
    F: Fn(u64, &mut Engine, &mut P, Task<'_>) -> Result<Outcome, Stop>,
    requires room { (world engine.old).steps ≤ runner.now.room }
    requires fits { P.fits (world engine.old).last port.old }
    requires runs { Runs P.Port runner.now.room (F.pre runner.now.run) (F.post runner.now.run) }
    requires bodies { R.runs bodies.now runner.now.room }
    ensures is { Answers P.Port
        (spec.arms_tried (runner_for do_bodies runner.now.room) at ty.now operand.now arms.now
        otherwise.now (world engine.old)) result
        engine.old engine.new port.old port.new }
    ensures keeps { OnOk result (kept engine.new ≡ kept engine.old) }
{
    let calls = Calls {
        room: runner.room,
        bodies,
    };
    for arm in arms {
        let values = arm.values.as_slice();
        let answer = match_operand(&calls, engine, port, at, ty, from_ref(operand), values)?;
        match truth_of(answer) {
            Ok(true) => return all(runner, engine, port, arm.statements.as_slice()),
            Ok(false) => {}
            Err(end) => return Ok(end),
        }
    }
    not_found(runner, engine, port, at, otherwise)
}

// The arms are tried for the value of the operand.
fn try_value<P: Port, F, R: BodyRunner>(
    runner: &Runner<F>,
    bodies: &R,
    engine: &mut Engine,
    port: &mut P,
    at: Spot,
    operand: &ResolvedExpr,
    arms: &[CaseArm],
    otherwise: &Option<Boxed<Otherwise>>,
) -> Result<Outcome, Stop>
where
    F: Fn(u64, &mut Engine, &mut P, Task<'_>) -> Result<Outcome, Stop>,
    requires room { (world engine.old).steps ≤ runner.now.room }
    requires fits { P.fits (world engine.old).last port.old }
    requires runs { Runs P.Port runner.now.room (F.pre runner.now.run) (F.post runner.now.run) }
    requires bodies { R.runs bodies.now runner.now.room }
    ensures is { Answers P.Port
        (evaluated (runner_for do_bodies runner.now.room) at operand.now (world engine.old)
        (λ v w. spec.arms_tried (runner_for do_bodies runner.now.room) at
        (typing.as_text_type operand.now.typed.ty) v arms.now otherwise.now w)) result
        engine.old engine.new port.old port.new }
    ensures keeps { OnOk result (kept engine.new ≡ kept engine.old) }
{
    let calls = Calls {
        room: runner.room,
        bodies,
    };
    let answer = evaluate(&calls, engine, port, at, operand)?;
    let ty = as_text_type(&operand.typed.ty);
    match value_of(answer) {
        Ok(v) => try_arms(runner, bodies, engine, port, at, &ty, &v, arms, otherwise),
        Err(end) => Ok(end),
    }
}

/// CASE with an operand: the statements of the first arm among whose values it is, or those of
/// ELSE. The operand is read once.
pub fn case_operand<P: Port, F, R: BodyRunner>(
    runner: &Runner<F>,
    bodies: &R,
    engine: &mut Engine,
    port: &mut P,
    at: Spot,
    operand: &Expr,
    arms: &[CaseArm],
    otherwise: &Option<Boxed<Otherwise>>,
) -> Result<Outcome, Stop>
where
    F: Fn(u64, &mut Engine, &mut P, Task<'_>) -> Result<Outcome, Stop>,
    requires room { (world engine.old).steps ≤ runner.now.room }
    requires fits { P.fits (world engine.old).last port.old }
    requires runs { Runs P.Port runner.now.room (F.pre runner.now.run) (F.post runner.now.run) }
    requires bodies { R.runs bodies.now runner.now.room }
    ensures is { Answers P.Port
        (spec.case (runner_for do_bodies runner.now.room) at (Some operand.now) arms.now
        otherwise.now (world engine.old)) result
        engine.old engine.new port.old port.new }
    ensures keeps { OnOk result (kept engine.new ≡ kept engine.old) }
{
    match engine.resolve_expr(at, operand) {
        Ok(e) => try_value(runner, bodies, engine, port, at, e.get(), arms, otherwise),
        Err(ScopeFail::State(state)) => Ok(engine.raise(state, at)),
        Err(ScopeFail::Memory) => Err(Stop::Memory),
    }
}

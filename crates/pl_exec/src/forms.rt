//! The forms of statements, each by the function for it.

ghost use Rattle.std.specs.Prelude.{◌≡◌, ◌≤◌, OnOk};
ghost use Rattle.pl_bodies.specs.declared.statement.StatementKind.{out-StatementKind};
ghost use Rattle.pl_control.specs.pl_engine.Answers.{Answers};
ghost use Rattle.pl_control.specs.pl_engine.Engines.{kept, world};
ghost use Rattle.pl_control.specs.pl_engine.Runs.{Runs};
ghost use Rattle.pl_control.specs.pl_engine.Texts.{do_bodies};
ghost use Rattle.pl_world.specs.Control as control;
ghost use Rattle.pl_world.specs.Statements as spec;
ghost use Rattle.pl_world.specs.Statements.{runner_for};

use crate::simple::run_simple;
use pl_base::{Boxed, State};
use pl_bodies::{CaseArm, Loop, LoopHead, Otherwise, StatementKind};
use pl_control::pl_asking::case_operand;
use pl_control::pl_engine::{BodyRunner, Engine, Port, Runner, Spot, Stop, Task};
use pl_handlers::block;
use pl_handlers::pl_flow::{branches, searched};
use pl_loops::{Numbers, for_numbers, forever, while_true};
use pl_tree::Expr;
use pl_world::Outcome;

// CASE, with an operand or with conditions.
#[inline(never)]
#[tactic(auto, unfolding(pl_world::specs::Control::case))]
fn case<P: Port, F, R: BodyRunner>(
    runner: &Runner<F>,
    bodies: &R,
    engine: &mut Engine,
    port: &mut P,
    at: Spot,
    operand: &Option<Boxed<Expr>>,
    arms: &[CaseArm],
    otherwise: &Option<Boxed<Otherwise>>,
) -> Result<Outcome, Stop>
where
    F: Fn(u64, &mut Engine, &mut P, Task<'_>) -> Result<Outcome, Stop>,
    requires room { (world engine.old).steps ≤ runner.now.room }
    requires fits { P.fits (world engine.old).last port.old }
    requires runs { Runs P.Port runner.now.room (F.pre runner.now.run) (F.post runner.now.run) }
    requires bodies { R.runs bodies.now runner.now.room }
    ensures is { Answers P.Port
        (control.case (runner_for do_bodies runner.now.room) at operand.now arms.now otherwise.now
        (world engine.old)) result
        engine.old engine.new port.old port.new }
    ensures keeps { OnOk result (kept engine.new ≡ kept engine.old) }
{
    match operand {
        Some(e) => case_operand(runner, bodies, engine, port, at, e.get(), arms, otherwise),
        None => searched(runner, engine, port, at, arms, otherwise),
    }
}

// A loop. 0A000 where it goes over rows or a cursor.
#[inline(never)]
#[tactic(auto, unfolding(pl_world::specs::Statements::loop_form))]
fn run_loop<P: Port, F>(
    runner: &Runner<F>,
    engine: &mut Engine,
    port: &mut P,
    at: Spot,
    l: &Loop,
) -> Result<Outcome, Stop>
where
    F: Fn(u64, &mut Engine, &mut P, Task<'_>) -> Result<Outcome, Stop>,
    requires room { (world engine.old).steps ≤ runner.now.room }
    requires fits { P.fits (world engine.old).last port.old }
    requires runs { Runs P.Port runner.now.room (F.pre runner.now.run) (F.post runner.now.run) }
    ensures is { Answers P.Port
        (spec.one_loop (runner_for do_bodies runner.now.room) at l.now (world engine.old)) result
        engine.old engine.new port.old port.new }
    ensures keeps { OnOk result (kept engine.new ≡ kept engine.old) }
{
    let statements = l.statements.as_slice();
    match &l.head {
        LoopHead::Forever => forever(runner, engine, port, at, &l.label, statements),
        LoopHead::While(e) => while_true(runner, engine, port, at, &l.label, e, statements),
        LoopHead::Range {
            variable,
            is_reverse,
            first,
            last,
            step,
        } => {
            let numbers = Numbers {
                label: l.label,
                variable: *variable,
                is_reverse: *is_reverse,
                first,
                last,
                step,
                body: statements,
            };
            for_numbers(runner, engine, port, at, &numbers)
        }
        LoopHead::Rows { .. } | LoopHead::Cursor { .. } => {
            Ok(engine.raise(State::FEATURE_NOT_SUPPORTED, at))
        }
    }
}

/// What a statement does behind its step.
#[tactic(auto, unfolding(pl_world::specs::Statements::form))]
pub(crate) fn form<P: Port, F, R: BodyRunner>(
    runner: &Runner<F>,
    bodies: &R,
    engine: &mut Engine,
    port: &mut P,
    at: Spot,
    kind: &StatementKind,
) -> Result<Outcome, Stop>
where
    F: Fn(u64, &mut Engine, &mut P, Task<'_>) -> Result<Outcome, Stop>,
    requires room { (world engine.old).steps ≤ runner.now.room }
    requires fits { P.fits (world engine.old).last port.old }
    requires runs { Runs P.Port runner.now.room (F.pre runner.now.run) (F.post runner.now.run) }
    requires bodies { R.runs bodies.now runner.now.room }
    ensures is { Answers P.Port
        (spec.form (runner_for do_bodies runner.now.room) at (out-StatementKind kind.now)
        (world engine.old)) result
        engine.old engine.new port.old port.new }
    ensures keeps { OnOk result (kept engine.new ≡ kept engine.old) }
{
    match kind {
        StatementKind::Block(b) => block(runner, engine, port, at, b),
        StatementKind::If {
            branches: all,
            otherwise,
        } => branches(runner, engine, port, at, all.as_slice(), otherwise),
        StatementKind::Case {
            operand,
            arms,
            otherwise,
        } => {
            let arms = arms.as_slice();
            case(runner, bodies, engine, port, at, operand, arms, otherwise)
        }
        StatementKind::Loop(l) => run_loop(runner, engine, port, at, l),
        StatementKind::Simple(s) => run_simple(runner, bodies, engine, port, at, s),
    }
}

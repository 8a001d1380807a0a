//! Statements that hold no other, each by the function for it.

ghost use Rattle.std.specs.Prelude.{◌≡◌, ◌≤◌, OnOk};
ghost use Rattle.pl_control.specs.pl_engine.Answers.{Answers};
ghost use Rattle.pl_control.specs.pl_engine.Engines.{kept, world};
ghost use Rattle.pl_control.specs.pl_engine.Runs.{Runs};
ghost use Rattle.pl_control.specs.pl_engine.Texts.{do_bodies};
ghost use Rattle.pl_world.specs.Statements as spec;
ghost use Rattle.pl_world.specs.Statements.{runner_for};

use crate::commands::command;
use pl_altering::alter;
use pl_altering::pl_querying::{perform, run_query};
use pl_base::State;
use pl_bodies::Simple;
use pl_control::pl_asking::{assign, diagnose, returns};
use pl_control::pl_engine::{BodyRunner, Calls, Engine, Port, Runner, Spot, Stop, Task};
use pl_control::{commit, roll_back};
use pl_handlers::pl_flow::jump;
use pl_raise::{again, assert, diagnose_stacked, raise};
use pl_world::Outcome;

/// A statement that holds no other. 0A000 where it is a form that a later part of the language
/// brings.
#[inline(never)]
#[tactic(auto, unfolding(pl_world::specs::Statements::simple_form))]
pub(crate) fn run_simple<P: Port, F, R: BodyRunner>(
    runner: &Runner<F>,
    bodies: &R,
    engine: &mut Engine,
    port: &mut P,
    at: Spot,
    s: &Simple,
) -> Result<Outcome, Stop>
where
    F: Fn(u64, &mut Engine, &mut P, Task<'_>) -> Result<Outcome, Stop>,
    requires room { (world engine.old).steps ≤ runner.now.room }
    requires fits { P.fits (world engine.old).last port.old }
    requires runs { Runs P.Port runner.now.room (F.pre runner.now.run) (F.post runner.now.run) }
    requires bodies { R.runs bodies.now runner.now.room }
    ensures is { Answers P.Port
        (spec.simple_form (runner_for do_bodies runner.now.room) at s.now (world engine.old)) result
        engine.old engine.new port.old port.new }
    ensures keeps { OnOk result (kept engine.new ≡ kept engine.old) }
{
    let calls = Calls {
        room: runner.room,
        bodies,
    };
    match s {
        Simple::Assign { target, value } => assign(&calls, engine, port, at, target, value),
        Simple::Null => Ok(Outcome::Next),
        Simple::Commit => commit(engine, port, at),
        Simple::Rollback => Ok(roll_back(engine, at)),
        Simple::Perform(query) => perform(&calls, engine, port, at, query),
        Simple::Query { query, into } => run_query(&calls, engine, port, at, query, into),
        Simple::Change { change, into } => alter(&calls, engine, port, at, change, into),
        Simple::Command(c) => command(runner, bodies, engine, port, at, c),
        Simple::Jump {
            jump: to,
            label,
            condition,
        } => jump(runner, engine, port, at, *to, *label, condition),
        Simple::Return(value) => returns(&calls, engine, port, at, value),
        Simple::RaiseAgain => Ok(again(engine, at)?),
        Simple::Raise(x) => raise(&calls, engine, port, at, x),
        Simple::Assert { condition, message } => {
            assert(&calls, engine, port, at, condition, message)
        }
        Simple::GetDiagnostics(targets) => Ok(diagnose(engine, at, targets.as_slice())?),
        Simple::GetStackedDiagnostics(targets) => {
            Ok(diagnose_stacked(engine, at, targets.as_slice())?)
        }
        Simple::ReturnNext(_)
        | Simple::ReturnQuery(_)
        | Simple::ReturnExecute(_)
        | Simple::Execute { .. }
        | Simple::Open { .. }
        | Simple::Fetch { .. }
        | Simple::Move { .. }
        | Simple::Close(_) => Ok(engine.raise(State::FEATURE_NOT_SUPPORTED, at)),
    }
}

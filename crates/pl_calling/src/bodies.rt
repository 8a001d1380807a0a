//! Calls of functions: PostgreSQL manual, "PL/pgSQL", "Returning from a Function".

ghost use Rattle.std.specs.Prelude.{◌≡◌, ◌≤◌, false, IfOk, OnOk};
ghost use Rattle.pl_calling.specs.Called.{IsCallee};
ghost use Rattle.pl_engine.specs.Answers.{Done};
ghost use Rattle.pl_engine.specs.Engines.{Quiet, kept, world};
ghost use Rattle.pl_engine.specs.Texts.{do_bodies};
ghost use Rattle.pl_engine.specs.pl_world.Calls as spec;
ghost use Rattle.pl_engine.specs.pl_world.Running.{body};
ghost use Rattle.pl_engine.specs.pl_world.Statements.{run_within, runner_for};
ghost use Rattle.pl_engine.specs.pl_world.World.{and_then};
ghost use Rattle.pl_engine.specs.pl_world.declared.outcome.Outcome.TheVariants as outcome;

use crate::callee::{Found, find};
use crate::converting::as_type;
use pl_base::{List, Memory, Name, State, Txt, Ty, Value};
use pl_engine::pl_world::Outcome;
use pl_engine::{BodyRunner, Engine, Held, Port, Spot, Stop};

/// So many calls run at the most.
pub const MOST_CALLS: usize = 64;

// What a function without a result gives.
pub(crate) fn void(engine: &Engine) -> Value
    ensures { result ≡ spec.void }
{
    Value::Text(Txt::from_vec(Vec::new(engine.alloc())))
}

// What RETURN gives, as one of the result's type.
fn returned(engine: &Engine, ty: Option<Ty>, at: Spot, v: &Value) -> Result<Outcome, Memory>
    ensures { IfOk result (λ o. Quiet
        (spec.given ty (outcome.Return v.now) at (world engine.now)) o engine.now engine.now) }
{
    match ty {
        None => Ok(Outcome::Return(void(engine))),
        Some(ty) => as_type(engine, at, v, ty),
    }
}

// There was no RETURN.
fn not_returned(engine: &Engine, ty: Option<Ty>, at: Spot) -> Outcome
    ensures { Quiet (spec.given ty outcome.Next at (world engine.now)) result
        engine.now engine.now }
{
    match ty {
        None => Outcome::Return(void(engine)),
        Some(_) => engine.raise(State::FUNCTION_EXECUTED_NO_RETURN_STATEMENT, at),
    }
}

/// What a body gives that has ended so.
#[tactic(auto, using(crate::proofs::Entered::given_exit, crate::proofs::Entered::given_continue))]
pub fn given(engine: &Engine, ty: Option<Ty>, at: Spot, end: Outcome) -> Result<Outcome, Memory>
    ensures { IfOk result (λ o. Quiet (spec.given ty end at (world engine.now)) o
        engine.now engine.now) }
{
    match end {
        Outcome::Fail(f) => Ok(Outcome::Fail(f)),
        Outcome::Return(v) => returned(engine, ty, at, &v),
        Outcome::Next => Ok(not_returned(engine, ty, at)),
        Outcome::Exit(_) => Ok(not_returned(engine, ty, at)),
        Outcome::Continue(_) => Ok(not_returned(engine, ty, at)),
    }
}

// The body runs in a call of its own.
fn run_found<R: BodyRunner>(
    bodies: &R,
    room: u64,
    engine: &mut Engine,
    held: &mut Held,
    found: Found,
    values: List<Value>,
) -> Result<Outcome, Stop>
    requires can { R.runs bodies.now room }
    requires room { (world engine.old).steps ≤ room }
    ensures is { (c : spec.Callee) → IsCallee false found c → IfOk result (λ o. Done ⟦<Held as Port>⟧
        (and_then (run_within do_bodies room (body c.body)
        (spec.entered c values (world engine.old))) (spec.left c)) o
        engine.old engine.new held.old held.new) }
    ensures keeps { OnOk result (kept engine.new ≡ kept engine.old) }
{
    let Found {
        routine,
        declared,
        result: ty,
        body,
    } = found;
    engine.enter(routine, false, declared, values)?;
    let lent = body.get();
    let end = bodies.run_body(room, engine, held, lent)?;
    let at = Spot {
        line: lent.line,
        ordinal: 0,
    };
    let end = given(&*engine, ty, at, end)?;
    engine.leave();
    Ok(end)
}

/// The function of this name is called with these values.
pub(crate) fn call_function<R: BodyRunner>(
    bodies: &R,
    room: u64,
    engine: &mut Engine,
    held: &mut Held,
    at: Spot,
    name: Name,
    values: List<Value>,
) -> Result<Outcome, Stop>
    requires can { R.runs bodies.now room }
    requires room { (world engine.old).steps ≤ room }
    ensures is { IfOk result (λ o. Done ⟦<Held as Port>⟧
        (spec.called_by_name (runner_for do_bodies room) at false name values
        (world engine.old)) o engine.old engine.new held.old held.new) }
    ensures keeps { OnOk result (kept engine.new ≡ kept engine.old) }
{
    match find(&*engine, false, name, values.as_slice())? {
        None => Ok(engine.raise(State::INTERNAL_ERROR, at)),
        Some(found) => {
            if engine.calls() < MOST_CALLS {
                run_found(bodies, room, engine, held, found, values)
            } else {
                Ok(engine.raise(State::STATEMENT_TOO_COMPLEX, at))
            }
        }
    }
}

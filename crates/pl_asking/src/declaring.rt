//! Declarations: PostgreSQL manual, "PL/pgSQL", "Declarations".

ghost use Rattle.std.specs.Prelude.{◌≡◌, ◌≤◌, IfOk, OnOk};
ghost use Rattle.pl_calling.specs.pl_engine.Answers.{Answers};
ghost use Rattle.pl_calling.specs.pl_engine.Engines.{Quiet, kept, world};
ghost use Rattle.pl_calling.specs.pl_engine.Texts.{do_bodies};
ghost use Rattle.pl_world.specs.Assigning as assigning;
ghost use Rattle.pl_world.specs.Blocks as spec;
ghost use Rattle.pl_world.specs.Conversions.{as_type};
ghost use Rattle.pl_world.specs.Errors.{resolved};
ghost use Rattle.pl_world.specs.Statements.{runner_for};
ghost use Rattle.pl_world.specs.Variables as variables;

use crate::answers::value_of;
use crate::converting::raise_in_run;
use crate::placing::takes;
use crate::resolving::type_of;
use crate::values::default_value;
use pl_base::{Boxed, Memory, Name, State, Ty, Value};
use pl_bodies::{Declaration, DeclarationKind};
use pl_calc::CalcFail;
use pl_calling::convert;
use pl_calling::pl_engine::{BodyRunner, Calls, Engine, Port, Spot, Stop};
use pl_tree::Expr;
use pl_typing::ScopeFail;
use pl_world::Outcome;

// A variable that is to be declared.
#[derive(Clone, Copy)]
struct Fresh {
    name: Name,
    ty: Ty,
    is_required: bool,
}

// The variable is there with a value of its type, if it takes that.
fn add(engine: &mut Engine, at: Spot, fresh: Fresh, v: Value) -> Result<Outcome, Memory>
    ensures is { IfOk result (λ o. Quiet (assigning.kept_if (assigning.takes fresh.is_required v)
        (variables.declared fresh.name fresh.ty fresh.is_required v (world engine.old)) at
        (world engine.old)) o engine.old engine.new) }
    ensures keeps { IfOk result (λ o. kept engine.new ≡ kept engine.old) }
{
    if !takes(fresh.is_required, &v) {
        return Ok(engine.raise(State::NULL_VALUE_NOT_ALLOWED, at));
    }
    engine.declare(fresh.name, fresh.ty, fresh.is_required, v)?;
    Ok(Outcome::Next)
}

// The variable is there with a value as one of its type.
fn add_as(engine: &mut Engine, at: Spot, fresh: Fresh, v: &Value) -> Result<Outcome, Memory>
    ensures is { IfOk result (λ o. Quiet (as_type fresh.ty v.now at (world engine.old) (λ v w.
        assigning.kept_if (assigning.takes fresh.is_required v)
        (variables.declared fresh.name fresh.ty fresh.is_required v w) at w)) o
        engine.old engine.new) }
    ensures keeps { IfOk result (λ o. kept engine.new ≡ kept engine.old) }
{
    match convert(engine.alloc(), v, fresh.ty) {
        Ok(v) => add(engine, at, fresh, v),
        Err(fail) => match fail {
            CalcFail::State(state) => Ok(raise_in_run(engine, state, at)),
            CalcFail::Memory => Err(Memory),
        },
    }
}

// The variable is there with its default.
fn add_with<P: Port, R: BodyRunner>(
    calls: &Calls<'_, R>,
    engine: &mut Engine,
    port: &mut P,
    at: Spot,
    fresh: Fresh,
    default: &Option<Boxed<Expr>>,
) -> Result<Outcome, Stop>
    requires room { (world engine.old).steps ≤ calls.now.room }
    requires fits { P.fits (world engine.old).last port.old }
    requires runs { R.runs calls.now.bodies.now calls.now.room }
    ensures is { Answers P.Port
        (resolved (spec.default_means default.now (world engine.old).database.objects
        (world engine.old).frame.static) at (world engine.old) (λ x.
        spec.declares (runner_for do_bodies calls.now.room) at fresh.name fresh.is_required
        (record { ty = fresh.ty; value = x }) (world engine.old))) result
        engine.old engine.new port.old port.new }
    ensures keeps { OnOk result (kept engine.new ≡ kept engine.old) }
{
    let answer = default_value(calls, engine, port, at, default)?;
    match value_of(answer) {
        Ok(v) => Ok(add_as(engine, at, fresh, &v)?),
        Err(end) => Ok(end),
    }
}

/// A variable is declared: its type is resolved, and then its default. Without a default it is
/// null; 22004 where it takes none. 0A000 for a cursor.
pub fn declare<P: Port, R: BodyRunner>(
    calls: &Calls<'_, R>,
    engine: &mut Engine,
    port: &mut P,
    at: Spot,
    d: &Declaration,
) -> Result<Outcome, Stop>
    requires room { (world engine.old).steps ≤ calls.now.room }
    requires fits { P.fits (world engine.old).last port.old }
    requires runs { R.runs calls.now.bodies.now calls.now.room }
    ensures is { Answers P.Port
        (spec.one_declared (runner_for do_bodies calls.now.room) at d.now.name d.now.kind
        (world engine.old)) result
        engine.old engine.new port.old port.new }
    ensures keeps { OnOk result (kept engine.new ≡ kept engine.old) }
{
    match &d.kind {
        DeclarationKind::Variable {
            ty,
            is_not_null,
            default,
            ..
        } => match type_of(engine, ty) {
            Ok(ty) => {
                let fresh = Fresh {
                    name: d.name,
                    ty,
                    is_required: *is_not_null,
                };
                add_with(calls, engine, port, at, fresh, default)
            }
            Err(fail) => match fail {
                ScopeFail::State(state) => Ok(engine.raise(state, at)),
                ScopeFail::Memory => Err(Stop::Memory),
            },
        },
        DeclarationKind::Cursor { .. } => Ok(engine.raise(State::FEATURE_NOT_SUPPORTED, at)),
    }
}

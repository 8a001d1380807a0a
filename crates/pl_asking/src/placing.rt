//! Values that go into variables: PostgreSQL manual, "PL/pgSQL", "Executing a Command with a
//! Single-Row Result", "Obtaining the Result Status".

ghost use Rattle.std.specs.Prelude.{◌≡◌, drop, IfOk};
ghost use Rattle.pl_asking.specs.Values.{first_or_null, put_in};
ghost use Rattle.pl_calling.specs.pl_engine.Engines.{Quiet, kept, world};
ghost use Rattle.pl_world.specs.Assigning as spec;
ghost use Rattle.pl_world.specs.Variables.{with_value};

use crate::converting::raise_in_run;
use crate::resolving::aim;
use crate::variable::Variable;
use pl_base::{Memory, State, Value};
use pl_bodies::Target;
use pl_calc::CalcFail;
use pl_calling::convert;
use pl_calling::pl_engine::{Engine, Spot};
use pl_typing::ScopeFail;
use pl_world::Outcome;

// ---- one variable

/// A variable takes this value.
pub(crate) fn takes(is_required: bool, v: &Value) -> bool
    ensures { result ≡ spec.takes is_required v.now }
{
    !is_required || !matches!(v, Value::Null)
}

// A value of the variable's type goes in, if the variable takes it.
fn keep(engine: &mut Engine, at: Spot, to: Variable, v: Value) -> Outcome
    ensures is { Quiet (spec.kept_if (spec.takes to.is_required v)
        (with_value to.at v (world engine.old)) at (world engine.old)) result
        engine.old engine.new }
    ensures keeps { kept engine.new ≡ kept engine.old }
{
    if !takes(to.is_required, &v) {
        return engine.raise(State::NULL_VALUE_NOT_ALLOWED, at);
    }
    engine.set(to.at, v);
    Outcome::Next
}

/// The value goes in as one of the variable's type.
pub(crate) fn put(engine: &mut Engine, at: Spot, to: Variable, v: &Value) -> Result<Outcome, Memory>
    ensures is { IfOk result (λ o. Quiet (spec.put to v.now at (world engine.old)) o
        engine.old engine.new) }
    ensures keeps { kept engine.new ≡ kept engine.old }
{
    match convert(engine.alloc(), v, to.ty) {
        Ok(v) => Ok(keep(engine, at, to, v)),
        Err(fail) => match fail {
            CalcFail::State(state) => Ok(raise_in_run(engine, state, at)),
            CalcFail::Memory => Err(Memory),
        },
    }
}

// ---- INTO

// The first of the values goes in, or null where there is none.
fn put_first(
    engine: &mut Engine,
    at: Spot,
    to: Variable,
    values: &[Value],
) -> Result<Outcome, Memory>
    ensures is { IfOk result (λ o. Quiet (spec.put to (first_or_null values.now) at
        (world engine.old)) o engine.old engine.new) }
    ensures keeps { kept engine.new ≡ kept engine.old }
{
    match values {
        [v, ..] => put(engine, at, to, v),
        [] => put(engine, at, to, &Value::Null),
    }
}

fn others(values: &[Value]) -> &[Value]
    ensures { result.now ≡ drop 1 values.now }
{
    match values {
        [_, rest @ ..] => rest,
        [] => values,
    }
}

/// INTO: values go into variables from left to right. The variables that are left over become null,
/// further values are dropped.
pub fn put_all(
    engine: &mut Engine,
    at: Spot,
    variables: &[Variable],
    row: &[Value],
) -> Result<Outcome, Memory>
    ensures is { IfOk result (λ o. Quiet (spec.put_all variables.now row.now at
        (world engine.old)) o engine.old engine.new) }
    ensures keeps { IfOk result (λ o. kept engine.new ≡ kept engine.old) }
{
    let mut left = row;
    for variable in variables {
        match put_first(engine, at, *variable, left)? {
            Outcome::Next => {}
            other => return Ok(other),
        }
        left = others(left);
    }
    Ok(Outcome::Next)
}

// ---- GET DIAGNOSTICS

/// A value goes into the variable that a target names.
pub fn put_at(engine: &mut Engine, at: Spot, target: &Target, v: &Value) -> Result<Outcome, Memory>
    ensures is { IfOk result (λ o. Quiet (put_in target.now v.now at (world engine.old)) o
        engine.old engine.new) }
    ensures keeps { kept engine.new ≡ kept engine.old }
{
    match aim(engine, target) {
        Ok(to) => put(engine, at, to, v),
        Err(ScopeFail::State(state)) => Ok(engine.raise(state, at)),
        Err(ScopeFail::Memory) => Err(Memory),
    }
}

/// GET DIAGNOSTICS: each target is resolved when it is reached, and is given ROW_COUNT.
pub fn diagnose(engine: &mut Engine, at: Spot, targets: &[Target]) -> Result<Outcome, Memory>
    ensures is { IfOk result (λ o. Quiet (spec.diagnosed targets.now at (world engine.old)) o
        engine.old engine.new) }
    ensures keeps { IfOk result (λ o. kept engine.new ≡ kept engine.old) }
{
    // There is no memory for so many rows.
    let Ok(rows) = i64::try_from(engine.row_count()) else {
        return Err(Memory);
    };
    let count = Value::Big(rows);
    for target in targets {
        match put_at(engine, at, target, &count)? {
            Outcome::Next => {}
            other => return Ok(other),
        }
    }
    Ok(Outcome::Next)
}

//! The texts of values: PostgreSQL manual, "PL/pgSQL", "Errors and Messages".

ghost use Rattle.std.specs.Prelude.{◌≡◌, ◌≤◌, IfOk, OnOk};
ghost use Rattle.pl_base.specs.declared.value.Value.TheVariants.{Null};
ghost use Rattle.pl_asking.specs.pl_engine.Engines.{kept, world};
ghost use Rattle.pl_asking.specs.pl_engine.Texts.{do_bodies};
ghost use Rattle.pl_raise.specs.Finding.{Finds, FindsHere};
ghost use Rattle.pl_raise.specs.Texts as texts;
ghost use Rattle.pl_world.specs.Conversions.{settled};
ghost use Rattle.pl_world.specs.Raising as spec;
ghost use Rattle.pl_world.specs.Statements.{runner_for};

use crate::settling::settle;
use pl_asking::pl_engine::{BodyRunner, Calls, Engine, Port, Spot, Stop};
use pl_asking::{value, value_of};
use pl_base::{Memory, State, Txt, Value};
use pl_calc::TEXT_LIMIT;
use pl_print::text_of;
use pl_tree::Expr;
use pl_world::Outcome;
use std::alloc::{AllocError, Global};

/// What the text of a value is for. It tells what stands for null.
#[derive(Clone, Copy)]
pub(crate) enum Purpose {
    /// What a percent sign stands for: `<NULL>`.
    Argument,
    /// An option of RAISE: nothing stands for null, which is 22004.
    Option,
    /// The message of ASSERT: the one that is said where none is written.
    Assertion,
}

/// What ASSERT says where no message is written.
pub(crate) fn assertion_failed(alloc: Global) -> Result<Txt, AllocError>
    ensures { IfOk result (λ text. text ≡ spec.assertion_failed) }
{
    Txt::from_slice(alloc, b"assertion failed")
}

/// A text that isn't longer than those of values. 54000
pub(crate) fn within_limit(text: Txt) -> Result<Txt, State>
    ensures { result ≡ spec.within_limit text }
{
    if text.len() <= TEXT_LIMIT {
        Ok(text)
    } else {
        Err(State::PROGRAM_LIMIT_EXCEEDED)
    }
}

fn text_of_null(alloc: Global, purpose: Purpose) -> Result<Result<Txt, State>, AllocError>
    ensures { IfOk result (λ text. text ≡ texts.text_for purpose Null) }
{
    match purpose {
        Purpose::Argument => Ok(Ok(Txt::from_slice(alloc, b"<NULL>")?)),
        Purpose::Option => Ok(Err(State::NULL_VALUE_NOT_ALLOWED)),
        Purpose::Assertion => Ok(Ok(assertion_failed(alloc)?)),
    }
}

fn text_for(alloc: Global, purpose: Purpose, v: &Value) -> Result<Result<Txt, State>, Memory>
    ensures { IfOk result (λ text. text ≡ texts.text_for purpose v.now) }
{
    match v {
        Value::Null => Ok(text_of_null(alloc, purpose)?),
        _ => Ok(within_limit(text_of(alloc, v)?)),
    }
}

// The text of a value that was read.
fn text_here(
    engine: &Engine,
    at: Spot,
    purpose: Purpose,
    v: &Value,
) -> Result<Result<Txt, Outcome>, Memory>
    ensures { IfOk result (λ found.
        FindsHere (settled (texts.text_for purpose v.now) at (world engine.now)) found engine.now) }
{
    let text = text_for(engine.alloc(), purpose, v)?;
    Ok(settle(engine, at, text))
}

/// The text of an expression's value, or how the statement ends where it has none.
pub(crate) fn text<P: Port, R: BodyRunner>(
    calls: &Calls<'_, R>,
    engine: &mut Engine,
    port: &mut P,
    at: Spot,
    purpose: Purpose,
    e: &Expr,
) -> Result<Result<Txt, Outcome>, Stop>
    requires room { (world engine.old).steps ≤ calls.now.room }
    requires fits { P.fits (world engine.old).last port.old }
    requires runs { R.runs calls.now.bodies.now calls.now.room }
    ensures is { Finds P.Port
        (spec.texted (runner_for do_bodies calls.now.room) at (texts.text_for purpose) e.now
        (world engine.old)) result
        engine.old engine.new port.old port.new }
    ensures keeps { OnOk result (kept engine.new ≡ kept engine.old) }
{
    let answer = value(calls, engine, port, at, e)?;
    match value_of(answer) {
        Ok(v) => Ok(text_here(engine, at, purpose, &v)?),
        Err(end) => Ok(Err(end)),
    }
}

//! RAISE: PostgreSQL manual, "PL/pgSQL", "Reporting Errors and Messages".

ghost use Rattle.std.specs.Prelude.{◌≡◌, ◌≤◌, ◌∷◌, [], IfOk, OnOk};
ghost use Rattle.pl_bodies.specs.declared.simple.Raised.TheVariants as raised;
ghost use Rattle.pl_asking.specs.pl_engine.Answers.{Answers};
ghost use Rattle.pl_asking.specs.pl_engine.Engines.{kept, world};
ghost use Rattle.pl_asking.specs.pl_engine.Texts.{do_bodies};
ghost use Rattle.pl_raise.specs.Finding.{Finds, FindsHere};
ghost use Rattle.pl_world.specs.Conversions.{settled};
ghost use Rattle.pl_world.specs.Raising as spec;
ghost use Rattle.pl_world.specs.Statements.{runner_for};

use crate::formatting::format;
use crate::reports::Report;
use crate::settling::settle;
use crate::telling::tell;
use crate::texts::{Purpose, text, within_limit};
use pl_asking::pl_engine::{BodyRunner, Calls, Engine, Port, Spot, Stop};
use pl_base::{List, Txt};
use pl_bodies::{Raise, RaiseOption, Raised};
use pl_tree::Expr;
use pl_world::Outcome;
use std::alloc::AllocError;

// ---- what stands before USING

// The text of one more argument, behind those of the arguments before it.
fn read_argument<P: Port, R: BodyRunner>(
    calls: &Calls<'_, R>,
    engine: &mut Engine,
    port: &mut P,
    at: Spot,
    e: &Expr,
    mut texts: List<Txt>,
) -> Result<Result<List<Txt>, Outcome>, Stop>
    requires room { (world engine.old).steps ≤ calls.now.room }
    requires fits { P.fits (world engine.old).last port.old }
    requires runs { R.runs calls.now.bodies.now calls.now.room }
    ensures is { Finds P.Port
        (spec.arguments_told (runner_for do_bodies calls.now.room) at (e.now ∷ []) texts
        (world engine.old)) result
        engine.old engine.new port.old port.new }
    ensures keeps { OnOk result (kept engine.new ≡ kept engine.old) }
{
    let found = text(calls, engine, port, at, Purpose::Argument, e)?;
    match found {
        Ok(text) => {
            texts.push(text)?;
            Ok(Ok(texts))
        }
        Err(end) => Ok(Err(end)),
    }
}

// The texts of the arguments, one after another.
fn read_arguments<P: Port, R: BodyRunner>(
    calls: &Calls<'_, R>,
    engine: &mut Engine,
    port: &mut P,
    at: Spot,
    list: &[Expr],
) -> Result<Result<List<Txt>, Outcome>, Stop>
    requires room { (world engine.old).steps ≤ calls.now.room }
    requires fits { P.fits (world engine.old).last port.old }
    requires runs { R.runs calls.now.bodies.now calls.now.room }
    ensures is { Finds P.Port
        (spec.arguments_told (runner_for do_bodies calls.now.room) at list.now []
        (world engine.old)) result
        engine.old engine.new port.old port.new }
    ensures keeps { OnOk result (kept engine.new ≡ kept engine.old) }
{
    let mut texts = List::new(engine.alloc());
    for e in list {
        let more = read_argument(calls, engine, port, at, e, texts)?;
        texts = match more {
            Ok(texts) => texts,
            Err(end) => return Ok(Err(end)),
        };
    }
    Ok(Ok(texts))
}

// The text whose percent signs stand for these texts.
fn message(
    engine: &Engine,
    at: Spot,
    written: &Txt,
    texts: &[Txt],
) -> Result<Result<Txt, Outcome>, AllocError>
    ensures { IfOk result (λ found.
        FindsHere (settled (spec.within_limit (spec.formatted written.now texts.now)) at
        (world engine.now)) found engine.now) }
{
    let text = format(engine.alloc(), written.as_bytes(), texts)?;
    Ok(settle(engine, at, within_limit(text)))
}

// A text with its arguments.
fn read_message<P: Port, R: BodyRunner>(
    calls: &Calls<'_, R>,
    engine: &mut Engine,
    port: &mut P,
    at: Spot,
    written: &Txt,
    arguments: &[Expr],
) -> Result<Result<Report, Outcome>, Stop>
    requires room { (world engine.old).steps ≤ calls.now.room }
    requires fits { P.fits (world engine.old).last port.old }
    requires runs { R.runs calls.now.bodies.now calls.now.room }
    ensures is { Finds P.Port
        (spec.heading_told (runner_for do_bodies calls.now.room) at
        (raised.Text written.now arguments.now) (world engine.old)) result
        engine.old engine.new port.old port.new }
    ensures keeps { OnOk result (kept engine.new ≡ kept engine.old) }
{
    let found = read_arguments(calls, engine, port, at, arguments)?;
    let texts = match found {
        Ok(texts) => texts,
        Err(end) => return Ok(Err(end)),
    };
    let text = message(engine, at, written, texts.as_slice())?;
    match text {
        Ok(text) => Ok(Ok(Report::with_text(text))),
        Err(end) => Ok(Err(end)),
    }
}

// What stands before USING.
fn read_heading<P: Port, R: BodyRunner>(
    calls: &Calls<'_, R>,
    engine: &mut Engine,
    port: &mut P,
    at: Spot,
    raised: &Raised,
) -> Result<Result<Report, Outcome>, Stop>
    requires room { (world engine.old).steps ≤ calls.now.room }
    requires fits { P.fits (world engine.old).last port.old }
    requires runs { R.runs calls.now.bodies.now calls.now.room }
    ensures is { Finds P.Port
        (spec.heading_told (runner_for do_bodies calls.now.room) at raised.now
        (world engine.old)) result
        engine.old engine.new port.old port.new }
    ensures keeps { OnOk result (kept engine.new ≡ kept engine.old) }
{
    match raised {
        Raised::Text { format, arguments } => {
            read_message(calls, engine, port, at, format, arguments.as_slice())
        }
        Raised::Condition(condition) => {
            let report = Report::of_condition(engine.alloc(), condition)?;
            Ok(settle(engine, at, report))
        }
        Raised::Nothing => Ok(Ok(Report::new())),
    }
}

// ---- options

// One more option, behind what is known before it.
fn read_option<P: Port, R: BodyRunner>(
    calls: &Calls<'_, R>,
    engine: &mut Engine,
    port: &mut P,
    at: Spot,
    option: &RaiseOption,
    report: Report,
) -> Result<Result<Report, Outcome>, Stop>
    requires room { (world engine.old).steps ≤ calls.now.room }
    requires fits { P.fits (world engine.old).last port.old }
    requires runs { R.runs calls.now.bodies.now calls.now.room }
    ensures is { Finds P.Port
        (spec.options_told (runner_for do_bodies calls.now.room) at (option.now ∷ []) report
        (world engine.old)) result
        engine.old engine.new port.old port.new }
    ensures keeps { OnOk result (kept engine.new ≡ kept engine.old) }
{
    let found = text(calls, engine, port, at, Purpose::Option, &option.value)?;
    match found {
        Ok(text) => Ok(settle(engine, at, report.with_option(option.kind, text))),
        Err(end) => Ok(Err(end)),
    }
}

// The options, one after another, behind what is known before them.
fn read_options<P: Port, R: BodyRunner>(
    calls: &Calls<'_, R>,
    engine: &mut Engine,
    port: &mut P,
    at: Spot,
    list: &[RaiseOption],
    first: Report,
) -> Result<Result<Report, Outcome>, Stop>
    requires room { (world engine.old).steps ≤ calls.now.room }
    requires fits { P.fits (world engine.old).last port.old }
    requires runs { R.runs calls.now.bodies.now calls.now.room }
    ensures is { Finds P.Port
        (spec.options_told (runner_for do_bodies calls.now.room) at list.now first
        (world engine.old)) result
        engine.old engine.new port.old port.new }
    ensures keeps { OnOk result (kept engine.new ≡ kept engine.old) }
{
    let mut report = first;
    for option in list {
        let more = read_option(calls, engine, port, at, option, report)?;
        report = match more {
            Ok(report) => report,
            Err(end) => return Ok(Err(end)),
        };
    }
    Ok(Ok(report))
}

// ---- the statement

/// RAISE with what it raises: what stands before USING is read, then the options, and then it is
/// told. 22004 where an option is null, 42704 where a condition is none, and 54000 where a text is
/// longer than those of values.
pub fn raise<P: Port, R: BodyRunner>(
    calls: &Calls<'_, R>,
    engine: &mut Engine,
    port: &mut P,
    at: Spot,
    x: &Raise,
) -> Result<Outcome, Stop>
    requires room { (world engine.old).steps ≤ calls.now.room }
    requires fits { P.fits (world engine.old).last port.old }
    requires runs { R.runs calls.now.bodies.now calls.now.room }
    ensures is { Answers P.Port
        (spec.raise (runner_for do_bodies calls.now.room) at x.now (world engine.old)) result
        engine.old engine.new port.old port.new }
    ensures keeps { OnOk result (kept engine.new ≡ kept engine.old) }
{
    let found = read_heading(calls, engine, port, at, &x.raised)?;
    let first = match found {
        Ok(first) => first,
        Err(end) => return Ok(end),
    };
    let all = read_options(calls, engine, port, at, x.options.as_slice(), first)?;
    match all {
        Ok(report) => tell(engine, port, at, x.level, report),
        Err(end) => Ok(end),
    }
}

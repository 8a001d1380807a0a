//! What is raised, by its level: PostgreSQL manual, "PL/pgSQL", "Reporting Errors and Messages".

ghost use Rattle.std.specs.Prelude.{◌≡◌, IfOk, unwrap_or};
ghost use Rattle.std.specs.Option.{option_map, option_or};
ghost use Rattle.pl_base.specs.declared.state.State as state;
ghost use Rattle.pl_bodies.specs.declared.simple.Level.TheVariants as level;
ghost use Rattle.pl_asking.specs.pl_engine.Answers.{Answers};
ghost use Rattle.pl_asking.specs.pl_engine.Engines.{Quiet, world};
ghost use Rattle.pl_print.specs.Messages.{notice_bytes};
ghost use Rattle.pl_world.specs.Raising as spec;

use crate::reports::Report;
use pl_asking::pl_engine::{Engine, Port, Spot, Stop, say};
use pl_base::{Bytes, Memory, State, Txt};
use pl_bodies::Level;
use pl_print::{Level as Label, notice};
use pl_world::Outcome;
use std::alloc::{AllocError, Global};

// The code in force, where none was given.
fn default_code(level: Level) -> [u8; 5]
    ensures { result ≡ spec.default_code level }
{
    match level {
        Level::Exception => State::RAISE_EXCEPTION.code,
        Level::Debug | Level::Log | Level::Info | Level::Notice | Level::Warning => *b"00000",
    }
}

fn code(level: Level, given: Option<State>) -> [u8; 5]
    ensures { result
        ≡ unwrap_or (option_map (λ (s : state.State). s.code) given) (spec.default_code level) }
{
    match given {
        Some(state) => state.code,
        None => default_code(level),
    }
}

// What is said: the text, or else the condition as it was written, or else the code in force.
fn said(
    alloc: Global,
    code: &[u8],
    message: Option<Txt>,
    written: Option<Txt>,
) -> Result<Txt, AllocError>
    ensures { IfOk result (λ text. text ≡ unwrap_or (option_or message written) code.now) }
{
    match message.or(written) {
        Some(text) => Ok(text),
        None => Txt::from_slice(alloc, code),
    }
}

// The lines that are printed of what is raised below EXCEPTION.
fn lines(alloc: Global, level: Level, label: Label, report: Report) -> Result<Bytes, Memory>
    ensures { IfOk result (λ lines. lines
        ≡ notice_bytes label (spec.text_of_report level report) report.detail report.hint) }
{
    let Report {
        state,
        written,
        message,
        detail,
        hint,
    } = report;
    let text = said(alloc, &code(level, state), message, written)?;
    notice(alloc, label, &text, detail.as_ref(), hint.as_ref())
}

fn print<P: Port>(
    engine: &Engine,
    port: &mut P,
    level: Level,
    label: Label,
    report: Report,
) -> Result<Outcome, Stop>
    requires fits { P.fits (world engine.now).last port.old }
    ensures { Answers P.Port
        (spec.printed (notice_bytes label (spec.text_of_report level report) report.detail
        report.hint) (world engine.now)) result
        engine.now engine.now port.old port.new }
{
    let lines = lines(engine.alloc(), level, label, report)?;
    say(engine, port, lines.as_slice())
}

// The error that is raised at EXCEPTION.
#[tactic(auto, unfolding(pl_world::specs::Raising::reported))]
fn raise_error(engine: &Engine, at: Spot, report: Report) -> Result<Outcome, AllocError>
    ensures { IfOk result (λ end.
        Quiet (spec.reported level.Exception report at (world engine.now)) end
        engine.now engine.now) }
{
    let Report {
        state,
        written,
        message,
        detail,
        hint,
    } = report;
    let code = code(Level::Exception, state);
    let text = said(engine.alloc(), &code, message, written)?;
    let state = state.unwrap_or(State::RAISE_EXCEPTION);
    Ok(engine.raise_text(state, text, detail, hint, at))
}

/// What is raised: an error at EXCEPTION, lines at WARNING, NOTICE and INFO, and nothing at LOG and
/// DEBUG.
pub(crate) fn tell<P: Port>(
    engine: &Engine,
    port: &mut P,
    at: Spot,
    level: Level,
    report: Report,
) -> Result<Outcome, Stop>
    requires fits { P.fits (world engine.now).last port.old }
    ensures { Answers P.Port (spec.reported level report at (world engine.now)) result
        engine.now engine.now port.old port.new }
{
    match level {
        Level::Debug | Level::Log => Ok(Outcome::Next),
        Level::Info => print(engine, port, level, Label::Info, report),
        Level::Notice => print(engine, port, level, Label::Notice, report),
        Level::Warning => print(engine, port, level, Label::Warning, report),
        Level::Exception => Ok(raise_error(engine, at, report)?),
    }
}

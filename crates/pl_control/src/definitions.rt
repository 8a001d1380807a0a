//! CREATE and DROP: PostgreSQL manual, "CREATE TABLE", "DROP TABLE", "CREATE FUNCTION", "DROP
//! FUNCTION".

ghost use Rattle.std.specs.Prelude.{◌≡◌, IfErr, IfOk, OnOk, Some};
ghost use Rattle.pl_control.specs.Noted.{defined};
ghost use Rattle.pl_engine.specs.Answers.{Answers};
ghost use Rattle.pl_engine.specs.Engines.{kept, world};
ghost use Rattle.pl_engine.specs.declared.stop.Stop.TheVariants.{Memory as WantOfMemory};
ghost use Rattle.pl_reading.specs.Computed.{definition_in};
ghost use Rattle.pl_reading.specs.Defining.{stored_by};
ghost use Rattle.pl_engine.specs.pl_world.Commands.{defines};
ghost use Rattle.pl_engine.specs.pl_world.declared.outcome.Outcome.TheVariants as outcome;

use crate::notices::note;
use pl_base::{Fail, Held, State, Txt};
use pl_codec::is_define_text;
use pl_engine::pl_world::Outcome;
use pl_engine::{Engine, Port, Spot, Stop};
use pl_reading::read_definition;
use pl_tree::Definition;
use pl_typing::ScopeFail;

// Carries out a definition that its text is read as.
fn carry_out<P: Port>(
    engine: &mut Engine,
    port: &mut P,
    at: Spot,
    definition: &Definition,
    text: Txt,
) -> Result<Result<(), Fail>, Stop>
    requires alike { definition_in text ≡ Some definition.now }
    requires fits { P.fits (world engine.old).last port.old }
    ensures is { Answers P.Port (defined at (Some definition.now) text (world engine.old)) result
        engine.old engine.new port.old port.new }
    ensures keeps { OnOk result (kept engine.new ≡ kept engine.old) }
{
    match engine.define(definition, text) {
        Ok(notice) => note(&*engine, port, at, notice),
        Err(ScopeFail::State(state)) => Ok(Err(engine.failure(state, at))),
        Err(ScopeFail::Memory) => Err(Stop::Memory),
    }
}

/// Carries out a definition, which is read from its own text. 0A000 where the text can't be stored,
/// then the definition's first refusal, and 55006 where a running change writes the table.
pub fn define<P: Port>(
    engine: &mut Engine,
    port: &mut P,
    at: Spot,
    definition: &Definition,
    text: Txt,
) -> Result<Result<(), Fail>, Stop>
    requires alike { definition_in text ≡ stored_by definition.now text }
    requires fits { P.fits (world engine.old).last port.old }
    ensures is { Answers P.Port
        (defined at (stored_by definition.now text) text (world engine.old)) result
        engine.old engine.new port.old port.new }
    ensures keeps { OnOk result (kept engine.new ≡ kept engine.old) }
{
    if !is_define_text(text.as_bytes()) {
        return Ok(Err(engine.failure(State::FEATURE_NOT_SUPPORTED, at)));
    }
    carry_out(engine, port, at, definition, text)
}

// The definition that a text is read as, if it is one.
fn define_read<P: Port>(
    engine: &mut Engine,
    port: &mut P,
    at: Spot,
    definition: Option<Held<Definition>>,
    text: Txt,
) -> Result<Result<(), Fail>, Stop>
    requires alike { definition_in text ≡ definition }
    requires fits { P.fits (world engine.old).last port.old }
    ensures is { Answers P.Port (defined at definition text (world engine.old)) result
        engine.old engine.new port.old port.new }
    ensures keeps { OnOk result (kept engine.new ≡ kept engine.old) }
{
    match definition {
        Some(definition) => carry_out(engine, port, at, definition.get(), text),
        None => Ok(Err(engine.failure(State::FEATURE_NOT_SUPPORTED, at))),
    }
}

// What a text is read as, held.
fn read(engine: &Engine, text: &Txt) -> Result<Option<Held<Definition>>, Stop>
    ensures is { IfOk result (λ found. found ≡ definition_in text.now) }
    ensures err { IfErr result (λ stop. stop ≡ WantOfMemory) }
{
    match read_definition(engine.alloc(), text.as_bytes()) {
        Ok(Some(definition)) => Ok(Some(Held::new(definition))),
        Ok(None) => Ok(None),
        Err(_) => Err(Stop::Memory),
    }
}

/// CREATE or DROP as a statement: the text is read when the statement runs.
pub fn define_text<P: Port>(
    engine: &mut Engine,
    port: &mut P,
    at: Spot,
    text: &Txt,
) -> Result<Outcome, Stop>
    requires fits { P.fits (world engine.old).last port.old }
    ensures is { Answers P.Port
        (defines outcome.Fail outcome.Next at (definition_in text.now) text.now
        (world engine.old)) result
        engine.old engine.new port.old port.new }
    ensures keeps { OnOk result (kept engine.new ≡ kept engine.old) }
{
    let definition = read(&*engine, text)?;
    let copy = text.copy(engine.alloc())?;
    match define_read(engine, port, at, definition, copy) {
        Ok(Ok(())) => Ok(Outcome::Next),
        Ok(Err(f)) => Ok(Outcome::Fail(f)),
        Err(stop) => Err(stop),
    }
}

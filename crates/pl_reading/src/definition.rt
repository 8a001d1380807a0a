//! The definition that a stored text is, and the table that it makes.

ghost use Rattle.std.specs.Prelude.{◌≡◌, ◌↔◌, ℕ, Some, IfOk};
ghost use Rattle.pl_lex.specs.Characters.{Text};
ghost use Rattle.pl_lex.specs.Lexemes.{IsNext};
ghost use Rattle.pl_lex.specs.declared.token.Piece.{Piece as OnePiece};
ghost use Rattle.pl_tree.specs.declared.command.Command.TheVariants.{Define};
ghost use Rattle.pl_tree.specs.declared.command.Definition.{Definition as OneDefinition};
ghost use Rattle.pl_reading.specs.Computed as spec;
ghost use Rattle.pl_reading.specs.Definition.{Defines};
ghost use Rattle.pl_reading.specs.Defining as defining;
ghost use Rattle.pl_reading.specs.Reading.{IsPieceRead};
ghost use Rattle.pl_reading.specs.declared.reading.Reading.TheVariants.{Spelled};

use crate::reading::{Reading, read_tokens};
use pl_base::{Memory, Txt};
use pl_codec::is_define_text;
use pl_lex::{LexFail, lex, read_utf8};
use pl_tree::{Command, Definition};
use std::alloc::Global;

// The definition, if this is its own text.
fn if_its_own(text: &[u8], definition: Definition, source: &Txt) -> Option<Definition>
    ensures { result ≡ spec.defined_by text.now (Spelled (Define definition source.now)) }
{
    if source.as_bytes() != text {
        return None;
    }
    Some(definition)
}

fn defined_in(text: &[u8], command: Command) -> Option<Definition>
    ensures { result ≡ spec.defined_by text.now (Spelled command) }
{
    match command {
        Command::Define { definition, source } => if_its_own(text, definition, &source),
        Command::Query(_)
        | Command::Insert(_)
        | Command::Update(_)
        | Command::Delete(_)
        | Command::Do { .. }
        | Command::Call { .. }
        | Command::Begin
        | Command::StartTransaction
        | Command::Commit
        | Command::Rollback
        | Command::Savepoint(_)
        | Command::Release(_)
        | Command::RollbackTo(_) => None,
    }
}

fn defined_by(text: &[u8], reading: Reading) -> Option<Definition>
    ensures { result ≡ spec.defined_by text.now reading }
{
    match reading {
        Reading::Spelled(command) => defined_in(text, command),
        Reading::Nothing => None,
        Reading::Refused(_) => None,
    }
}

/// The definition that a text is, if it is the whole text of one.
pub fn read_definition(alloc: Global, text: &[u8]) -> Result<Option<Definition>, Memory>
    ensures { IfOk result (λ found. found ≡ spec.definition_in text.now) }
{
    if !is_define_text(text) {
        return Ok(None);
    }
    let Ok(script) = read_utf8(text) else {
        return Ok(None);
    };
    let tokens = match lex(alloc, script) {
        Ok(tokens) => tokens,
        Err(LexFail::Bad { .. }) => return Ok(None),
        Err(LexFail::Memory) => return Err(Memory),
    };
    let reading = read_tokens(alloc, &tokens, script)?;
    Ok(defined_by(text, reading))
}

/// A text is a definition exactly where it is computed to be.
pub fn one_definition()
    ensures is { (text : Text) (definition : OneDefinition)
        → Defines text definition ↔ (spec.definition_in text ≡ Some definition) }
{}

/// A definition means by its own text, read by itself, what it means in its script.
pub fn texts_mean_alike()
    ensures is { (text : Text) (from : ℕ) (piece : OnePiece) (x : OneDefinition) (source : Text)
        → IsNext text from (Some piece) → IsPieceRead text piece (Spelled (Define x source))
        → spec.definition_in source ≡ defining.stored_by x source }
{}

//! What the tokens of a command are read as.

ghost use Rattle.std.specs.Prelude.{◌≡◌, ◌≤◌, ◌↔◌, ℕ, length, Some, IfOk};
ghost use Rattle.pl_lex.specs.Characters.{Text};
ghost use Rattle.pl_lex.specs.Lexemes.{StandIn, IsNext, IsPlaced};
ghost use Rattle.pl_lex.specs.declared.token.Piece.{Piece as OnePiece};
ghost use Rattle.pl_reading.specs.Computed.{MeansAlike, reading_of, outcome_reading, piece_reading};
ghost use Rattle.pl_reading.specs.Reading.{IsPieceRead};
ghost use Rattle.pl_reading.specs.declared.reading.Reading.{Reading as OneReading};

use pl_base::{List, Memory, State};
use pl_grammar::ParseFail;
use pl_lex::{Bad, Piece, Token};
use pl_sql_parse::parse_command;
use pl_tree::Command;
use std::alloc::Global;

/// What a piece of a script is read as.
#[derive(Drop)]
pub enum Reading {
    /// There is no command.
    Nothing,
    /// It is refused with this state.
    Refused(State),
    /// It is this command.
    Spelled(Command),
}

/// What the tokens of a command are read as.
pub fn read_tokens(alloc: Global, tokens: &[Token], text: &str) -> Result<Reading, Memory>
    requires placed { (from : ℕ) × (to : ℕ) × (to ≤ length text.now)
        × StandIn text.now from to tokens.now }
    ensures { IfOk result (λ reading. reading ≡ reading_of text.now tokens.now) }
{
    if tokens.is_empty() {
        return Ok(Reading::Nothing);
    }
    match parse_command(alloc, tokens, text) {
        Ok(command) => Ok(Reading::Spelled(command)),
        Err(ParseFail::NotSupported) => Ok(Reading::Refused(State::FEATURE_NOT_SUPPORTED)),
        Err(ParseFail::TooDeep { .. }) => Ok(Reading::Refused(State::STATEMENT_TOO_COMPLEX)),
        Err(ParseFail::Syntax) => Ok(Reading::Refused(State::SYNTAX_ERROR)),
        Err(ParseFail::Memory) => Err(Memory),
    }
}

fn read_outcome(
    alloc: Global,
    outcome: Result<List<Token>, Bad>,
    text: &str,
) -> Result<Reading, Memory>
    requires placed { (from : ℕ) × (end : ℕ) × (end ≤ length text.now)
        × IfOk outcome (λ tokens. StandIn text.now from end tokens) }
    ensures { IfOk result (λ reading. reading ≡ outcome_reading text.now outcome) }
{
    match outcome {
        Ok(tokens) => read_tokens(alloc, tokens.as_slice(), text),
        Err(bad) => Ok(Reading::Refused(bad.state)),
    }
}

/// What a piece of a text is read as, which stands in it from some byte on.
pub fn read_piece(alloc: Global, piece: Piece, text: &str) -> Result<Reading, Memory>
    requires placed { (from : ℕ) × IsPlaced text.now from piece
        × IsNext text.now from (Some piece) }
    ensures read { IfOk result (λ reading. IsPieceRead text.now piece reading) }
    // A definition means by its own text what it means here.
    ensures alike { IfOk result MeansAlike }
{
    read_outcome(alloc, piece.tokens, text)
}

/// Each piece of a text has exactly one reading.
pub fn one_reading()
    ensures is { (text : Text) (piece : OnePiece) (reading : OneReading)
        → IsPieceRead text piece reading ↔ (reading ≡ piece_reading text piece) }
{}

//! A text as commands.

ghost use Rattle.std.specs.Prelude.{ℕ, ◌≡◌, ◌≤◌, ◌&&◌, ◌++◌, List as Items, length, Some, Ok, IfOk};
ghost use Rattle.std.specs.Prelude.{IfSome};
ghost use Rattle.pl_lex.specs.Lexemes as spec;
ghost use Rattle.pl_lex.specs.Characters.{Text};
ghost use Rattle.pl_lex.specs.Lexemes.{Lexemes, IsNext, IsPlaced, Commands, Cuts};
ghost use Rattle.pl_lex.specs.Slices.{slice_of, by_themselves};
ghost use Rattle.pl_lex.specs.declared.token.Token.{Token as OneToken};
ghost use Rattle.pl_lex.specs.declared.token.Piece.{Piece as OnePiece};
ghost use Rattle.pl_lex.specs.Steps.{Gathered};

use crate::lexer::after;
use crate::read::read;
use crate::sign::Sign;
use crate::token::{Bad, LexemeKind, Piece, Token, TokenKind};
use pl_base::{List, Memory};
use std::alloc::Global;

fn is_semicolon(what: &LexemeKind) -> bool
    ensures { result ≡ spec.is_semicolon what.now }
{
    matches!(what, LexemeKind::Read(TokenKind::Sign(Sign::Semicolon)))
}

fn is_skipped(what: &LexemeKind) -> bool
    ensures { result ≡ spec.is_skipped what.now }
{
    matches!(what, LexemeKind::Skipped)
}

fn stays_blank(blank: bool, what: &LexemeKind) -> bool
    ensures { result ≡ (blank && spec.is_skipped what.now) }
{
    if blank { is_skipped(what) } else { false }
}

/// The tokens and the first bad lexeme of a command so far.
#[derive(Drop)]
struct Gathering {
    tokens: List<Token>,
    bad: Option<Bad>,
}

impl Gathering {
    fn gather(&mut self, what: LexemeKind, start: usize, end: usize) -> Result<(), Memory>
        ensures { IfOk result (λ _.
            Gathered what start end self.old.tokens self.old.bad self.new.tokens self.new.bad) }
    {
        match what {
            LexemeKind::Read(kind) => match self.tokens.push(Token { kind, start, end }) {
                Ok(()) => Ok(()),
                Err(_) => Err(Memory),
            },
            LexemeKind::Skipped => Ok(()),
            LexemeKind::Bad(state) => {
                if self.bad.is_none() {
                    self.bad = Some(Bad { at: start, state });
                }
                Ok(())
            }
        }
    }

    fn piece(self, start: usize, end: usize) -> Piece
        ensures { result ≡ spec.piece self.tokens self.bad start end }
    {
        let tokens = match self.bad {
            None => Ok(self.tokens),
            Some(bad) => Err(bad),
        };
        Piece { tokens, start, end }
    }
}

/// The command that begins at the byte `from` of the text, counted from 0: at the text's beginning
/// or behind the `;` of the piece before. None where only blanks and comments are left.
///
/// A bad lexeme does not end the piece: reading goes on behind it, up to the next `;`. The one
/// error is that there was no memory for the tokens.
pub fn cut(alloc: Global, text: &str, from: usize) -> Result<Option<Piece>, Memory>
    requires { from ≤ length text.now }
    ensures next { IfOk result (λ next. IsNext text.now from next) }
    ensures placed { IfOk result (λ next. IfSome next (λ p. IsPlaced text.now from p)) }
{
    let bytes = text.as_bytes();
    let mut gathering = Gathering {
        tokens: List::new(alloc),
        bad: None,
    };
    let mut blank = true;
    let mut at = from;
    let mut rest = after(bytes, from);
    while !rest.is_empty() {
        let (what, len) = match read(alloc, rest) {
            Ok(found) => found,
            Err(_) => return Err(Memory),
        };
        if is_semicolon(&what) {
            return Ok(Some(gathering.piece(from, at)));
        }
        blank = stays_blank(blank, &what);
        match gathering.gather(what, at, at + len) {
            Ok(()) => {}
            Err(fail) => return Err(fail),
        }
        at += len;
        rest = after(rest, len);
    }
    if blank {
        return Ok(None);
    }
    Ok(Some(gathering.piece(from, bytes.len())))
}

/// The commands that `cut` gives, each from the byte behind the `;` of the one before, are those of
/// the whole text.
pub fn commands_join()
    ensures { (text : Text) (pieces : Items OnePiece) →
        Commands pieces text → Cuts text 0 pieces }
{}

/// The text from the first byte of a token of a command to the last byte of a later one, or the
/// same one, has these tokens by itself, with their places counted from its own first byte.
pub fn slices_lex_alike()
    ensures lexed { (text : Text) (from : ℕ) (p : OnePiece) (before these after : Items OneToken) →
        IsNext text from (Some p) → p.tokens ≡ Ok (before ++ (these ++ after)) →
        Lexemes (by_themselves these) (slice_of text these) }
    // These tokens are of the whole of it.
    ensures whole { (text : Text) (from : ℕ) (p : OnePiece) (before these after : Items OneToken) →
        IsNext text from (Some p) → p.tokens ≡ Ok (before ++ (these ++ after)) →
        slice_of (slice_of text these) (by_themselves these) ≡ slice_of text these }
{}

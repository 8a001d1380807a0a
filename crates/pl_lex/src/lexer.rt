//! A whole text as tokens.

ghost use Rattle.std.specs.Prelude.{ℕ, ◌≡◌, ◌≤◌, ◌++◌, length, drop, IfOk, IfErr, List, [], ◌∷◌};
ghost use Rattle.pl_lex.specs.Characters.{Text};
ghost use Rattle.pl_lex.specs.Lexemes.{Lexeme, Stand, Lexemes, StandIn, IsFailure};
ghost use Rattle.pl_lex.specs.Computed.{lexemes};
ghost use Rattle.pl_lex.specs.Steps.{Kept, FailsBy};
ghost use Rattle.pl_lex.specs.declared.token.Token.{Token as OneToken};

use crate::read::read;
use crate::token::{LexemeKind, Token};
use pl_base::State;
use std::alloc::{AllocError, Global};

/// Why a text is not read as tokens.
#[derive(Clone, Copy, Debug)]
pub enum LexFail {
    /// The first bad lexeme: its first byte, counted from 0, and why it is bad.
    Bad { at: usize, state: State },
    /// There was no memory for the tokens.
    Memory,
}

impl From<AllocError> for LexFail {
    ghost use Rattle.std.specs.Prelude.{◌≡◌};
    ghost use Rattle.pl_lex.specs.declared.lexer.LexFail.TheVariants.{Memory};

    ghost from_gives = { λ _ e. e ≡ Memory };

    fn from(_error: AllocError) -> LexFail {
        LexFail::Memory
    }
}

pub fn push(tokens: &mut Vec<Token>, token: Token) -> Result<(), LexFail>
    ensures pushed { IfOk result (λ _. tokens.new.items ≡ tokens.old.items ++ (token ∷ [])) }
    ensures memory { IfErr result (λ e. e ≡ LexFail.Memory) }
{
    match tokens.push(token) {
        Ok(()) => Ok(()),
        Err(_) => Err(LexFail::Memory),
    }
}

/// Keeps a token. A bad lexeme is the failure.
fn keep(tokens: &mut Vec<Token>, what: LexemeKind, start: usize, end: usize) -> Result<(), LexFail>
    ensures kept { IfOk result (λ _. Kept what start end tokens.old.items tokens.new.items) }
    ensures bad { IfErr result (λ e. FailsBy what start e) }
{
    match what {
        LexemeKind::Read(kind) => push(tokens, Token { kind, start, end }),
        LexemeKind::Skipped => Ok(()),
        LexemeKind::Bad(state) => Err(LexFail::Bad { at: start, state }),
    }
}

/// What is left of the text behind its first bytes.
pub fn after(text: &[u8], len: usize) -> &[u8]
    requires { len ≤ length text.now }
    ensures { result.now ≡ drop len text.now }
{
    &text[len..]
}

/// The tokens of a text, in order, or its first bad lexeme.
pub fn lex(alloc: Global, text: &str) -> Result<Vec<Token>, LexFail>
    ensures found { IfOk result (λ v. Lexemes v.items text.now) }
    // No other tokens spell it.
    ensures only { IfOk result (λ v. (other : List OneToken) →
        Lexemes other text.now → other ≡ v.items) }
    ensures placed { IfOk result (λ v. StandIn text.now 0 (length text.now) v.items) }
    // `Bad` is the first bad lexeme of the text.
    ensures bad { IfErr result (λ e. IsFailure e text.now) }
{
    let mut tokens = Vec::new(alloc);
    let mut at = 0;
    let mut rest = text.as_bytes();
    while !rest.is_empty() {
        let (what, len) = match read(alloc, rest) {
            Ok(found) => found,
            Err(_) => return Err(LexFail::Memory),
        };
        match keep(&mut tokens, what, at, at + len) {
            Ok(()) => {}
            Err(fail) => return Err(fail),
        }
        at += len;
        rest = after(rest, len);
    }
    Ok(tokens)
}

/// Each text has exactly one list of lexemes, the one that `lexemes` computes. So there is one
/// answer to `Lexemes`, `IsBad` and `IsNext`.
pub fn one_reading()
    ensures one { (at : ℕ) (xs ys : List Lexeme) (text : Text) →
        Stand at xs text → Stand at ys text → xs ≡ ys }
    ensures computed { (at : ℕ) (text : Text) → Stand at (lexemes at text) text }
{}

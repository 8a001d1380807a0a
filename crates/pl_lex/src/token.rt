//! Tokens, bad lexemes and commands.

ghost use Rattle.std.specs.Prelude.{◌≡◌, ◌↔◌, IsTrue};
ghost use Rattle.pl_lex.specs.declared.token.TokenKind.TheVariants as kind;

use crate::keyword::Keyword;
use crate::sign::Sign;
use pl_base::{List, Name, State, Txt};

/// What a token is, with the value that was read.
#[derive(Drop)]
pub enum TokenKind {
    /// A word that is not reserved, in lower case.
    Word(Name),
    /// A reserved word.
    Keyword(Keyword),
    /// `"name"`, whose letters stay as they are written.
    Quoted(Name),
    /// Decimal digits: at most 9223372036854775808.
    Number(u64),
    /// `'text'`
    Text(Txt),
    /// `E'text'`
    EscapeText(Txt),
    /// `$tag$text$tag$`
    DollarText(Txt),
    /// `$1` to `$65535`
    Parameter(u16),
    Sign(Sign),
}

/// A token. Its places are bytes of the script's text, counted from 0.
#[derive(Drop)]
pub struct Token {
    pub kind: TokenKind,
    /// Its first byte.
    pub start: usize,
    /// The byte behind its last.
    pub end: usize,
}

impl Token {
    /// Whether it is this word, written without quotes in any case. The word is given in lower case
    /// and is no reserved one.
    pub fn is_word(&self, word: &str) -> bool
        ensures { IsTrue result ↔ (self.now.kind ≡ kind.Word word.now) }
    {
        match &self.kind {
            TokenKind::Word(name) => name.as_bytes() == word.as_bytes(),
            _ => false,
        }
    }

    /// Whether it is this reserved word.
    pub fn is_keyword(&self, keyword: Keyword) -> bool
        ensures { IsTrue result ↔ (self.now.kind ≡ kind.Keyword keyword) }
    {
        match &self.kind {
            TokenKind::Keyword(found) => *found == keyword,
            _ => false,
        }
    }

    /// Whether it is this sign.
    pub fn is_sign(&self, sign: Sign) -> bool
        ensures { IsTrue result ↔ (self.now.kind ≡ kind.Sign sign) }
    {
        match &self.kind {
            TokenKind::Sign(found) => *found == sign,
            _ => false,
        }
    }
}

/// What is read at a place of a text.
#[derive(Drop)]
pub enum LexemeKind {
    /// A token.
    Read(TokenKind),
    /// A blank or a comment.
    Skipped,
    /// What is no token, blank or comment, and why.
    Bad(State),
}

/// A bad lexeme.
#[derive(Clone, Copy, Debug)]
pub struct Bad {
    /// Its first byte, counted from 0 in the script's text.
    pub at: usize,
    /// Why it is bad.
    pub state: State,
}

/// A command of a script. Its places are bytes of the script's text, counted from 0.
#[derive(Drop)]
pub struct Piece {
    /// Its tokens, or the first bad lexeme in it.
    pub tokens: Result<List<Token>, Bad>,
    /// Where it was looked for: the text's beginning, or the byte behind the `;` before it.
    pub start: usize,
    /// The place of its `;`, or else the text's length.
    pub end: usize,
}

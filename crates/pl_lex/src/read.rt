//! The lexeme at the front of a text, with its value.

ghost use Rattle.std.specs.Prelude.{◌≡◌, ◌<◌, ◌≤◌, ◌^◌, ◌⊎◌, length, map, IfOk, IfNone, IfSome};
ghost use Rattle.std.specs.Char.{to_ascii_lowercase};
ghost use Rattle.pl_lex.specs.Scan as spec;
ghost use Rattle.pl_lex.specs.Scan.{IsRead, kind_of_word};

use crate::escapes::{has_refused, unescaped};
use crate::keyword::keyword_named;
use crate::quotes::{inner, undoubled, undoubled_len};
use crate::scan::{Shape, scan};
use crate::token::{LexemeKind, TokenKind};
use pl_base::{Name, State, Txt};
use std::alloc::{AllocError, Global};

fn name_or_keyword(word: Name) -> TokenKind
    ensures { result ≡ kind_of_word word }
{
    match keyword_named(word.as_bytes()) {
        None => TokenKind::Word(word),
        Some(keyword) => TokenKind::Keyword(keyword),
    }
}

/// The name in lower case. None where there is none or it is too long.
fn folded(word: &[u8]) -> Option<Name>
    ensures name { IfSome result (λ name. name ≡ map to_ascii_lowercase word.now) }
    ensures none { IfNone result (length word.now ≡ 0 ⊎ 63 < length word.now) }
{
    if word.len() > Name::MAX_LEN {
        return None;
    }
    let mut bytes = [0; Name::MAX_LEN];
    bytes[..word.len()].copy_from_slice(word);
    bytes.make_ascii_lowercase();
    Name::from_bytes(&bytes[..word.len()])
}

fn word(spelling: &[u8]) -> LexemeKind
    requires { 1 ≤ length spelling.now }
    ensures { result ≡ spec.word_meaning spelling.now }
{
    match folded(spelling) {
        Some(name) => LexemeKind::Read(name_or_keyword(name)),
        None => LexemeKind::Bad(State::NAME_TOO_LONG),
    }
}

fn quoted(alloc: Global, contents: &[u8]) -> Result<LexemeKind, AllocError>
    ensures { IfOk result (λ w. w ≡ spec.quoted_meaning contents.now) }
{
    if undoubled_len(b'"', contents) > Name::MAX_LEN {
        return Ok(LexemeKind::Bad(State::NAME_TOO_LONG));
    }
    let name = undoubled(alloc, b'"', contents)?;
    match Name::from_bytes(name.as_bytes()) {
        Some(name) => Ok(LexemeKind::Read(TokenKind::Quoted(name))),
        None => Ok(LexemeKind::Bad(State::SYNTAX_ERROR)),
    }
}

fn escape_text(alloc: Global, contents: &[u8]) -> Result<LexemeKind, AllocError>
    ensures { IfOk result (λ w. w ≡ spec.escape_meaning contents.now) }
{
    if has_refused(contents) {
        return Ok(LexemeKind::Bad(State::FEATURE_NOT_SUPPORTED));
    }
    let text = unescaped(alloc, contents)?;
    Ok(LexemeKind::Read(TokenKind::EscapeText(text)))
}

/// What a lexeme of this shape and spelling is.
fn meaning(alloc: Global, shape: Shape, spelling: &[u8]) -> Result<LexemeKind, AllocError>
    requires { 1 ≤ length spelling.now }
    ensures { IfOk result (λ w. w ≡ spec.meaning shape spelling.now) }
{
    match shape {
        Shape::Skipped => Ok(LexemeKind::Skipped),
        Shape::Word => Ok(word(spelling)),
        Shape::Quoted => quoted(alloc, inner(1, spelling)),
        Shape::Number(n) => Ok(LexemeKind::Read(TokenKind::Number(n))),
        Shape::Text => {
            let text = undoubled(alloc, b'\'', inner(1, spelling))?;
            Ok(LexemeKind::Read(TokenKind::Text(text)))
        }
        Shape::EscapeText => escape_text(alloc, inner(1, &spelling[1..])),
        Shape::DollarText(size) => {
            let text = Txt::from_slice(alloc, inner(size, spelling))?;
            Ok(LexemeKind::Read(TokenKind::DollarText(text)))
        }
        Shape::Parameter(n) => Ok(LexemeKind::Read(TokenKind::Parameter(n))),
        Shape::Sign(sign) => Ok(LexemeKind::Read(TokenKind::Sign(sign))),
        Shape::Bad(state) => Ok(LexemeKind::Bad(state)),
    }
}

/// The lexeme at the front, and its length in bytes.
pub fn read(alloc: Global, text: &[u8]) -> Result<(LexemeKind, usize), AllocError>
    requires { (1 ≤ length text.now) × (length text.now < 2 ^ 63) }
    ensures { IfOk result (λ r. IsRead r.0 r.1 text.now) }
{
    let (shape, len) = scan(text);
    let what = meaning(alloc, shape, &text[..len])?;
    Ok((what, len))
}

//! Texts in which a backslash and a character stand for one character.

ghost use Rattle.std.specs.Prelude.{◌≡◌, ◌<◌, ◌≤◌, ◌+◌, ◌^◌, length, IfOk, IfSome};
ghost use Rattle.pl_lex.specs.Spellings as spelling;
ghost use Rattle.pl_lex.specs.Scan as spec;
ghost use Rattle.pl_lex.specs.declared.escapes.Pending.TheVariants.{Nothing};

use pl_base::Txt;
use std::alloc::{AllocError, Global};

/// What the byte before leaves open.
#[derive(Clone, Copy, Debug)]
pub enum Pending {
    Nothing,
    /// A quote, which closes the text unless another follows.
    Quote,
    /// A backslash, which takes the next byte along.
    Backslash,
}

fn opened_by(b: u8) -> Pending
    ensures { result ≡ spec.opened_by b }
{
    match b {
        b'\'' => Pending::Quote,
        b'\\' => Pending::Backslash,
        _ => Pending::Nothing,
    }
}

/// The place behind the closing quote, where `text` follows an `E` at place 0 and a quote.
pub fn close_escape_text(mut text: &[u8]) -> Option<usize>
    requires { length text.now < 2 ^ 63 }
    ensures value { result ≡ spec.close_escape_text Nothing 2 text.entry.now }
    ensures within { IfSome result (λ end. (3 ≤ end) × (end ≤ length text.entry.now + 2)) }
{
    let mut open = Pending::Nothing;
    let mut at = 2;
    while let [b, rest @ ..] = text {
        open = match open {
            Pending::Nothing => opened_by(*b),
            Pending::Quote if *b != b'\'' => return Some(at),
            Pending::Quote | Pending::Backslash => Pending::Nothing,
        };
        text = rest;
        at += 1;
    }
    match open {
        Pending::Quote => Some(at),
        Pending::Nothing | Pending::Backslash => None,
    }
}

/// Whether a backslash before this character is not read: those of octal, hexadecimal and Unicode
/// values.
fn is_refused(b: u8) -> bool
    ensures { result ≡ spelling.is_refused b }
{
    matches!(b, b'0'..=b'7' | b'x' | b'u' | b'U')
}

/// Whether some backslash stands before a character before which it is not read.
pub fn has_refused(mut text: &[u8]) -> bool
    ensures { result ≡ spec.has_refused Nothing text.entry.now }
{
    let mut open = Pending::Nothing;
    while let [b, rest @ ..] = text {
        open = match open {
            Pending::Nothing => opened_by(*b),
            Pending::Backslash if is_refused(*b) => return true,
            Pending::Quote | Pending::Backslash => Pending::Nothing,
        };
        text = rest;
    }
    false
}

/// What a backslash and this character stand for.
fn escape(b: u8) -> u8
    ensures { result ≡ spelling.escape b }
{
    match b {
        b'b' => 8,
        b'f' => 12,
        b'n' => b'\n',
        b'r' => b'\r',
        b't' => b'\t',
        _ => b,
    }
}

/// The text with one quote for each pair of them, and what each backslash stands for.
pub fn unescaped(alloc: Global, mut text: &[u8]) -> Result<Txt, AllocError>
    ensures { IfOk result (λ t. t ≡ spec.unescaped Nothing text.entry.now) }
{
    let mut bytes = Vec::new(alloc);
    let mut open = Pending::Nothing;
    while let [b, rest @ ..] = text {
        open = match open {
            Pending::Quote => Pending::Nothing,
            Pending::Backslash => {
                bytes.push(escape(*b))?;
                Pending::Nothing
            }
            Pending::Nothing => {
                if *b != b'\\' {
                    bytes.push(*b)?;
                }
                opened_by(*b)
            }
        };
        text = rest;
    }
    Ok(Txt::from_vec(bytes))
}

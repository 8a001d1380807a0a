//! Texts and names between quotes, in which a quote is doubled.

ghost use Rattle.std.specs.Prelude.{◌≡◌, ◌<◌, ◌≤◌, ◌+◌, ◌^◌, length, IfOk, IfSome, false};
ghost use Rattle.pl_lex.specs.Scan as spec;

use pl_base::Txt;
use std::alloc::{AllocError, Global};

/// The place behind the closing quote, where `text` follows the opening one at place 0.
pub fn close_quote(quote: u8, mut text: &[u8]) -> Option<usize>
    requires { length text.now < 2 ^ 63 }
    ensures value { result ≡ spec.close_quote quote false 1 text.entry.now }
    ensures within { IfSome result (λ end. (2 ≤ end) × (end ≤ length text.entry.now + 1)) }
{
    let mut pending = false;
    let mut at = 1;
    while let [b, rest @ ..] = text {
        if pending && *b != quote {
            return Some(at);
        }
        pending = !pending && *b == quote;
        text = rest;
        at += 1;
    }
    if pending { Some(at) } else { None }
}

/// How long the text is without the second quote of each pair.
pub fn undoubled_len(quote: u8, mut text: &[u8]) -> usize
    ensures { result ≡ length (spec.undoubled quote false text.entry.now) }
{
    let mut second = false;
    let mut len = 0;
    while let [b, rest @ ..] = text {
        if !second {
            len += 1;
        }
        second = !second && *b == quote;
        text = rest;
    }
    len
}

/// The text without the second quote of each pair.
pub fn undoubled(alloc: Global, quote: u8, mut text: &[u8]) -> Result<Txt, AllocError>
    ensures { IfOk result (λ t. t ≡ spec.undoubled quote false text.entry.now) }
{
    let mut bytes = Vec::new(alloc);
    let mut second = false;
    while let [b, rest @ ..] = text {
        if second {
            second = false;
        } else {
            bytes.push(*b)?;
            second = *b == quote;
        }
        text = rest;
    }
    Ok(Txt::from_vec(bytes))
}

/// What is left of a spelling without so many bytes at each end.
pub fn inner(size: usize, spelling: &[u8]) -> &[u8]
    ensures { result.now ≡ spec.inner size spelling.now }
{
    if spelling.len() / 2 < size {
        return &spelling[..0];
    }
    &spelling[size..spelling.len() - size]
}

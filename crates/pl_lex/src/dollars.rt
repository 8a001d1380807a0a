//! Texts between two equal marks `$tag$`.

ghost use Rattle.std.specs.Prelude.{◌≡◌, ◌<◌, ◌≤◌, ◌+◌, ◌^◌, length, IfSome, true};
ghost use Rattle.pl_lex.specs.Scan as spec;

use crate::characters::{begins_word, byte, tag_rest_len};

/// How long the tag at the front is.
pub fn tag_len(text: &[u8]) -> usize
    ensures value { result ≡ spec.tag_len text.now }
    ensures within { result ≤ length text.now }
{
    if begins_word(byte(text, 0)) {
        1 + tag_rest_len(&text[1..])
    } else {
        0
    }
}

/// Whether the text begins with the mark.
fn begins(mut mark: &[u8], mut text: &[u8]) -> bool
    ensures value { result ≡ spec.begins mark.entry.now text.entry.now }
    ensures within { result ≡ true → length mark.entry.now ≤ length text.entry.now }
{
    while let [m, ms @ ..] = mark {
        match text {
            [b, bs @ ..] if *m == *b => {
                mark = ms;
                text = bs;
            }
            _ => return false,
        }
    }
    true
}

/// The place where the mark first begins again, where `text` follows it at place 0. A mark has a
/// `$` at its ends alone, so no byte is compared more than twice.
pub fn find_mark(mark: &[u8], mut text: &[u8]) -> Option<usize>
    requires { length mark.now + length text.now < 2 ^ 63 }
    ensures value { result ≡ spec.find_mark mark.now (length mark.now) text.entry.now }
    ensures within { IfSome result (λ at. at ≤ length text.entry.now) }
{
    let mut at = mark.len();
    while let [_, rest @ ..] = text {
        if begins(mark, text) {
            return Some(at);
        }
        text = rest;
        at += 1;
    }
    None
}

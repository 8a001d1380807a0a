//! Comments between `/*` and `*/`, which nest.

ghost use Rattle.std.specs.Prelude.{◌≡◌, ◌<◌, ◌≤◌, ◌+◌, ◌^◌, length, IfSome, false};
ghost use Rattle.pl_lex.specs.Spellings as spelling;
ghost use Rattle.pl_lex.specs.Scan as spec;

use crate::characters::byte;

/// Whether the two are `/*`.
pub fn opens(b: u8, c: u8) -> bool
    ensures { result ≡ spelling.opens b c }
{
    b == b'/' && c == b'*'
}

/// Whether the two are `*/`.
fn closes(b: u8, c: u8) -> bool
    ensures { result ≡ spelling.closes b c }
{
    b == b'*' && c == b'/'
}

/// The place behind the end of the comment, where `text` follows its opening at place 0.
pub fn close_comment(mut text: &[u8]) -> Option<usize>
    requires { length text.now < 2 ^ 63 }
    ensures value { result ≡ spec.close_comment 1 false 2 text.entry.now }
    ensures within { IfSome result (λ end. (4 ≤ end) × (end ≤ length text.entry.now + 2)) }
{
    let mut depth: usize = 1;
    let mut skip = false;
    let mut at = 2;
    while let [b, rest @ ..] = text {
        let next = byte(rest, 0);
        if skip {
            skip = false;
        } else if opens(*b, next) {
            depth += 1;
            skip = true;
        } else if closes(*b, next) {
            if depth <= 1 {
                return Some(at + 2);
            }
            depth -= 1;
            skip = true;
        }
        text = rest;
        at += 1;
    }
    None
}

//! Signs of one character and of two.

ghost use Rattle.std.specs.Prelude.{◌≡◌, None};
ghost use Rattle.pl_lex.specs.Scan as spec;

use crate::sign::Sign;

/// The sign that is these two characters, but for `!=`.
pub fn pair(b: u8, c: u8) -> Option<Sign>
    ensures value { result ≡ spec.pair b c }
    ensures none { c ≡ 0 → result ≡ None }
{
    match (b, c) {
        (b'.', b'.') => Some(Sign::DotDot),
        (b':', b'=') => Some(Sign::Assign),
        (b':', b':') => Some(Sign::Cast),
        (b'=', b'>') => Some(Sign::Arrow),
        (b'<', b'>') => Some(Sign::NotEqual),
        (b'<', b'=') => Some(Sign::LessOrEqual),
        (b'>', b'=') => Some(Sign::GreaterOrEqual),
        (b'<', b'<') => Some(Sign::OpenLabel),
        (b'>', b'>') => Some(Sign::CloseLabel),
        (b'|', b'|') => Some(Sign::Concat),
        _ => None,
    }
}

/// The sign that is this character.
pub fn single(b: u8) -> Option<Sign>
    ensures { result ≡ spec.single b }
{
    match b {
        b'(' => Some(Sign::Open),
        b')' => Some(Sign::Close),
        b',' => Some(Sign::Comma),
        b';' => Some(Sign::Semicolon),
        b'.' => Some(Sign::Dot),
        b':' => Some(Sign::Colon),
        b'=' => Some(Sign::Equal),
        b'<' => Some(Sign::Less),
        b'>' => Some(Sign::Greater),
        b'+' => Some(Sign::Plus),
        b'-' => Some(Sign::Minus),
        b'*' => Some(Sign::Star),
        b'/' => Some(Sign::Slash),
        b'%' => Some(Sign::Percent),
        _ => None,
    }
}

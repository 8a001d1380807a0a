//! What the lexeme at the front of a text is, and where it ends. No memory is taken.

ghost use Rattle.std.specs.Prelude.{◌≡◌, ◌<◌, ◌≤◌, ◌^◌, length, slice_index, true};
ghost use Rattle.std.specs.Char.{is_ascii_digit};
ghost use Rattle.pl_lex.specs.Characters as class;
ghost use Rattle.pl_lex.specs.Spellings as spelling;
ghost use Rattle.pl_lex.specs.Scan as spec;
ghost use Rattle.pl_lex.specs.Scan.{IsFound};

use crate::characters::{begins_word, byte, digits_len, goes_on, is_blank, line_len, word_len};
use crate::comments::{close_comment, opens};
use crate::dollars::{find_mark, tag_len};
use crate::escapes::close_escape_text;
use crate::numbers::number;
use crate::quotes::close_quote;
use crate::sign::Sign;
use crate::signs::{pair, single};
use pl_base::State;

/// What a lexeme is, before a name or a text is read from it.
#[derive(Clone, Copy, Debug, PartialEq, Eq)]
pub enum Shape {
    /// A blank or a comment.
    Skipped,
    Word,
    Quoted,
    Number(u64),
    Text,
    EscapeText,
    /// With the length of its mark in bytes.
    DollarText(usize),
    Parameter(u16),
    Sign(Sign),
    Bad(State),
}

/// A shape, and the lexeme's length in bytes.
pub type Found = (Shape, usize);

fn quoted(text: &[u8]) -> Found
    requires { (1 ≤ length text.now) × (length text.now < 2 ^ 63) }
    ensures value { result ≡ spec.quoted text.now }
    ensures within { IsFound result text.now }
{
    match close_quote(b'"', &text[1..]) {
        None => (Shape::Bad(State::SYNTAX_ERROR), text.len()),
        Some(end) => (Shape::Quoted, end),
    }
}

fn quoted_text(text: &[u8]) -> Found
    requires { (1 ≤ length text.now) × (length text.now < 2 ^ 63) }
    ensures value { result ≡ spec.quoted_text text.now }
    ensures within { IsFound result text.now }
{
    match close_quote(b'\'', &text[1..]) {
        None => (Shape::Bad(State::SYNTAX_ERROR), text.len()),
        Some(end) => (Shape::Text, end),
    }
}

/// Whether an E-text begins with these two.
fn opens_escape_text(b: u8, c: u8) -> bool
    ensures { result ≡ spec.opens_escape_text b c }
{
    (b == b'E' || b == b'e') && c == b'\''
}

fn escape_text(text: &[u8]) -> Found
    requires { (2 ≤ length text.now) × (length text.now < 2 ^ 63) }
    ensures value { result ≡ spec.escape_text text.now }
    ensures within { IsFound result text.now }
{
    match close_escape_text(&text[2..]) {
        None => (Shape::Bad(State::SYNTAX_ERROR), text.len()),
        Some(end) => (Shape::EscapeText, end),
    }
}

fn parameter_shape(digits: &[u8]) -> Shape
    requires { class.every is_ascii_digit digits.now ≡ true }
    ensures { result ≡ spec.parameter_shape (spelling.number digits.now) }
{
    match number(digits) {
        Some(n) if 1 <= n && n <= 65535 => Shape::Parameter(n as u16),
        _ => Shape::Bad(State::SYNTAX_ERROR),
    }
}

fn parameter(text: &[u8]) -> Found
    requires { 1 ≤ length text.now }
    ensures value { result ≡ spec.parameter text.now }
    ensures within { IsFound result text.now }
{
    let digits = &text[1..];
    let len = digits_len(digits);
    if len == 0 {
        return (Shape::Bad(State::SYNTAX_ERROR), 1);
    }
    (parameter_shape(&digits[..len]), len + 1)
}

fn dollar(text: &[u8]) -> Found
    requires { (1 ≤ length text.now) × (length text.now < 2 ^ 63) }
    ensures value { result ≡ spec.dollar text.now }
    ensures within { IsFound result text.now }
{
    let len = tag_len(&text[1..]);
    if byte(text, len + 1) != b'$' {
        return parameter(text);
    }
    match find_mark(&text[..len + 2], &text[len + 2..]) {
        None => (Shape::Bad(State::SYNTAX_ERROR), text.len()),
        Some(at) => (Shape::DollarText(len + 2), at + len + 2),
    }
}

fn word(text: &[u8]) -> Found
    requires { class.begins_word (slice_index text.now 0) ≡ true }
    ensures value { result ≡ spec.word text.now }
    ensures within { IsFound result text.now }
{
    (Shape::Word, word_len(text))
}

fn number_found(text: &[u8]) -> Found
    requires { is_ascii_digit (slice_index text.now 0) ≡ true }
    ensures value { result ≡ spec.number_found text.now }
    ensures within { IsFound result text.now }
{
    let len = digits_len(text);
    let after = &text[len..];
    let next = byte(after, 0);
    if goes_on(next) {
        return (Shape::Bad(State::SYNTAX_ERROR), len + word_len(after));
    }
    if next == b'.' && byte(after, 1) != b'.' {
        let more = digits_len(&after[1..]);
        return (Shape::Bad(State::FEATURE_NOT_SUPPORTED), len + 1 + more);
    }
    match number(&text[..len]) {
        Some(n) => (Shape::Number(n), len),
        None => (Shape::Bad(State::NUMERIC_VALUE_OUT_OF_RANGE), len),
    }
}

fn comment(text: &[u8]) -> Found
    requires { (2 ≤ length text.now) × (length text.now < 2 ^ 63) }
    ensures value { result ≡ spec.comment text.now }
    ensures within { IsFound result text.now }
{
    match close_comment(&text[2..]) {
        None => (Shape::Bad(State::SYNTAX_ERROR), text.len()),
        Some(end) => (Shape::Skipped, end),
    }
}

fn sign(b: u8, c: u8) -> Found
    ensures value { result ≡ spec.sign_found b c }
    ensures within { (1 ≤ result.1) × (result.1 ≤ 2) }
    ensures one { c ≡ 0 → result.1 ≡ 1 }
{
    match (pair(b, c), single(b)) {
        (Some(sign), _) => (Shape::Sign(sign), 2),
        (None, Some(sign)) => (Shape::Sign(sign), 1),
        (None, None) => (Shape::Bad(State::SYNTAX_ERROR), 1),
    }
}

fn punctuation(text: &[u8]) -> Found
    requires { (1 ≤ length text.now) × (length text.now < 2 ^ 63) }
    ensures value { result ≡
        spec.punctuation (slice_index text.now 0) (slice_index text.now 1) text.now }
    ensures within { IsFound result text.now }
{
    let (b, c) = (text[0], byte(text, 1));
    if b == b'-' && c == b'-' {
        (Shape::Skipped, 2 + line_len(&text[2..]))
    } else if opens(b, c) {
        comment(text)
    } else if b == b'.' && c.is_ascii_digit() {
        let more = digits_len(&text[1..]);
        (Shape::Bad(State::FEATURE_NOT_SUPPORTED), 1 + more)
    } else if b == b'!' && c == b'=' {
        (Shape::Sign(Sign::NotEqual), 2)
    } else {
        sign(b, c)
    }
}

/// The shape and the length of the lexeme at the front.
#[tactic(auto, unfolding(crate::specs::Scan::scan))]
pub fn scan(text: &[u8]) -> Found
    requires { (1 ≤ length text.now) × (length text.now < 2 ^ 63) }
    ensures value { result ≡ spec.scan text.now }
    ensures within { IsFound result text.now }
{
    let b = text[0];
    if is_blank(b) {
        (Shape::Skipped, 1)
    } else if opens_escape_text(b, byte(text, 1)) {
        escape_text(text)
    } else if begins_word(b) {
        word(text)
    } else if b.is_ascii_digit() {
        number_found(text)
    } else if b == b'\'' {
        quoted_text(text)
    } else if b == b'"' {
        quoted(text)
    } else if b == b'$' {
        dollar(text)
    } else {
        punctuation(text)
    }
}

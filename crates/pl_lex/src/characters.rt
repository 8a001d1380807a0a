//! Classes of characters, and runs of them. Each byte of a character past ASCII is a word's
//! character.

ghost use Rattle.std.specs.Prelude.{◌≡◌, ◌≢◌, ◌<◌, ◌≤◌, length, take, slice_index, true};
ghost use Rattle.std.specs.List.{prefix_len};
ghost use Rattle.std.specs.Char.{is_ascii_digit};
ghost use Rattle.pl_lex.specs.Characters as class;

/// The byte at a place, or 0 behind the end.
pub fn byte(text: &[u8], at: usize) -> u8
    ensures value { result ≡ slice_index text.now at }
    ensures within { result ≢ 0 → at < length text.now }
{
    if at < text.len() { text[at] } else { 0 }
}

/// Whether it is a space, tab, newline, carriage return or form feed.
pub fn is_blank(b: u8) -> bool
    ensures { result ≡ class.is_blank b }
{
    matches!(b, b' ' | b'\t' | b'\n' | b'\r' | 12)
}

/// Whether a word may begin with it.
pub fn begins_word(b: u8) -> bool
    ensures { result ≡ class.begins_word b }
{
    b.is_ascii_alphabetic() || b == b'_' || b >= 128
}

/// Whether a word may go on with it.
pub fn goes_on(b: u8) -> bool
    ensures { result ≡ class.goes_on b }
{
    begins_word(b) || b.is_ascii_digit() || b == b'$'
}

/// Whether the tag of a dollar text may go on with it.
fn is_of_tag(b: u8) -> bool
    ensures { result ≡ class.is_of_tag b }
{
    begins_word(b) || b.is_ascii_digit()
}

fn is_of_line(b: u8) -> bool
    ensures { result ≡ class.is_of_line b }
{
    b != b'\n' && b != b'\r'
}

/// How many of a word's characters are at the front.
pub fn word_len(text: &[u8]) -> usize
    ensures value { result ≡ prefix_len class.goes_on text.now }
    ensures within { result ≤ length text.now }
{
    text.iter().take_while(|b| goes_on(**b)).count()
}

fn count_digits(text: &[u8]) -> usize
    ensures value { result ≡ prefix_len is_ascii_digit text.now }
    ensures within { result ≤ length text.now }
{
    text.iter().take_while(|b| b.is_ascii_digit()).count()
}

/// How many digits are at the front.
#[tactic(auto, using(crate::proofs::Tools::every_taken))]
pub fn digits_len(text: &[u8]) -> usize
    ensures value { result ≡ prefix_len is_ascii_digit text.now }
    ensures digits { class.every is_ascii_digit (take result text.now) ≡ true }
    ensures within { result ≤ length text.now }
{
    count_digits(text)
}

/// How many bytes are left of the line.
pub fn line_len(text: &[u8]) -> usize
    ensures value { result ≡ prefix_len class.is_of_line text.now }
    ensures within { result ≤ length text.now }
{
    text.iter().take_while(|b| is_of_line(**b)).count()
}

/// How many characters of a tag, behind its first one, are at the front.
pub fn tag_rest_len(text: &[u8]) -> usize
    ensures value { result ≡ prefix_len class.is_of_tag text.now }
    ensures within { result ≤ length text.now }
{
    text.iter().take_while(|b| is_of_tag(**b)).count()
}

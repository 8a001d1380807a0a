//! What the format of a store can hold.

ghost use Rattle.std.specs.Prelude.{◌≡◌, ◌==◌, not};
ghost use Rattle.std.specs.List.{list_all};
ghost use Rattle.std.specs.Str.{is_utf8};
ghost use Rattle.pl_codec.specs.Spelling as spec;

use pl_base::Name;
use std::str;

/// UTF-8 without a zero byte.
pub fn is_text(bytes: &[u8]) -> bool
    ensures { result ≡ spec.is_text bytes.now }
{
    is_utf8(bytes) && has_no_zero(bytes)
}

fn has_no_zero(bytes: &[u8]) -> bool
    ensures { result ≡ list_all (λ b. not (b == 0)) bytes.now }
{
    bytes.iter().all(|b| *b != 0)
}

fn is_utf8(bytes: &[u8]) -> bool
    ensures { result ≡ is_utf8 bytes.now }
{
    match str::from_utf8(bytes) {
        Ok(_) => true,
        Err(_) => false,
    }
}

/// A text whose length has 4 bytes.
pub fn is_define_text(text: &[u8]) -> bool
    ensures { result ≡ spec.is_define_text text.now }
{
    is_text(text) && (text.len() as u64) < 1 << 32
}

/// A name of 1 to 63 bytes that is a text.
pub fn is_table_name(name: &[u8]) -> bool
    ensures { result ≡ spec.is_table_name name.now }
{
    is_text(name) && !name.is_empty() && name.len() <= Name::MAX_LEN
}

//! Bytes as text.

ghost use Rattle.std.specs.Prelude.{◌≡◌, ◌↔◌, IsOk, IfOk, IfErr};
ghost use Rattle.std.specs.Str.{IsUtf8, IsValidUpTo};

use std::str::from_utf8;

/// Why bytes are no text: they are not UTF-8.
#[derive(Clone, Copy, Debug, PartialEq, Eq)]
pub struct NotText {
    /// How many bytes are UTF-8, counted from the front; a character that is cut off is not.
    pub at: usize,
}

/// The bytes as text, exactly where they are UTF-8. No memory is taken.
pub fn read_utf8(bytes: &[u8]) -> Result<&str, NotText>
    ensures exactly { IsOk result ↔ IsUtf8 bytes.now }
    ensures same { IfOk result (λ text. text.now ≡ bytes.now) }
    ensures first { IfErr result (λ e. IsValidUpTo bytes.now e.at) }
{
    match from_utf8(bytes) {
        Ok(text) => Ok(text),
        Err(error) => Err(NotText {
            at: error.valid_up_to(),
        }),
    }
}

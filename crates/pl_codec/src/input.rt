//! The bytes of a payload that are still to be read, and what is taken from their front.

ghost use Rattle.std.specs.Prelude.{◌≡◌, ◌∷◌, ◌++◌, length, IfSome};
ghost use Rattle.std.specs.Int.{to_be_bytes, from_be_bytes, w32, w64};
ghost use Rattle.std.specs.Option.{option_copied};
ghost use Rattle.pl_codec.specs.Spelling.{is_define_text, is_table_name, is_row_id, text_bytes, name_bytes};
ghost use Rattle.pl_codec.specs.Reading.{byte_front, bytes_front, front_32, front_64, row_id_front, text_front, name_front};
ghost use Rattle.pl_codec.specs.Reads.{Reads, Takes};

use crate::storable::{is_table_name, is_text};
use pl_base::Name;
use std::marker::Model;

/// The bytes that are still to be read. Contracts see them.
///
/// Each call takes something from the front, if it stands there. After a call that answers None the
/// input isn't used again.
#[derive(Drop)]
pub struct Input<'a> {
    rest: &'a [u8],
}

impl<'a> Model for Input<'a> {
    ghost use Rattle.std.specs.Prelude.{List, ℕ};

    ghost Value = { List ℕ };

    ghost view = { λ input. input.rest.now };
}

impl<'a> Input<'a> {
    pub fn new(rest: &'a [u8]) -> Input<'a>
        ensures { result ≡ rest.now }
    {
        Input { rest }
    }

    /// How many bytes are left.
    pub fn left(&self) -> usize
        ensures { result ≡ length self.now }
    {
        self.rest.len()
    }

    /// A byte.
    pub fn byte(&mut self) -> Option<u8>
        ensures read { Reads (byte_front self.old) result self.new }
        ensures taken { IfSome result (λ byte. self.old ≡ byte ∷ self.new) }
    {
        let [byte, rest @ ..] = self.rest else {
            return None;
        };
        self.rest = rest;
        Some(*byte)
    }

    // So many bytes.
    #[tactic(auto, unfolding(crate::specs::Reading::bytes_front))]
    fn bytes(&mut self, count: usize) -> Option<&'a [u8]>
        ensures read { Reads (bytes_front count self.old) (option_copied result) self.new }
        ensures size { IfSome (option_copied result) (λ bytes. length bytes ≡ count) }
        ensures taken { IfSome (option_copied result) (λ bytes. self.old ≡ bytes ++ self.new) }
    {
        if self.rest.len() < count {
            return None;
        }
        let bytes = &self.rest[..count];
        self.rest = &self.rest[count..];
        Some(bytes)
    }

    /// A number of 4 bytes.
    #[tactic(auto, unfolding(crate::specs::Reading::front_32))]
    pub fn number_of_32_bits(&mut self) -> Option<u32>
        ensures read { Reads (front_32 self.old) result self.new }
        ensures taken { IfSome result (λ number. self.old ≡ to_be_bytes w32 number ++ self.new) }
    {
        let Some(bytes) = self.bytes(4) else {
            return None;
        };
        Some(number_of_32_bits(bytes))
    }

    /// A number of 8 bytes.
    #[tactic(auto, unfolding(crate::specs::Reading::front_64))]
    pub fn number_of_64_bits(&mut self) -> Option<u64>
        ensures read { Reads (front_64 self.old) result self.new }
        ensures taken { IfSome result (λ number. self.old ≡ to_be_bytes w64 number ++ self.new) }
    {
        let Some(bytes) = self.bytes(8) else {
            return None;
        };
        Some(number_of_64_bits(bytes))
    }

    /// A row id: a number of 8 bytes that isn't 0 and is below 2^63.
    #[tactic(auto, unfolding(crate::specs::Reading::row_id_front))]
    pub fn row_id(&mut self) -> Option<u64>
        ensures read { Reads (row_id_front self.old) result self.new }
        ensures taken { Takes (λ id. to_be_bytes w64 id) is_row_id self.old result self.new }
    {
        let Some(id) = self.number_of_64_bits() else {
            return None;
        };
        if is_row_id(id) { Some(id) } else { None }
    }

    /// A text behind its length.
    #[tactic(auto, unfolding(crate::specs::Reading::text_front))]
    pub fn text(&mut self) -> Option<&'a [u8]>
        ensures read { Reads (text_front self.old) (option_copied result) self.new }
        ensures taken { Takes text_bytes is_define_text self.old (option_copied result) self.new }
    {
        let Some(size) = self.number_of_32_bits() else {
            return None;
        };
        let Some(text) = self.bytes(size as usize) else {
            return None;
        };
        if is_text(text) { Some(text) } else { None }
    }

    /// A name behind its length.
    #[tactic(auto, unfolding(crate::specs::Reading::name_front))]
    pub fn name(&mut self) -> Option<Name>
        ensures read { Reads (name_front self.old) result self.new }
        ensures taken { Takes name_bytes is_table_name self.old result self.new }
    {
        let Some(size) = self.byte() else {
            return None;
        };
        let Some(name) = self.bytes(size as usize) else {
            return None;
        };
        if !is_table_name(name) {
            return None;
        }
        Name::from_bytes(name)
    }
}

fn is_row_id(id: u64) -> bool
    ensures { result ≡ is_row_id id }
{
    0 < id && id < 1 << 63
}

fn number_of_32_bits(bytes: &[u8]) -> u32
    requires { length bytes.now ≡ 4 }
    ensures value { result ≡ from_be_bytes w32 bytes.now }
    ensures bytes { to_be_bytes w32 result ≡ bytes.now }
{
    let mut number = [0; 4];
    number.copy_from_slice(bytes);
    u32::from_be_bytes(number)
}

fn number_of_64_bits(bytes: &[u8]) -> u64
    requires { length bytes.now ≡ 8 }
    ensures value { result ≡ from_be_bytes w64 bytes.now }
    ensures bytes { to_be_bytes w64 result ≡ bytes.now }
{
    let mut number = [0; 8];
    number.copy_from_slice(bytes);
    u64::from_be_bytes(number)
}

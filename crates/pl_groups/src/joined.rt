//! Texts that are joined.

ghost use Rattle.std.specs.Prelude.{◌≡◌, ◌-◌, [], length, take, IfOk, OnOk};
ghost use Rattle.pl_groups.specs.Tallies.{longer, most};

use pl_base::Txt;
use pl_calc::TEXT_LIMIT;
use std::alloc::{AllocError, Global};
use std::marker::Model;

/// How many bytes are kept: one more than a text may have, which tells that it is too long.
const MOST: usize = TEXT_LIMIT + 1;

/// The bytes of texts one behind another, as many of them as decide.
#[derive(Drop)]
pub struct Joined {
    bytes: Vec<u8>,
}

impl Model for Joined {
    ghost use Rattle.std.specs.Prelude.{ℕ, List};

    ghost Value = { List ℕ };

    ghost view = { λ j. j.bytes.items };
}

impl Joined {
    pub fn new(alloc: Global) -> Joined
        ensures { result ≡ [] }
    {
        Joined {
            bytes: Vec::new(alloc),
        }
    }

    pub fn add(&mut self, bytes: &[u8]) -> Result<(), AllocError>
        ensures { OnOk result (self.new ≡ longer self.old bytes.now) }
    {
        add_bytes(&mut self.bytes, bytes)
    }

    /// The text so far.
    pub fn copy(&self, alloc: Global) -> Result<Txt, AllocError>
        ensures { IfOk result (λ text. text ≡ self.now) }
    {
        Txt::from_slice(alloc, self.bytes.as_slice())
    }
}

fn add_bytes(made: &mut Vec<u8>, bytes: &[u8]) -> Result<(), AllocError>
    ensures { OnOk result (made.new.items ≡ longer made.old.items bytes.now) }
{
    let room = room_behind(made.len());
    made.extend_from_slice(first(bytes, room))
}

fn room_behind(length: usize) -> usize
    ensures { result ≡ most - length }
{
    if length < MOST { MOST - length } else { 0 }
}

// At most so many of the bytes.
fn first(bytes: &[u8], count: usize) -> &[u8]
    ensures { result.now ≡ take count bytes.now }
{
    if count < bytes.len() {
        &bytes[..count]
    } else {
        bytes
    }
}

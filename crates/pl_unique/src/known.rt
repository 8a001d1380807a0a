//! Keys and their numbers.

ghost use Rattle.std.specs.Prelude.{◌≡◌, ◌≢◌, ◌∷◌, ◌++◌, ◌↔◌, ℕ, [], Some, length, slice_get};
ghost use Rattle.std.specs.Prelude.{IfOk, OnOk, OnErr};
ghost use Rattle.std.specs.List.{position};
ghost use Rattle.pl_unique.specs.Numbered.{same_key};

use crate::key_parts::{Asked, alone};
use crate::{KeyParts, Part};
use indexmap::IndexSet;
use std::alloc::{AllocError, Global};
use std::marker::Model;

/// Keys, each once, numbered from 0 in the order in which they came.
#[derive(Drop)]
pub(crate) struct Keys {
    set: IndexSet<KeyParts>,
}

impl Model for Keys {
    ghost use Rattle.std.specs.Prelude.{List};
    ghost use Rattle.std.specs.Coded.{codes};
    ghost use Rattle.std.specs.List.{IsDistinct};
    ghost use Rattle.pl_unique.specs.declared.key.Part as key;
    ghost use Rattle.pl_unique.specs.contracts.key.Part as part;
    ghost use Rattle.pl_unique.specs.Numbered.{same_key};

    ghost Value = { List (List key.Part) };

    ghost coded = { Prim.hlevel (codes, part.the_row.coded) };

    ghost view = { λ k. k.set.keys };

    ghost invariant = { λ k. IsDistinct same_key k.set.keys };
}

impl Keys {
    pub(crate) fn new(alloc: Global) -> Keys
        ensures { result ≡ [] }
    {
        Keys {
            set: IndexSet::new(alloc),
        }
    }

    /// The number of this key. None where it isn't there.
    #[inline]
    pub(crate) fn number_of(&self, key: &[Part]) -> Option<usize>
        ensures { (n : _) → (result ≡ Some n) ↔ (slice_get self.now n ≡ Some key.now) }
    {
        match alone(key) {
            Some(number) => self.set.get_index_of(number),
            None => number_by_parts(&self.set, key),
        }
    }

    /// Adds a key that isn't there, and answers its number.
    pub(crate) fn add(&mut self, key: KeyParts) -> Result<usize, AllocError>
        requires absent { (n : ℕ) → slice_get self.old n ≢ Some key }
        ensures number { IfOk result (λ n. n ≡ length self.old) }
        ensures ok { OnOk result (self.new ≡ self.old ++ key ∷ []) }
        ensures err { OnErr result (self.new ≡ self.old) }
    {
        let number = self.set.len();
        self.set.insert(key)?;
        Ok(number)
    }
}

// It stands apart, so that looking up a number alone takes few instructions.
#[inline(never)]
fn number_by_parts(set: &IndexSet<KeyParts>, key: &[Part]) -> Option<usize>
    ensures { result ≡ position (same_key key.now) set.now.keys }
{
    set.get_index_of(Asked { parts: key })
}

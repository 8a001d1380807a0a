//! The parts of a key as a map keeps them.

ghost use Rattle.std.specs.Prelude.{◌≡◌, ◌∷◌, [], IfOk};
ghost use Rattle.std.specs.Cmp.Lexicographic.{lists_equiv};
ghost use Rattle.std.specs.Cmp.{partial_equiv_from_equiv};
ghost use Rattle.pl_unique.specs.contracts.key.PartEq.TheImpl.Laws as equal;
ghost use Rattle.pl_unique.specs.declared.key.Part.TheVariants.{Number};
ghost use Rattle.pl_unique.specs.Fed.{alone, fed_key, number_in};
ghost use Rattle.pl_unique.specs.Key.{key_of};
ghost use Rattle.pl_unique.specs.Numbered.{same_key};
ghost use Rattle.pl_unique.specs.Parts.{fed_alike};

use crate::key::{Part, key_of, part_at};
use indexmap::Equivalent;
use pl_base::Value;
use std::alloc::{AllocError, Global};
use std::hash::{Hash, Hasher};
use std::marker::Model;

// Where the parts stand.
#[derive(Drop)]
pub enum Kept {
    /// A part by itself, which takes no memory of its own.
    One([Part; 1]),
    Several(Vec<Part>),
}

/// The parts of a key.
#[derive(Drop)]
pub struct KeyParts {
    kept: Kept,
}

impl Model for KeyParts {
    ghost use Rattle.std.specs.Prelude.{List};
    ghost use Rattle.std.specs.Coded.{codes};
    ghost use Rattle.pl_unique.specs.declared.key.Part as key;
    ghost use Rattle.pl_unique.specs.contracts.key.Part as part;

    ghost Value = { List key.Part };

    ghost coded = { Prim.hlevel (codes, part.the_row.coded) };

    ghost use Rattle.pl_unique.specs.Kept.{parts_of};

    ghost view = { λ k. parts_of k.kept };
}

impl KeyParts {
    /// The parts in the order of the key's columns.
    pub fn as_slice(&self) -> &[Part]
        ensures { result.now ≡ self.now }
    {
        match &self.kept {
            Kept::One(part) => part,
            Kept::Several(parts) => parts.as_slice(),
        }
    }

    fn one(part: Part) -> KeyParts
        ensures { result ≡ part ∷ [] }
    {
        KeyParts {
            kept: Kept::One([part]),
        }
    }

    fn several(parts: Vec<Part>) -> KeyParts
        ensures { result ≡ parts.items }
    {
        KeyParts {
            kept: Kept::Several(parts),
        }
    }
}

impl PartialEq for KeyParts {
    ghost eq = { same_key };

    ghost laws = { partial_equiv_from_equiv (lists_equiv equal.laws-law) };

    fn eq(&self, other: &KeyParts) -> bool {
        self.as_slice() == other.as_slice()
    }
}

impl Eq for KeyParts {
    ghost laws = { lists_equiv equal.laws-law };
}

impl Hash for KeyParts {
    ghost hash_input = { fed_key };

    ghost respects_eq = { fed_alike };

    fn hash<H: Hasher>(&self, state: &mut H) {
        let asked = Asked {
            parts: self.as_slice(),
        };
        asked.hash(state);
    }
}

/// Parts by which a key is looked up.
#[derive(Clone, Copy, PartialEq, Eq)]
pub(crate) struct Asked<'a> {
    pub parts: &'a [Part],
}

// A number that is alone is hashed as such, which a look-up of a number then does without parts.
impl<'a> Hash for Asked<'a> {
    ghost hash_input = { λ q. fed_key q.parts.now };

    ghost respects_eq = { λ q r. fed_alike q.parts.now r.parts.now };

    fn hash<H: Hasher>(&self, state: &mut H) {
        match alone(self.parts) {
            Some(number) => number.hash(state),
            None => self.parts.hash(state),
        }
    }
}

impl<'a> Equivalent<KeyParts> for Asked<'a> {
    ghost equivalent = { λ q k. same_key q.parts.now k };

    ghost respects_hash = { λ q. fed_alike q.parts.now };

    ghost respects_eq = { λ q x y. (lists_equiv equal.laws-law).congr q.parts.now x y };

    fn equivalent(&self, key: &KeyParts) -> bool {
        self.parts == key.as_slice()
    }
}

/// A number stands for the key that has it alone.
impl Equivalent<KeyParts> for i64 {
    ghost equivalent = { λ q k. same_key (Number q ∷ []) k };

    ghost respects_hash = { λ q. fed_alike (Number q ∷ []) };

    ghost respects_eq = { λ q x y. (lists_equiv equal.laws-law).congr (Number q ∷ []) x y };

    fn equivalent(&self, key: &KeyParts) -> bool {
        match alone(key.as_slice()) {
            Some(number) => *self == number,
            None => false,
        }
    }
}

/// The number of a key that has no other part.
pub(crate) fn alone(parts: &[Part]) -> Option<i64>
    ensures { result ≡ alone parts.now }
{
    match parts {
        [] => None,
        [part] => number_in(part),
        [_, _, ..] => None,
    }
}

fn number_in(part: &Part) -> Option<i64>
    ensures { result ≡ number_in part.now }
{
    match part {
        Part::Number(number) => Some(*number),
        Part::Text(_) | Part::Truth(_) => None,
    }
}

/// The parts of these columns, by their places in the row. None where one is null, is a row or
/// isn't there.
pub(crate) fn parts_of_row(
    alloc: Global,
    columns: &[usize],
    row: &[Value],
) -> Result<Option<KeyParts>, AllocError>
    ensures { IfOk result (λ parts. parts ≡ key_of columns.now row.now) }
{
    if let [column] = columns {
        return part_of_row(alloc, *column, row);
    }
    match key_of(alloc, columns, row)? {
        Some(parts) => Ok(Some(KeyParts::several(parts))),
        None => Ok(None),
    }
}

// The parts of a key of this column alone.
fn part_of_row(alloc: Global, column: usize, row: &[Value]) -> Result<Option<KeyParts>, AllocError>
    ensures { IfOk result (λ parts. parts ≡ key_of (column ∷ []) row.now) }
{
    match part_at(alloc, row, column)? {
        Some(part) => Ok(Some(KeyParts::one(part))),
        None => Ok(None),
    }
}

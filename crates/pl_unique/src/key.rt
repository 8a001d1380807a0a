//! What is compared of a row.

ghost use Rattle.std.specs.Prelude.{◌≡◌, nat_eq, option_map, option_and_then, slice_get, IfOk};
ghost use Rattle.std.specs.Hash as fed;
ghost use Rattle.std.specs.Cmp.Lexicographic.{pointwise, nat_list_eq_equiv};
ghost use Rattle.std.specs.Cmp.{partial_equiv_from_equiv};
ghost use Rattle.std.specs.Cmp.Rules.{hashing};
ghost use Rattle.std.proofs.Common.{rules};
ghost use Rattle.pl_unique.specs.Key.{key_of, part_of};

use pl_base::Value;
use std::alloc::{AllocError, Global};
use std::hash::{Hash, Hasher};
use std::marker::Model;

/// The bytes of a text.
#[derive(Drop)]
pub struct Letters {
    bytes: Vec<u8>,
}

impl Model for Letters {
    ghost use Rattle.std.specs.Prelude.{ℕ, List};

    ghost Value = { List ℕ };

    ghost view = { λ l. l.bytes.items };
}

impl Letters {
    fn from_slice(alloc: Global, bytes: &[u8]) -> Result<Letters, AllocError>
        ensures { IfOk result (λ letters. letters ≡ bytes.now) }
    {
        let bytes = Vec::from_slice(alloc, bytes)?;
        Ok(Letters { bytes })
    }

    fn as_bytes(&self) -> &[u8]
        ensures { result.now ≡ self.now }
    {
        self.bytes.as_slice()
    }
}

impl PartialEq for Letters {
    ghost eq = { pointwise nat_eq };

    ghost laws = { partial_equiv_from_equiv nat_list_eq_equiv };

    fn eq(&self, other: &Letters) -> bool {
        self.as_bytes() == other.as_bytes()
    }
}

impl Eq for Letters {
    ghost laws = { nat_list_eq_equiv };
}

impl Hash for Letters {
    ghost hash_input = { fed.slice fed.u8 };

    ghost respects_eq = { Prim.search (hashing, rules) };

    fn hash<H: Hasher>(&self, state: &mut H) {
        self.as_bytes().hash(state);
    }
}

/// A value as it is compared.
#[derive(Drop, PartialEq, Eq, Hash)]
pub enum Part {
    /// An integer or a bigint.
    Number(i64),
    Text(Letters),
    Truth(bool),
}

/// The parts of these columns, by their places in the row. None where one is null, is a row or
/// isn't there.
pub fn key_of(
    alloc: Global,
    mut columns: &[usize],
    row: &[Value],
) -> Result<Option<Vec<Part>>, AllocError>
    ensures { IfOk result (λ key.
        option_map (λ parts. parts.items) key ≡ key_of columns.entry.now row.now) }
{
    let mut parts = Vec::with_capacity(alloc, columns.len())?;
    while let [column, rest @ ..] = columns {
        let Some(part) = part_at(alloc, row, *column)? else {
            return Ok(None);
        };
        parts.push(part)?;
        columns = rest;
    }
    Ok(Some(parts))
}

pub(crate) fn part_at(
    alloc: Global,
    row: &[Value],
    column: usize,
) -> Result<Option<Part>, AllocError>
    ensures { IfOk result (λ part. part ≡ option_and_then part_of (slice_get row.now column)) }
{
    match row.get(column) {
        None => Ok(None),
        Some(value) => part_of(alloc, value),
    }
}

fn part_of(alloc: Global, value: &Value) -> Result<Option<Part>, AllocError>
    ensures { IfOk result (λ part. part ≡ part_of value.now) }
{
    match value {
        Value::Null | Value::Row(_) => Ok(None),
        Value::Int(number) => Ok(Some(Part::Number(i64::from(*number)))),
        Value::Big(number) => Ok(Some(Part::Number(*number))),
        Value::Text(text) => {
            let letters = Letters::from_slice(alloc, text.as_bytes())?;
            Ok(Some(Part::Text(letters)))
        }
        Value::Bool(truth) => Ok(Some(Part::Truth(*truth))),
    }
}

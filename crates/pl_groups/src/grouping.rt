//! GROUP BY: PostgreSQL manual, "The GROUP BY and HAVING Clauses".

ghost use Rattle.std.specs.Prelude.{◌≡◌, [], ◌∷◌, ◌++◌, length, IfOk, OnOk};
ghost use Rattle.pl_groups.specs.Tallies.{place_in};
ghost use Rattle.pl_keys.specs.Same.{place_of, same, with_row};

use pl_base::{Cells, List, Value};
use pl_keys::Keys;
use std::alloc::{AllocError, Global};
use std::slice::from_ref;

/// The number of the group of a row with this key, from 0, in the order in which the keys first
/// come. `known` has the keys of the groups.
pub fn place_of_row(known: &mut Keys, key: Cells) -> Result<usize, AllocError>
    ensures place { IfOk result (λ place. place ≡ place_in known.old key) }
    ensures known { OnOk result (known.new ≡ with_row (place_of (same key) known.old) known.old
        key) }
{
    let count = known.len();
    match known.find_or_add(key)? {
        Some(place) => Ok(place),
        None => Ok(count),
    }
}

/// The same of a key of one value, which is copied only if its group is new.
pub fn place_of_value(alloc: Global, known: &mut Keys, key: &Value) -> Result<usize, AllocError>
    ensures place { IfOk result (λ place. place ≡ place_in known.old (key.now ∷ [])) }
    ensures known { OnOk result (known.new ≡ with_row (place_of (same (key.now ∷ [])) known.old)
        known.old (key.now ∷ [])) }
{
    match known.find(from_ref(key)) {
        Some(place) => Ok(place),
        None => add_value(alloc, known, key),
    }
}

// Puts a key of one value behind the others.
fn add_value(alloc: Global, known: &mut Keys, key: &Value) -> Result<usize, AllocError>
    ensures place { IfOk result (λ place. place ≡ length known.old) }
    ensures known { OnOk result (known.new ≡ known.old ++ (key.now ∷ []) ∷ []) }
{
    let count = known.len();
    let mut row = List::new(alloc);
    row.push(key.copy(alloc)?)?;
    known.add(row)?;
    Ok(count)
}

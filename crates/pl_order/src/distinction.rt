//! DISTINCT: PostgreSQL manual, "DISTINCT".

ghost use Rattle.std.specs.Prelude.{◌≡◌, IfOk};
ghost use Rattle.pl_keys.specs.Same.{firsts};

use pl_base::Cells;
use pl_keys::Keys;
use std::alloc::{AllocError, Global};

/// The first of rows that are the same stays.
pub fn distinct(alloc: Global, rows: Vec<Cells>) -> Result<Vec<Cells>, AllocError>
    ensures { IfOk result (λ kept. kept.items ≡ firsts rows.items) }
{
    let mut keys = Keys::with_room(alloc, rows.len())?;
    for row in rows {
        keys.find_or_add(row)?;
    }
    Ok(keys.into_rows())
}

//! What SET makes of a row.

ghost use Rattle.std.specs.Prelude.{◌≡◌, slice_set, IfOk};
ghost use Rattle.pl_world.specs.pl_change.Changes.{assigned};

use pl_base::{Cells, Value};
use std::alloc::{AllocError, Global};

/// The row with these values in these columns.
#[tactic(auto, using(crate::proofs::Assigned::no_values))]
pub(crate) fn assign(
    alloc: Global,
    mut columns: &[usize],
    mut values: &[Value],
    row: Cells,
) -> Result<Cells, AllocError>
    ensures { IfOk result (λ made. made ≡ assigned columns.entry.now values.entry.now row) }
{
    let mut made = row;
    while let [column, others @ ..] = columns {
        let [value, more @ ..] = values else {
            return Ok(made);
        };
        set_cell(&mut made, *column, value.copy(alloc)?);
        columns = others;
        values = more;
    }
    Ok(made)
}

// A column that isn't there is left out.
fn set_cell(row: &mut Cells, column: usize, value: Value)
    ensures { row.new ≡ slice_set row.old column value }
{
    if column < row.len() {
        row.set(column, value);
    }
}

//! The ids of the rows that an UPDATE or a DELETE has to visit.

ghost use Rattle.std.specs.Prelude.{◌≡◌, IfOk};
ghost use Rattle.pl_change.specs.Running.{AreEnough, listed};
ghost use Rattle.pl_journal.specs.Sound.{IsSound};
ghost use Rattle.pl_value.specs.Frames.{rows_of};

use crate::Command;
use crate::at_start::ids_of;
use pl_base::Boxed;
use pl_journal::{Candidates, Journal, candidates_for};
use pl_resolved::RExpr;
use std::alloc::{AllocError, Global};

fn list_of(alloc: Global, found: Option<u64>) -> Result<Vec<u64>, AllocError>
    ensures { IfOk result (λ made. made.items ≡ listed found) }
{
    let mut ids = Vec::new(alloc);
    if let Some(id) = found {
        ids.push(id)?;
    }
    Ok(ids)
}

/// The ids of the row of the key that WHERE asks for, if there is one, or of all rows.
pub(crate) fn ids_for<'a>(
    alloc: Global,
    command: &Command<'a>,
    condition: &'a Option<Boxed<RExpr>>,
    journal: &Journal,
) -> Result<Vec<u64>, AllocError>
    requires { IsSound journal.now.now }
    ensures { IfOk result (λ made. AreEnough command.now.change.now.table condition.now
        (rows_of command.now.around.now) journal.now.now.tables made.items) }
{
    let name = command.change.table;
    match candidates_for(alloc, name, condition, &*command.around, journal)? {
        Candidates::All => ids_of(alloc, journal, name),
        Candidates::Only(found) => list_of(alloc, found),
    }
}

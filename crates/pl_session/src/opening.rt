//! The database of a store that is opened, from its batches one by one: so there need be room for
//! the database and for one batch.

ghost use Rattle.std.specs.Prelude.{◌≡◌, ◌<◌, ◌^◌, ◌++◌, ◌∷◌, [], List, IfOk, IfErr};
ghost use Rattle.pl_disk.specs.Disk.{Looks};
ghost use Rattle.pl_keeper.specs.Batches.{Stored};
ghost use Rattle.pl_keeper.specs.Store.{IsReading, stored};
ghost use Rattle.pl_port.specs.Stores.{Stores};
ghost use Rattle.pl_session.specs.Starts.{HasStartCause};
ghost use Rattle.pl_session.specs.Steps.{Reaches};

use crate::halt::StartFail;
use pl_base::Memory;
use pl_disk::Host;
use pl_exec::pl_journal::Journal;
use pl_keeper::{Batch, Keeper, Reader, Step};
use std::alloc::Global;

// Applies one more batch, and answers the place of the first that didn't apply. Behind that one no
// other is tried.
fn apply_next(
    journal: &mut Journal,
    stopped: Option<u64>,
    batch: Batch,
) -> Result<Option<u64>, Memory>
    requires settled { journal.old.last ≡ journal.old.now }
    requires unmarked { journal.old.marks ≡ [] }
    ensures reaches { (list : List Stored) → Reaches list journal.old.now stopped
        → IfOk result (Reaches (list ++ stored batch ∷ []) journal.new.now) }
    ensures settled { journal.new.last ≡ journal.new.now }
    ensures unmarked { journal.new.marks ≡ [] }
{
    let None = stopped else {
        return Ok(stopped);
    };
    let Batch { at, ops } = batch;
    if journal.apply_all(ops)? {
        return Ok(None);
    }
    Ok(Some(at))
}

/// The database that the batches of a store lead to, which is read from its first batch on.
///
/// Its form is judged to the end before `Damaged` comes for a batch that doesn't apply.
pub fn fold<H: Host>(
    alloc: Global,
    host: &mut H,
    reader: Reader,
) -> Result<(Journal, Keeper), StartFail>
    requires attached { (H.view host.old).is_attached }
    requires place { reader.end < 2 ^ 63 }
    requires reading { (H.view host.old).told → IsReading (H.view host.old) reader [] }
    ensures looks { Looks (H.view host.old) (H.view host.new) }
    ensures folded { (H.view host.old).told → IfOk result (λ folded.
        Stores (H.view host.new) folded.1 folded.0.now) }
    ensures settled { IfOk result (λ folded. folded.0.last ≡ folded.0.now) }
    ensures unmarked { IfOk result (λ folded. folded.0.marks ≡ []) }
    ensures cause { IfErr result (HasStartCause (H.view host.old) (H.view host.new)) }
{
    let mut reader = reader;
    let mut journal = Journal::new(alloc);
    let mut stopped = None;
    'batches: loop {
        let step = reader.next(alloc, host)?;
        match step {
            Step::Read { batch, rest } => {
                stopped = apply_next(&mut journal, stopped, batch)?;
                reader = rest;
            }
            Step::End(keeper) => {
                let Some(at) = stopped else {
                    return Ok((journal, keeper));
                };
                let (area, _) = keeper.head();
                return Err(StartFail::Damaged { area, at });
            }
        }
    }
}

//! How a store is kept short.

ghost use Rattle.std.specs.Prelude.{◌≡◌, false, IfErr, OnOk};
ghost use Rattle.pl_disk.specs.Disk.{Writes};
ghost use Rattle.pl_keeper.specs.Checkpoint.{is_due};
ghost use Rattle.pl_port.specs.Stores.{Stores};
ghost use Rattle.pl_session.specs.Steps.{KeepCause, OpensTo};

use crate::halt::Stop;
use pl_disk::Host;
use pl_exec::pl_journal::Journal;
use pl_frames::FrameFail;
use pl_keeper::Keeper;
use std::alloc::Global;

/// Writes the whole database anew into the other area, where that is due.
///
/// `Disk` comes where a call of the disk failed. The store opens to the same database then, and its
/// keeper isn't used again.
pub fn keep_short<H: Host>(
    keeper: &mut Keeper,
    alloc: Global,
    host: &mut H,
    journal: &Journal,
) -> Result<(), Stop>
    requires attached { (H.view host.old).is_attached }
    requires store { (H.view host.old).told
        → Stores (H.view host.old) keeper.old journal.now.now }

    // Nothing is printed, and each image opens to the same database.
    ensures writes { Writes (H.view host.old) (H.view host.new) (OpensTo journal.now.now) }
    ensures store { (H.view host.old).told → OnOk result (
        Stores (H.view host.new) keeper.new journal.now.now) }
    ensures short { OnOk result (is_due keeper.new ≡ false) }
    ensures cause { IfErr result (KeepCause (H.view host.old) (H.view host.new)) }
{
    if !keeper.due() {
        return Ok(());
    }
    let payload = journal.whole()?;
    match keeper.checkpoint(alloc, host, payload.as_slice()) {
        Ok(()) => Ok(()),
        Err(FrameFail::Fault) => Err(Stop::Disk),
        Err(FrameFail::Memory) => Err(Stop::Memory),
        Err(FrameFail::Damaged { .. }) => unreachable!(),
    }
}

//! The keeper of a store, which knows which area counts and where its next frame goes.

ghost use Rattle.std.specs.Prelude.{◌≡◌, ◌<◌, ◌-◌, ◌^◌, true, is_some, IfOk, IfErr, OnOk, OnErr, IsErrOf};
ghost use Rattle.pl_base.specs.Image.{file, other};
ghost use Rattle.pl_codec.specs.Reading.{operations_of};
ghost use Rattle.pl_codec.specs.Spelling.{are_stored};
ghost use Rattle.pl_disk.specs.Disk.{Settled, Untouched, Writes};
ghost use Rattle.pl_frames.specs.Cause.{HasCause, Never};
ghost use Rattle.pl_frames.specs.declared.fail.FrameFail.TheVariants.{Memory};
ghost use Rattle.pl_keeper.specs.Checkpoint.{CheckpointedPayload, CheckpointingPayload, is_due, next_head};
ghost use Rattle.pl_keeper.specs.Reading.{IsMisheaded};
ghost use Rattle.pl_keeper.specs.Store.{Recovering, HasSame, Recovered, IsPlaced, IsUsed};
ghost use Rattle.pl_keeper.specs.Store.{IsSomeStore, Committing, CommittingPayload, Committed};
ghost use Rattle.pl_keeper.specs.Store.{CommittedPayload};

use crate::Reader;
use crate::areas::open_store;
use crate::head::{FIRST_GATE, GROWTH, Head, other};
use pl_base::{Area, Op};
use pl_codec::encode_all;
use pl_disk::Disk;
use pl_frames::{FrameFail, append, close_area, lay_header, open_area};
use std::alloc::Global;
use std::marker::Model;

/// The keeper of a store. Contracts see its head: the area that counts, and the place of its first
/// closed gate, where the next frame goes.
#[derive(Drop)]
pub struct Keeper {
    head: Head,
}

impl Model for Keeper {
    ghost use Rattle.pl_keeper.specs.Store.{IsPlaced};
    ghost use Rattle.pl_keeper.specs.declared.head.Head.{Head};

    ghost Value = { Head };

    ghost view = { λ k. k.head };

    ghost invariant = { λ k. IsPlaced k.head };
}

impl Keeper {
    /// The keeper of a store that was read to its end.
    pub(crate) fn new(head: Head) -> Keeper
        requires { IsPlaced head }
        ensures { result ≡ head }
    {
        Keeper { head }
    }

    /// Opens a store that a crash may have left, to be read from its first batch on. Where both
    /// areas are closed it makes a new store, of no frame.
    ///
    /// `Damaged` comes where the header of an area isn't right; the frames are for the reader to
    /// judge, and whether the operations apply is for the caller. `Fault` comes where a call of the
    /// disk failed.
    pub fn recover<D: Disk>(alloc: Global, disk: &mut D) -> Result<Reader, FrameFail>
        requires attached { (D.view disk.old).is_attached }
        // Each image is one from before, or has the batches that are read.
        ensures writes { Writes (D.view disk.old) (D.view disk.new) (Recovering (D.view disk.old)) }

        // From the first sync on, if it succeeds, each image has the batches that are read.
        ensures settled { (D.view disk.old).told →
            Settled (D.view disk.old) (D.view disk.new) (HasSame (D.view disk.old)) }

        // The batches to be read are those of the files from before, and nothing is pending.
        ensures recovered { (D.view disk.old).told →
            IfOk result (Recovered (D.view disk.old) (D.view disk.new)) }
        ensures place { IfOk result (λ reader. reader.end < 2 ^ 63) }
        ensures cause { IfErr result (
            HasCause (IsMisheaded (D.view disk.old)) (D.view disk.old) (D.view disk.new)) }

        // A store whose headers are damaged stays as it is, and so does every one that isn't new.
        // Area B always does.
        ensures untouched { (D.view disk.old).told → IsUsed (D.view disk.old).seen
            → Untouched (D.view disk.old) (D.view disk.new) }
        ensures area_b { (D.view disk.old).told →
            (D.view disk.new).seen.b ≡ (D.view disk.old).seen.b }
    {
        disk.sync()?;
        let head = open_store(alloc, disk)?;
        Ok(Reader::new(head))
    }

    /// The area that counts, and the place of its first closed gate, as a byte of its file counted
    /// from 0.
    pub fn head(&self) -> (Area, u64)
        ensures area { result.0 ≡ self.now.area }
        ensures place { result.1 ≡ self.now.end }
        ensures bound { self.now.end < 2 ^ 63 }
    {
        (self.head.area, self.head.end)
    }

    /// Puts the operations of a commit behind the others. After `Fault`, which comes where a call
    /// of the disk failed, all of them are stored or none is. `Memory` comes before anything is
    /// done, and `Damaged` never.
    pub fn commit<D: Disk>(
        &mut self,
        alloc: Global,
        disk: &mut D,
        ops: &[Op],
    ) -> Result<(), FrameFail>
        requires attached { (D.view disk.old).is_attached }
        requires spelling { are_stored ops.now ≡ true }
        requires store { (D.view disk.old).told → IsSomeStore (D.view disk.old) self.old }

        // Each image has the batches from before, or those and the new one.
        ensures writes { Writes (D.view disk.old) (D.view disk.new)
            (Committing (D.view disk.old) self.old ops.now) }

        // Once it answered, every crash leaves a store with the new batch.
        ensures committed { (D.view disk.old).told → OnOk result (
            Committed (D.view disk.old) (D.view disk.new) self.old self.new ops.now) }
        ensures cause { IfErr result (HasCause Never (D.view disk.old) (D.view disk.new)) }
        ensures nothing_done { IsErrOf result Memory → disk.new ≡ disk.old }
        ensures kept { OnErr result (self.new ≡ self.old) }

        // The other area is left as it is, and doesn't count from now on either.
        ensures area { self.new.area ≡ self.old.area }
        ensures rest { (D.view disk.old).told → file (other self.old.area) (D.view disk.new).seen
            ≡ file (other self.old.area) (D.view disk.old).seen }
    {
        let payload = encode_all(alloc, ops)?;
        self.commit_payload(alloc, disk, payload.as_slice())
    }

    /// The same of operations that are encoded already, so that the caller may have moved them.
    pub fn commit_payload<D: Disk>(
        &mut self,
        alloc: Global,
        disk: &mut D,
        payload: &[u8],
    ) -> Result<(), FrameFail>
        requires attached { (D.view disk.old).is_attached }
        requires spelling { is_some (operations_of payload.now) ≡ true }
        requires store { (D.view disk.old).told → IsSomeStore (D.view disk.old) self.old }
        ensures writes { Writes (D.view disk.old) (D.view disk.new)
            (CommittingPayload (D.view disk.old) self.old payload.now) }
        ensures committed { (D.view disk.old).told → OnOk result (
            CommittedPayload (D.view disk.old) (D.view disk.new) self.old self.new payload.now) }
        ensures cause { IfErr result (HasCause Never (D.view disk.old) (D.view disk.new)) }
        ensures nothing_done { IsErrOf result Memory → disk.new ≡ disk.old }
        ensures kept { OnErr result (self.new ≡ self.old) }

        // The other area is left as it is, and doesn't count from now on either.
        ensures area { self.new.area ≡ self.old.area }
        ensures rest { (D.view disk.old).told → file (other self.old.area) (D.view disk.new).seen
            ≡ file (other self.old.area) (D.view disk.old).seen }
    {
        let end = append(alloc, disk, self.head.area, self.head.end, payload)?;
        self.head = self.head.behind(end);
        Ok(())
    }

    /// Whether the area that counts is to be written anew: its frames have grown past twice the
    /// first one and 4 MiB more.
    pub fn due(&self) -> bool
        ensures { result ≡ is_due self.now }
    {
        let base = self.head.base;
        let grown = self.head.end + 1;
        self.head.generation < u64::MAX && grown > base && grown - base > base + GROWTH
    }

    /// Writes one frame with this payload into the other area, with the next generation, and opens
    /// it; from then on it counts. The payload has to spell the whole database, so that each image
    /// opens to it all the while.
    ///
    /// After `Fault`, which comes where a call of the disk failed, either area may count. `Memory`
    /// leaves the one that counted, and `Damaged` comes never.
    pub fn checkpoint<D: Disk>(
        &mut self,
        alloc: Global,
        disk: &mut D,
        payload: &[u8],
    ) -> Result<(), FrameFail>
        requires attached { (D.view disk.old).is_attached }
        requires spelling { is_some (operations_of payload.now) ≡ true }
        requires next { self.old.generation < 2 ^ 64 - 1 }
        requires store { (D.view disk.old).told → IsSomeStore (D.view disk.old) self.old }

        // Each image has the batches from before, or the new one in the other area.
        ensures writes { Writes (D.view disk.old) (D.view disk.new)
            (CheckpointingPayload (D.view disk.old) self.old payload.now) }

        // Once it answered, the files are a store of the new batch alone, in the other area.
        ensures checkpointed { (D.view disk.old).told → OnOk result (
            CheckpointedPayload (D.view disk.new) self.old self.new payload.now) }
        ensures head { OnOk result (self.new ≡ next_head self.old self.new.end) }
        ensures cause { IfErr result (HasCause Never (D.view disk.old) (D.view disk.new)) }
        ensures kept { OnErr result (self.new ≡ self.old) }
    {
        let area = other(self.head.area);
        let generation = self.head.generation + 1;
        close_area(alloc, disk, area)?;
        lay_header(alloc, disk, area, generation)?;
        let end = append(alloc, disk, area, FIRST_GATE, payload)?;
        open_area(disk, area)?;
        self.head = Head::first(area, generation).behind(end);
        Ok(())
    }
}

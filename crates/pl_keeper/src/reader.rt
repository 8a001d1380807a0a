//! A store that is being read, one frame at a time: so there need be room for one of them alone.

ghost use Rattle.std.specs.Prelude.{◌≡◌, List, IfOk, IfErr};
ghost use Rattle.pl_disk.specs.Disk.{Looks};
ghost use Rattle.pl_frames.specs.Cause.{HasCause};
ghost use Rattle.pl_keeper.specs.Batches.{Stored};
ghost use Rattle.pl_keeper.specs.Reading.{IsStep, ReadsOn};
ghost use Rattle.pl_keeper.specs.Store.{DamagedAt, IsPlaced, IsReading, IsSomeReading};

use crate::head::Head;
use crate::{Batch, Keeper};
use pl_codec::decode_all;
use pl_disk::Disk;
use pl_frames::{FrameFail, next_frame};
use std::alloc::Global;
use std::marker::Model;

/// A store of which some batches were read, up to the gate of the next one. Contracts see its head.
#[derive(Drop)]
pub struct Reader {
    head: Head,
}

impl Model for Reader {
    ghost use Rattle.pl_keeper.specs.Store.{IsPlaced};
    ghost use Rattle.pl_keeper.specs.declared.head.Head.{Head};

    ghost Value = { Head };

    ghost view = { λ r. r.head };

    ghost invariant = { λ r. IsPlaced r.head };
}

/// What was read of a store.
#[derive(Drop)]
pub enum Step {
    /// The next batch, and the store that is to be read further.
    Read { batch: Batch, rest: Reader },
    /// There is no other one.
    End(Keeper),
}

impl Reader {
    /// Before the first batch.
    pub(crate) fn new(head: Head) -> Reader
        requires { IsPlaced head }
        ensures { result ≡ head }
    {
        Reader { head }
    }

    /// Reads the next batch, or finds that there is none.
    ///
    /// `Damaged` comes where the next frame isn't right, at its gate; it is then the first place of
    /// the store that is malformed. `Fault` comes where a call of the disk failed.
    pub fn next<D: Disk>(self, alloc: Global, disk: &mut D) -> Result<Step, FrameFail>
        requires attached { (D.view disk.old).is_attached }
        requires reading { (D.view disk.old).told → IsSomeReading (D.view disk.old) self }
        ensures looks { Looks (D.view disk.old) (D.view disk.new) }

        // The batch stands behind those that were read, and at the end they are all.
        ensures step { (D.view disk.old).told → (list : List Stored)
            → IsReading (D.view disk.old) self list
            → IfOk result (IsStep (D.view disk.new) self list) }

        // Each batch brings it further, and there is an end.
        ensures on { IfOk result (ReadsOn self) }
        ensures cause { IfErr result (
            HasCause (DamagedAt (D.view disk.old)) (D.view disk.old) (D.view disk.new)) }
    {
        let head = self.head;
        let Some(frame) = next_frame(alloc, disk, head.area, head.end)? else {
            return Ok(Step::End(Keeper::new(head)));
        };
        let Some(ops) = decode_all(alloc, frame.payload.as_slice())? else {
            return Err(FrameFail::Damaged {
                area: head.area,
                at: head.end,
            });
        };
        Ok(Step::Read {
            batch: Batch { at: head.end, ops },
            rest: Reader {
                head: head.behind(frame.end),
            },
        })
    }
}

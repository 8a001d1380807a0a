//! Which area of a store counts, and how a new one is made.

ghost use Rattle.std.specs.Prelude.{◌≡◌, Ok, None, IfOk, IfErr, IfSome, OnOk};
ghost use Rattle.pl_base.specs.declared.area.Area.TheVariants.{A};
ghost use Rattle.pl_disk.specs.Disk.{Looks, Only, Writes};
ghost use Rattle.pl_frames.specs.Cause.{HasCause, Never};
ghost use Rattle.pl_frames.specs.Header.{Laid, Leaves};
ghost use Rattle.pl_keeper.specs.Store.{IsPlaced, IsUsed, first_head};
ghost use Rattle.pl_keeper.specs.Batches.{counting};
ghost use Rattle.pl_keeper.specs.Reading.{IsCounting, IsFirst, IsGreater, IsMisheaded, KeepsBatches};
ghost use Rattle.pl_keeper.specs.Reading.{Opened};

use crate::head::Head;
use pl_base::Area;
use pl_disk::Disk;
use pl_frames::{FrameFail, close_area, inspect, lay_header, open_area};
use std::alloc::Global;

/// Where the generation of an area stands.
const GENERATION: u64 = 9;

// Which of two areas counts, by their generations, of each that is open.
fn greater(a: Option<u64>, b: Option<u64>) -> Result<Option<Head>, FrameFail>
    ensures { IsGreater a b result }
{
    let Some(a) = a else {
        return Ok(b.map(|b| Head::first(Area::B, b)));
    };
    let Some(b) = b else {
        return Ok(Some(Head::first(Area::A, a)));
    };
    if a == b {
        return Err(FrameFail::Damaged {
            area: Area::B,
            at: GENERATION,
        });
    }
    if a < b {
        return Ok(Some(Head::first(Area::B, b)));
    }
    Ok(Some(Head::first(Area::A, a)))
}

// The area that counts, of which no frame is read, or none where both are closed.
fn counting<D: Disk>(alloc: Global, disk: &mut D) -> Result<Option<Head>, FrameFail>
    requires attached { (D.view disk.old).is_attached }
    ensures looks { Looks (D.view disk.old) (D.view disk.new) }
    ensures read { (D.view disk.old).told → IfOk result (IsCounting (D.view disk.old).seen) }
    ensures place { IfOk result (λ found. IfSome found IsPlaced) }
    ensures cause { IfErr result (
        HasCause (IsMisheaded (D.view disk.old)) (D.view disk.old) (D.view disk.new)) }
{
    let a = inspect(alloc, disk, Area::A)?;
    let b = inspect(alloc, disk, Area::B)?;
    greater(a, b)
}

// Closes, lays and opens area A. Each image has no batch all the while.
fn new_store<D: Disk>(alloc: Global, disk: &mut D) -> Result<(), FrameFail>
    requires attached { (D.view disk.old).is_attached }
    requires settled { (D.view disk.old).told →
        Only (D.view disk.old).seen (D.view disk.old).may_leave }
    requires closed { (D.view disk.old).told → counting (D.view disk.old).seen ≡ Ok None }
    ensures writes { Writes (D.view disk.old) (D.view disk.new) (KeepsBatches (D.view disk.old)) }
    ensures settled { (D.view disk.old).told → OnOk result (
        Only (D.view disk.new).seen (D.view disk.new).may_leave) }
    ensures store { (D.view disk.old).told → OnOk result (
        IsFirst (first_head A 0) (D.view disk.new).seen) }
    ensures new_area { (D.view disk.old).told → OnOk result (Leaves A (Laid 0) (D.view disk.new)) }
    ensures cause { IfErr result (HasCause Never (D.view disk.old) (D.view disk.new)) }
{
    close_area(alloc, disk, Area::A)?;
    lay_header(alloc, disk, Area::A, 0)?;
    open_area(disk, Area::A)?;
    Ok(())
}

/// Finds the area that counts of a store of which nothing is pending, or makes a new store where
/// both are closed.
pub fn open_store<D: Disk>(alloc: Global, disk: &mut D) -> Result<Head, FrameFail>
    requires attached { (D.view disk.old).is_attached }
    requires settled { (D.view disk.old).told →
        Only (D.view disk.old).seen (D.view disk.old).may_leave }
    ensures writes { Writes (D.view disk.old) (D.view disk.new) (KeepsBatches (D.view disk.old)) }
    ensures opened { (D.view disk.old).told →
        IfOk result (Opened (D.view disk.old) (D.view disk.new)) }
    ensures place { IfOk result IsPlaced }
    ensures cause { IfErr result (
        HasCause (IsMisheaded (D.view disk.old)) (D.view disk.old) (D.view disk.new)) }
    ensures looks { (D.view disk.old).told → IsUsed (D.view disk.old).seen
        → Looks (D.view disk.old) (D.view disk.new) }
{
    let Some(head) = counting(alloc, disk)? else {
        new_store(alloc, disk)?;
        return Ok(Head::first(Area::A, 0));
    };
    Ok(head)
}

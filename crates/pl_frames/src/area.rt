//! An area: a gate, the word `PLPGST01`, a generation, and the frames behind them. An area is open
//! where its gate is 1 and a byte stands behind it. Its header and a closed first gate are on the
//! disk before its gate is opened; so a crash leaves it closed or whole.

ghost use Rattle.std.specs.Prelude.{◌≡◌, ◌++◌, ◌∷◌, [], take, drop, IfOk, IfErr, OnOk};
ghost use Rattle.pl_base.specs.Image.{file};
ghost use Rattle.pl_disk.specs.Disk.{After, Looks, Only, Writes};
ghost use Rattle.pl_frames.specs.Cause.{HasCause, Never};
ghost use Rattle.pl_frames.specs.Format.{header_bytes};
ghost use Rattle.pl_frames.specs.Header.{Shut, Laid, Leaves, MayClose, MayLay, MayOpen, IsInspected, LacksHeader, IsShutRead};

use crate::FrameFail;
use crate::bytes::{CLOSED, OPEN, number_of, read_exact, write_synced};
use pl_base::Area;
use pl_disk::Disk;
use std::alloc::{AllocError, Global};

/// The word that an area begins with, behind its gate.
const MAGIC: [u8; 8] = *b"PLPGST01";

/// The generation of an area, or none where the area is closed. `Damaged`, at 0, comes where it is
/// open and hasn't the 18 bytes or the word that it has to begin with.
#[tactic(auto, using(crate::proofs::Looks::looking))]
pub fn inspect<D: Disk>(alloc: Global, disk: &mut D, area: Area) -> Result<Option<u64>, FrameFail>
    requires attached { (D.view disk.old).is_attached }
    ensures looks { Looks (D.view disk.old) (D.view disk.new) }
    ensures read { (D.view disk.old).told → IfOk result (
        IsInspected (file area (D.view disk.old).seen)) }
    ensures cause { IfErr result (
        HasCause (LacksHeader area (D.view disk.old)) (D.view disk.old) (D.view disk.new)) }
{
    let len = disk.len(area)?;
    if len < 2 {
        return Ok(None);
    }
    let gate = read_exact(alloc, disk, area, 0, 1)?;
    if gate[0] != OPEN {
        return Ok(None);
    }
    if len < 18 {
        return Err(FrameFail::Damaged { area, at: 0 });
    }
    let word = read_exact(alloc, disk, area, 1, 8)?;
    if word[..] != MAGIC[..] {
        return Err(FrameFail::Damaged { area, at: 0 });
    }
    let number = read_exact(alloc, disk, area, 9, 8)?;
    Ok(Some(number_of(&number)))
}

// Whether byte 0 is there and isn't 1.
#[tactic(auto, using(crate::proofs::Looks::looking))]
fn is_shut<D: Disk>(alloc: Global, disk: &mut D, area: Area) -> Result<bool, FrameFail>
    requires attached { (D.view disk.old).is_attached }
    ensures looks { Looks (D.view disk.old) (D.view disk.new) }
    ensures read { (D.view disk.old).told → IfOk result (
        IsShutRead (file area (D.view disk.old).seen)) }
    ensures cause { IfErr result (HasCause Never (D.view disk.old) (D.view disk.new)) }
{
    if disk.len(area)? == 0 {
        return Ok(false);
    }
    let gate = read_exact(alloc, disk, area, 0, 1)?;
    Ok(gate[0] != OPEN)
}

/// Closes an area. Nothing is written where byte 0 is there and isn't 1, since a write that a crash
/// cuts short could open it.
pub fn close_area<D: Disk>(alloc: Global, disk: &mut D, area: Area) -> Result<(), FrameFail>
    requires attached { (D.view disk.old).is_attached }
    // Byte 0 is settled: a crash leaves the one that is read.
    requires gate { (D.view disk.old).told → Leaves area
        (λ f. take 1 f ≡ take 1 (file area (D.view disk.old).seen)) (D.view disk.old) }

    // A crash at any moment leaves the area of some image from before, or a closed one.
    ensures writes { Writes (D.view disk.old) (D.view disk.new)
        (After (MayClose area) (D.view disk.old).may_leave) }
    ensures closed { (D.view disk.old).told → OnOk result (Leaves area Shut (D.view disk.new)) }
    ensures cause { IfErr result (HasCause Never (D.view disk.old) (D.view disk.new)) }
{
    if is_shut(alloc, disk, area)? {
        return Ok(());
    }
    write_synced(disk, area, 0, &[CLOSED])?;
    Ok(())
}

/// The word, the generation and a closed first gate.
fn header_body(alloc: Global, generation: u64) -> Result<Vec<u8>, AllocError>
    ensures { IfOk result (λ body. body.items ≡ header_bytes generation ++ 0 ∷ []) }
{
    let mut body = Vec::new(alloc);
    body.extend_from_slice(&MAGIC)?;
    body.extend_from_slice(&generation.to_be_bytes())?;
    body.push(CLOSED)?;
    Ok(body)
}

/// Writes the header and a closed first gate into a closed area.
pub fn lay_header<D: Disk>(
    alloc: Global,
    disk: &mut D,
    area: Area,
    generation: u64,
) -> Result<(), FrameFail>
    requires attached { (D.view disk.old).is_attached }
    requires shut { (D.view disk.old).told → Leaves area Shut (D.view disk.old) }

    // A crash at any moment leaves the area's gate as it is in some image from before.
    ensures writes { Writes (D.view disk.old) (D.view disk.new)
        (After (MayLay area) (D.view disk.old).may_leave) }
    ensures laid { (D.view disk.old).told → OnOk result (
        Leaves area (λ f. Shut f × Laid generation f) (D.view disk.new)) }
    ensures cause { IfErr result (HasCause Never (D.view disk.old) (D.view disk.new)) }
{
    let body = header_body(alloc, generation)?;
    write_synced(disk, area, 1, &body)?;
    Ok(())
}

/// Opens an area whose header is laid.
pub fn open_area<D: Disk>(disk: &mut D, area: Area) -> Result<(), FrameFail>
    requires attached { (D.view disk.old).is_attached }
    requires shut { (D.view disk.old).told → Leaves area Shut (D.view disk.old) }

    // A crash at any moment leaves the area of some image from before, closed or opened.
    ensures writes { Writes (D.view disk.old) (D.view disk.new)
        (After (MayOpen area) (D.view disk.old).may_leave) }
    ensures opened { (D.view disk.old).told → OnOk result (Leaves area
        (λ f. f ≡ 1 ∷ drop 1 (file area (D.view disk.old).seen)) (D.view disk.new)) }
    ensures durable { (D.view disk.old).told → OnOk result (
        Only (D.view disk.new).seen (D.view disk.new).may_leave) }
    ensures cause { IfErr result (HasCause Never (D.view disk.old) (D.view disk.new)) }
{
    write_synced(disk, area, 0, &[OPEN])?;
    Ok(())
}

//! The frames of an area: a gate, the payload's length, the payload, and behind it the next gate.
//! A gate that is 1 is open, and any other is closed. A closed gate stands behind the last frame, on
//! the disk before the gate before it is opened; so a crash leaves the frames with the new one or
//! without it.

ghost use Rattle.std.specs.Prelude.{◌≡◌, ◌≤◌, ◌<◌, ◌+◌, ◌^◌, length, IfOk, IfErr, IfSome, IsErrOf};
ghost use Rattle.pl_base.specs.Image.{file, other};
ghost use Rattle.pl_disk.specs.Disk.{After, Looks, Writes};
ghost use Rattle.pl_frames.specs.Cause.{HasCause, Never};
ghost use Rattle.pl_frames.specs.Format.{body_bytes};
ghost use Rattle.pl_frames.specs.Frame.{EndsAt, MayAppend, Appended, IsRead, BreaksAt};
ghost use Rattle.pl_frames.specs.declared.fail.FrameFail.TheVariants.{Memory};

use crate::FrameFail;
use crate::bytes::{CLOSED, OPEN, number_of, read_exact, write_synced};
use pl_base::{Area, Bytes};
use pl_disk::Disk;
use std::alloc::{AllocError, Global};

/// A frame that was read.
#[derive(Drop)]
pub struct Frame {
    pub payload: Bytes,
    /// The place of the next gate, as a byte of the file, counted from 0.
    pub end: u64,
}

/// The bytes behind a gate: the length, the payload and a closed gate.
fn frame_body(alloc: Global, payload: &[u8]) -> Result<Vec<u8>, AllocError>
    ensures { IfOk result (λ body. body.items ≡ body_bytes payload.now) }
{
    let mut body = Vec::new(alloc);
    body.extend_from_slice(&(payload.len() as u64).to_be_bytes())?;
    body.extend_from_slice(payload)?;
    body.push(CLOSED)?;
    Ok(body)
}

/// Puts a frame behind the others, at the place of the first closed gate. The answer is the place of
/// the next gate, which is closed. Places are bytes of the file, counted from 0.
///
/// `Fault` comes where a call of the disk failed: the frame may then be there or not. `Memory` comes
/// before anything is done.
pub fn append<D: Disk>(
    alloc: Global,
    disk: &mut D,
    area: Area,
    at: u64,
    payload: &[u8],
) -> Result<u64, FrameFail>
    requires attached { (D.view disk.old).is_attached }
    requires place { at < 2 ^ 63 }
    // In every image the area's frames end at this place.
    requires ends { (D.view disk.old).told → EndsAt area at (D.view disk.old).may_leave }

    // A crash at any moment leaves the frames of some image from before, with the new one or without.
    ensures writes { Writes (D.view disk.old) (D.view disk.new)
        (After (MayAppend area at payload.now) (D.view disk.old).may_leave) }
    ensures rest { (D.view disk.old).told →
        file (other area) (D.view disk.new).seen ≡ file (other area) (D.view disk.old).seen }

    // Once it answered, a crash leaves what is read, which has the new frame.
    ensures appended { (D.view disk.old).told → IfOk result (λ end.
        Appended area at payload.now end (D.view disk.old) (D.view disk.new)) }
    ensures end { IfOk result (λ end. (end ≡ at + 9 + length payload.now) × (end < 2 ^ 63)) }
    ensures fits { length payload.now < 2 ^ 63 }

    ensures cause { IfErr result (HasCause Never (D.view disk.old) (D.view disk.new)) }
    ensures nothing_done { IsErrOf result Memory → disk.new ≡ disk.old }
{
    let body = frame_body(alloc, payload)?;
    write_synced(disk, area, at + 1, &body)?;
    write_synced(disk, area, at, &[OPEN])?;
    Ok(at + 9 + payload.len() as u64)
}

// How many bytes to read at a gate: it and the length behind it, or it alone where a frame and a next
// gate have no room behind it.
fn head_size(len: u64, at: u64) -> u64
    requires { at < 2 ^ 63 }
    ensures there { at < len → at + result ≤ len }
    ensures gate { 0 < result }
    ensures whole { at + 10 ≤ len → result ≡ 9 }
{
    if len < at + 10 { 1 } else { 9 }
}

/// Reads the frame behind the gate at this place, or none where that gate is closed. `Damaged` comes
/// where the gate is open and the frame doesn't lie in the file together with a next gate.
///
/// It asks for the length of the file once, and reads twice at most: what it gives and no more. Room
/// for the payload is taken once it is known to lie in the file, so that a damaged length costs none.
#[tactic(auto, using(crate::proofs::Looks::looking))]
pub fn next_frame<D: Disk>(
    alloc: Global,
    disk: &mut D,
    area: Area,
    at: u64,
) -> Result<Option<Frame>, FrameFail>
    requires attached { (D.view disk.old).is_attached }
    requires place { at < 2 ^ 63 }
    // The gate is there.
    requires there { (D.view disk.old).told → at < length (file area (D.view disk.old).seen) }
    ensures looks { Looks (D.view disk.old) (D.view disk.new) }

    // What is read; a closed gate and a broken frame are found exactly where they are.
    ensures read { (D.view disk.old).told → IfOk result (
        IsRead (file area (D.view disk.old).seen) at) }
    ensures end { IfOk result (λ found.
        IfSome found (λ frame. (at < frame.end) × (frame.end < 2 ^ 63))) }
    ensures cause { IfErr result (
        HasCause (BreaksAt area at (D.view disk.old)) (D.view disk.old) (D.view disk.new)) }
{
    let len = disk.len(area)?;
    let head = read_exact(alloc, disk, area, at, head_size(len, at))?;
    if head[0] != OPEN {
        return Ok(None);
    }
    if len < at + 10 {
        return Err(FrameFail::Damaged { area, at });
    }
    let size = number_of(&head[1..]);
    if size > len - at - 10 {
        return Err(FrameFail::Damaged { area, at });
    }
    let payload = read_exact(alloc, disk, area, at + 9, size)?;
    Ok(Some(Frame {
        payload: Bytes::from_vec(payload),
        end: at + 9 + size,
    }))
}

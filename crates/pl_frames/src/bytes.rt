//! Bytes of an area as the other calls read and write them: gates, numbers, writes that wait until
//! they are on the disk, and reads of as many bytes as are asked for.

ghost use Rattle.std.specs.Prelude.{◌≡◌, ◌≤◌, ◌<◌, ◌+◌, ◌^◌, length, take, drop, IfOk, IfErr, OnOk, IsErr};
ghost use Rattle.std.specs.Int.{to_be_bytes, from_be_bytes, w64};
ghost use Rattle.pl_base.specs.Image.{file, other};
ghost use Rattle.pl_disk.specs.Disk.{After, TornAt, Only, Written, Rises, Looks, Writes};
ghost use Rattle.pl_frames.specs.Cause.{HasCause, Never};

use crate::FrameFail;
use pl_base::Area;
use pl_disk::{Disk, Failed};
use std::alloc::Global;

/// The value of an open gate. A gate of any other value is closed.
pub const OPEN: u8 = 1;

/// The value that a gate is closed with.
pub const CLOSED: u8 = 0;

/// Writes bytes and waits until they are on the disk.
pub fn write_synced<D: Disk>(disk: &mut D, area: Area, at: u64, bytes: &[u8]) -> Result<(), Failed>
    requires attached { (D.view disk.old).is_attached }
    requires there { (D.view disk.old).told → at ≤ length (file area (D.view disk.old).seen) }
    ensures writes { Writes (D.view disk.old) (D.view disk.new)
        (After (TornAt area at (length bytes.now)) (D.view disk.old).may_leave) }
    ensures written { (D.view disk.old).told → OnOk result (
        Written area at bytes.now (D.view disk.old).seen (D.view disk.new).seen) }
    ensures rest { (D.view disk.old).told →
        file (other area) (D.view disk.new).seen ≡ file (other area) (D.view disk.old).seen }
    ensures durable { (D.view disk.old).told → OnOk result (
        Only (D.view disk.new).seen (D.view disk.new).may_leave) }
    ensures within { OnOk result (at + length bytes.now < 2 ^ 63) }
    ensures cause { IsErr result →
        Rises (D.view disk.old).disk_faults (D.view disk.new).disk_faults }
{
    disk.write_at(area, at, bytes)?;
    disk.sync()
}

/// So many bytes from this place on.
#[tactic(auto, using(crate::proofs::Looks::looking))]
pub fn read_exact<D: Disk>(
    alloc: Global,
    disk: &mut D,
    area: Area,
    at: u64,
    size: u64,
) -> Result<Vec<u8>, FrameFail>
    requires attached { (D.view disk.old).is_attached }
    requires there { (D.view disk.old).told → at + size ≤ length (file area (D.view disk.old).seen) }
    ensures looks { Looks (D.view disk.old) (D.view disk.new) }
    ensures bytes { (D.view disk.old).told → IfOk result (λ bytes.
        bytes.items ≡ take size (drop at (file area (D.view disk.old).seen))) }
    ensures size { IfOk result (λ bytes. length bytes.items ≡ size) }
    ensures cause { IfErr result (HasCause Never (D.view disk.old) (D.view disk.new)) }
{
    let mut bytes = Vec::new(alloc);
    bytes.resize(size as usize, 0)?;
    disk.read_at(area, at, &mut bytes)?;
    Ok(bytes)
}

/// The number that eight bytes spell, the greatest place first.
pub fn number_of(bytes: &[u8]) -> u64
    requires { length bytes.now ≡ 8 }
    ensures value { result ≡ from_be_bytes w64 bytes.now }
    ensures bytes { to_be_bytes w64 result ≡ bytes.now }
{
    let mut number = [0; 8];
    number.copy_from_slice(bytes);
    u64::from_be_bytes(number)
}

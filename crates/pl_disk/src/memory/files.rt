//! The two files of a store in memory.
ghost use Rattle.std.specs.Prelude.{◌≡◌, IfOk};
ghost use Rattle.pl_base.specs.Image.{file};
ghost use Rattle.pl_disk.specs.Replay.{image_of, put, put_in, with_file};

use crate::Area;
use std::alloc::{AllocError, Global};

/// The bytes of area A and of area B.
#[derive(Drop)]
pub struct Files {
    pub a: Vec<u8>,
    pub b: Vec<u8>,
}

impl Files {
    /// The bytes of a file.
    pub fn of(&self, area: Area) -> &[u8]
        ensures { result.now ≡ file area (image_of self.now) }
    {
        match area {
            Area::A => &self.a,
            Area::B => &self.b,
        }
    }

    /// Puts these bytes in place of a file's.
    pub fn set(&mut self, area: Area, bytes: Vec<u8>)
        ensures { image_of self.new ≡ with_file area bytes.items (image_of self.old) }
    {
        match area {
            Area::A => self.a = bytes,
            Area::B => self.b = bytes,
        }
    }

    /// A copy.
    pub fn copied(&self, alloc: Global) -> Result<Files, AllocError>
        ensures { IfOk result (λ copy. image_of copy ≡ image_of self.now) }
    {
        let a = self.a.to_vec(alloc)?;
        let b = self.b.to_vec(alloc)?;
        Ok(Files { a, b })
    }

    /// A copy in which a file has these bytes at `at`.
    pub fn put_in(
        &self,
        alloc: Global,
        area: Area,
        at: u64,
        bytes: &[u8],
    ) -> Result<Files, AllocError>
        ensures { IfOk result (λ next.
            image_of next ≡ put_in area at bytes.now (image_of self.now)) }
    {
        let changed = put_bytes(alloc, self.of(area), at as usize, bytes)?;
        let mut next = self.copied(alloc)?;
        next.set(area, changed);
        Ok(next)
    }
}

/// The bytes with others over a part of them, or past their end.
pub fn put_bytes(alloc: Global, old: &[u8], at: usize, bytes: &[u8]) -> Result<Vec<u8>, AllocError>
    ensures { IfOk result (λ next. next.items ≡ put old.now at bytes.now) }
{
    let from = if at < old.len() { at } else { old.len() };
    let mut next = old[..from].to_vec(alloc)?;
    next.extend_from_slice(bytes)?;
    if bytes.len() < old.len() - from {
        next.extend_from_slice(&old[from + bytes.len()..])?;
    }
    Ok(next)
}

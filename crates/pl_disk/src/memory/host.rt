//! A host in memory. It notes what its calls changed, and from the notes follow the files that a
//! crash may leave at each moment.
ghost use Rattle.std.specs.Prelude.{◌≡◌, ◌≤◌, ◌<◌, ◌+◌, ◌^◌, ◌++◌, ◌∷◌, [], length, take, drop, IfOk, OnOk, OnErr};
ghost use Rattle.pl_disk.specs.Replay.{image_of, IsKept};
ghost use Rattle.pl_disk.specs.Lawful.{lawful_of};

use super::counts::Counts;
use super::files::{Files, put_bytes};
use super::image_after::{Pick, left_after};
use super::note::{Change, Note};
use crate::{Area, Attached, Disk, Failed, Host};
use pl_base::Memory;
use std::alloc::{AllocError, Global};

/// A host in memory over both files of a store. A call fails exactly where its number is listed or
/// where it found no memory, and then changes nothing; but a listed call that writes or prints may do
/// its first bytes before it fails. A write that would end past 2^63 - 1 finds no memory.
#[derive(Drop)]
pub struct MemoryHost {
    alloc: Global,
    first: Files,
    files: Files,
    printed: Vec<u8>,
    notes: Vec<Note>,
    counts: Counts,
    attached: Attached,
    part: usize,
    ghost kept: { IsKept (image_of first) (image_of files) printed.items notes.items },
}

fn joined(alloc: Global, front: &[u8], back: &[u8]) -> Result<Vec<u8>, AllocError>
    ensures { IfOk result (λ all. all.items ≡ front.now ++ back.now) }
{
    let mut all = front.to_vec(alloc)?;
    all.extend_from_slice(back)?;
    Ok(all)
}

impl MemoryHost {
    ghost use Rattle.std.specs.Prelude.{min, ◌-◌};
    ghost use Rattle.pl_base.specs.Image.{file};
    ghost use Rattle.pl_disk.specs.MemoryHosts.{host_view, tally, IsFreshHost, LeftAfter, KeepsRest, KeepsFiles, KeepsPrinted, Puts, Prints};

    /// A host over files of these bytes, both settled. `fail` lists the numbers of the calls that
    /// are to fail: those of `attach`, `len`, `read_at`, `write_at`, `sync` and `say` count alike,
    /// from 0.
    pub fn new(alloc: Global, a: Vec<u8>, b: Vec<u8>, fail: Vec<u64>) -> Result<MemoryHost, Memory>
        ensures { IfOk result (λ host.
            IsFreshHost (record { a = a.items; b = b.items }) fail.items 0 host) }
    {
        MemoryHost::with_part(alloc, a, b, fail, 0)
    }

    /// Such a host, of which each call that is to fail first does a part: a write puts its first
    /// `part` bytes there, and `say` prints as many, where there is memory for it.
    pub fn with_part(
        alloc: Global,
        a: Vec<u8>,
        b: Vec<u8>,
        fail: Vec<u64>,
        part: usize,
    ) -> Result<MemoryHost, Memory>
        ensures { IfOk result (λ host.
            IsFreshHost (record { a = a.items; b = b.items }) fail.items part host) }
    {
        let first = Files { a, b };
        let files = first.copied(alloc)?;
        Ok(MemoryHost {
            alloc,
            first,
            files,
            printed: Vec::new(alloc),
            notes: Vec::new(alloc),
            counts: Counts::new(fail),
            attached: Attached::Nothing,
            part,
        })
    }

    // Puts these bytes into a file and notes it as that of this call. Where there is no memory for it
    // nothing is done.
    fn put(&mut self, call: u64, area: Area, at: u64, bytes: &[u8]) -> Result<(), AllocError>
        ensures rest { KeepsRest self.old self.new }
        ensures printed { self.new.printed ≡ self.old.printed }
        ensures put { OnOk result (Puts call area at bytes.now self.old self.new) }
        ensures nothing { OnErr result (KeepsFiles self.old self.new) }
    {
        let next = put_bytes(self.alloc, self.files.of(area), at as usize, bytes)?;
        let bytes = bytes.to_vec(self.alloc)?;
        let change = Change::Wrote { area, at, bytes };
        self.notes.push(Note { call, change })?;
        self.files.set(area, next);
        Ok(())
    }

    // Prints a text and notes it as that of this call. Where there is no memory for it nothing is
    // done.
    fn print(&mut self, call: u64, text: &[u8]) -> Result<(), AllocError>
        ensures rest { KeepsRest self.old self.new }
        ensures files { self.new.files ≡ self.old.files }
        ensures prints { OnOk result (Prints call text.now self.old self.new) }
        ensures nothing { OnErr result (KeepsPrinted self.old self.new) }
    {
        let next = joined(self.alloc, &self.printed, text)?;
        let text = text.to_vec(self.alloc)?;
        let change = Change::Said { text };
        self.notes.push(Note { call, change })?;
        self.printed = next;
        Ok(())
    }

    // How many of so many bytes a call does that is to fail.
    fn part_of(&self, len: usize) -> usize
        ensures within { result ≤ len }
        ensures none { self.now.part ≡ 0 → result ≡ 0 }
    {
        len.min(self.part)
    }

    /// All that was printed.
    pub fn printed(&self) -> &[u8]
        ensures { result.now ≡ (host_view self.now).printed }
    {
        &self.printed
    }

    /// A file as reads give it.
    pub fn area(&self, area: Area) -> &[u8]
        ensures { result.now ≡ file area (host_view self.now).seen }
    {
        self.files.of(area)
    }

    /// How many calls there were.
    pub fn calls(&self) -> u64
        ensures { result ≡ (tally self.now).calls }
    {
        self.counts.calls
    }

    /// How many calls found no memory. Where no call is listed to fail these are all that failed, so
    /// that neither count of failures rises without this one.
    pub fn starved(&self) -> u64
        ensures count { result ≡ (tally self.now).starved }
        ensures honest { (tally self.now).fail ≡ [] → result ≡ min
            ((host_view self.now).disk_faults + (host_view self.now).say_faults) (2 ^ 64 - 1) }
    {
        self.counts.starved
    }

    /// The files of area A and area B as a crash just after a call leaves them, where `pick` chooses
    /// the bytes that were written since the last sync. Calls count from 0. It fails only for want of
    /// memory.
    pub fn image_after(
        &self,
        alloc: Global,
        call: u64,
        pick: Pick,
    ) -> Result<(Vec<u8>, Vec<u8>), Memory>
        requires { call < (tally self.now).calls }
        ensures { IfOk result (λ left.
            LeftAfter self.now call pick (record { a = left.0.items; b = left.1.items })) }
    {
        let left = left_after(alloc, &self.first, &self.notes, call, pick)?;
        Ok((left.a, left.b))
    }
}

impl Disk for MemoryHost {
    ghost use Rattle.pl_base.specs.Image.{file, other, Image};
    ghost use Rattle.pl_disk.specs.Attached.{AreAttached};
    ghost use Rattle.pl_disk.specs.Disk.{Calls, Keeps, Follows, TornAt, Only, Written, with_attached};
    ghost use Rattle.std.specs.Prelude.{ℕ, Vec};
    ghost use Rattle.std.specs.declared.alloc.Global.{Global};
    ghost use Rattle.pl_disk.specs.MemoryHosts.{host_view, Ends, Notes};
    ghost use Rattle.pl_disk.specs.declared.memory.note.Change.TheVariants.{Wrote, Synced};

    ghost view = { λ h. host_view h };

    ghost lawful = { λ h told.
        lawful_of (AreAttached h.attached) (image_of h.first) (image_of h.files) h.printed.items
        h.notes.items h.counts.disk_faults h.counts.say_faults h.kept };

    fn attach(&mut self, store: &str) -> Result<(), Failed>
        ensures ends { Ends self.old self.new result }
        ensures call { Calls (with_attached store.now (host_view self.old))
            (host_view self.new) result }
        ensures attached { (host_view self.new).is_attached }
        ensures images { Keeps (host_view self.old) (host_view self.new) }
    {
        self.attached.add(self.alloc, store);
        self.counts.begin()?;
        Ok(())
    }

    fn len(&mut self, area: Area) -> Result<u64, Failed>
        ensures ends { Ends self.old self.new result }
        ensures call { Calls (host_view self.old) (host_view self.new) result }
        ensures bound { IfOk result (λ n. n < 2 ^ 63) }
        ensures images { Keeps (host_view self.old) (host_view self.new) }
        ensures is { IfOk result (λ n. n ≡ length (file area (host_view self.old).seen)) }
    {
        self.counts.begin()?;
        Ok(self.files.of(area).len() as u64)
    }

    fn read_at(&mut self, area: Area, at: u64, into: &mut [u8]) -> Result<(), Failed>
        requires { at + length into.old ≤ length (file area (host_view self.old).seen) }
        ensures ends { Ends self.old self.new result }
        ensures call { Calls (host_view self.old) (host_view self.new) result }
        ensures images { Keeps (host_view self.old) (host_view self.new) }
        ensures bytes { OnOk result (
            into.new ≡ take (length into.old) (drop at (file area (host_view self.old).seen))) }
    {
        self.counts.begin()?;
        let from = at as usize;
        into.copy_from_slice(&self.files.of(area)[from..from + into.len()]);
        Ok(())
    }

    fn write_at(&mut self, area: Area, at: u64, bytes: &[u8]) -> Result<(), Failed>
        requires { at ≤ length (file area (host_view self.old).seen) }
        ensures ends { Ends self.old self.new result }
        ensures call { Calls (host_view self.old) (host_view self.new) result }
        ensures within { OnOk result (at + length bytes.now < 2 ^ 63) }
        ensures written { OnOk result (
            Written area at bytes.now (host_view self.old).seen (host_view self.new).seen) }
        ensures rest { file (other area) (host_view self.new).seen
            ≡ file (other area) (host_view self.old).seen }
        ensures synced { (host_view self.new).synced ≡ (host_view self.old).synced }
        ensures noted { OnOk result ((copy : Vec ℕ Global) × (copy.items ≡ bytes.now)
            × Notes self.old self.new (Wrote area at copy)) }
        ensures crash { Follows (TornAt area at (length bytes.now))
            (host_view self.old).may_leave (host_view self.new).may_leave }
    {
        let call = self.counts.calls;
        let Ok(_) = self.counts.begin() else {
            let count = self.part_of(bytes.len());
            if count > 0 {
                let _ = self.put(call, area, at, &bytes[..count]);
            }
            return Err(Failed);
        };
        match self.put(call, area, at, bytes) {
            Ok(()) => Ok(()),
            Err(_) => Err(self.counts.starve()),
        }
    }

    fn sync(&mut self) -> Result<(), Failed>
        ensures ends { Ends self.old self.new result }
        ensures call { Calls (host_view self.old) (host_view self.new) result }
        ensures seen { (host_view self.new).seen ≡ (host_view self.old).seen }
        ensures settled { OnOk result ((host_view self.new).synced
            ≡ (host_view self.old).synced ++ (host_view self.new).moment ∷ []) }
        ensures unsettled { OnErr result (
            (host_view self.new).synced ≡ (host_view self.old).synced) }
        ensures durable { OnOk result (
            Only (host_view self.old).seen (host_view self.new).may_leave) }
        ensures noted { OnOk result (Notes self.old self.new Synced) }
        ensures crash { (c : Image) → (host_view self.new).may_leave c
            → (host_view self.old).may_leave c }
    {
        let call = self.counts.begin()?;
        let change = Change::Synced;
        let Ok(()) = self.notes.push(Note { call, change }) else {
            return Err(self.counts.starve());
        };
        Ok(())
    }
}

impl Host for MemoryHost {
    ghost use Rattle.pl_disk.specs.Disk.{Says};
    ghost use Rattle.std.specs.Prelude.{ℕ, Vec};
    ghost use Rattle.std.specs.declared.alloc.Global.{Global};
    ghost use Rattle.pl_disk.specs.MemoryHosts.{host_view, Ends, Notes};
    ghost use Rattle.pl_disk.specs.declared.memory.note.Change.TheVariants.{Said};

    fn say(&mut self, text: &[u8]) -> Result<(), Failed>
        ensures ends { Ends self.old self.new result }
        ensures noted { OnOk result ((copy : Vec ℕ Global) × (copy.items ≡ text.now)
            × Notes self.old self.new (Said copy)) }
        ensures says { Says text.now (host_view self.old) (host_view self.new) result }
    {
        let call = self.counts.calls;
        let Ok(_) = self.counts.begin_saying() else {
            let count = self.part_of(text.len());
            if count > 0 {
                let _ = self.print(call, &text[..count]);
            }
            return Err(Failed);
        };
        match self.print(call, text) {
            Ok(()) => Ok(()),
            Err(_) => Err(self.counts.starve_saying()),
        }
    }
}

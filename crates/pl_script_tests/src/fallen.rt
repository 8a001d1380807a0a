//! A host over files that fall back where a sync fails.

ghost use Rattle.std.specs.Prelude.{◌≡◌, ◌≤◌};
ghost use Rattle.pl_disk.specs.Disk.{Rises, untold};

use pl_base::Memory;
use pl_disk::{Area, Disk, Failed, Host, MemoryHost, Pick};
use std::alloc::Global;

/// A host over one in memory, of which one call fails. Where that is a sync, what was to be settled
/// is lost: from then on reads give what a crash might have left, by a pick.
///
/// It tells nothing of its files, as a host over real ones, since reads change between two calls.
#[derive(Drop)]
pub struct FallenHost {
    alloc: Global,
    inner: MemoryHost,
    pick: Pick,
    has_fallen: bool,
    printed: Vec<u8>,
    disk_faults: u64,
    say_faults: u64,
}

// A count after one more. The greatest u64 stays.
fn one_more(count: u64) -> u64
    ensures no_fewer { count ≤ result }
    ensures rises { Rises count result }
{
    count.saturating_add(1)
}

impl FallenHost {
    /// A host over an empty store, whose call of this number fails, counted from 0.
    pub fn new(alloc: Global, fail: u64, pick: Pick) -> Result<FallenHost, Memory> {
        let fail = vec![in alloc; fail]?;
        Ok(FallenHost {
            alloc,
            inner: MemoryHost::new(alloc, Vec::new(alloc), Vec::new(alloc), fail)?,
            pick,
            has_fallen: false,
            printed: Vec::new(alloc),
            disk_faults: 0,
            say_faults: 0,
        })
    }

    /// Whether a sync failed and the files fell back.
    pub fn has_fallen(&self) -> bool {
        self.has_fallen
    }

    pub fn printed(&self) -> &[u8] {
        self.printed.as_slice()
    }

    /// A file as reads give it.
    pub fn area(&self, area: Area) -> &[u8] {
        self.inner.area(area)
    }

    // A host over the files that a crash just now might leave.
    fn fallen(&self) -> Result<MemoryHost, Memory> {
        let calls = self.inner.calls();
        if calls == 0 {
            return Err(Memory);
        }
        let (a, b) = self.inner.image_after(self.alloc, calls - 1, self.pick)?;
        MemoryHost::new(self.alloc, a, b, Vec::new(self.alloc))
    }

    // Counts a failure of the disk.
    fn fail(&mut self) -> Failed
        ensures no_fewer { self.old.disk_faults ≤ self.new.disk_faults }
        ensures rises { Rises self.old.disk_faults self.new.disk_faults }
        ensures say_faults { self.new.say_faults ≡ self.old.say_faults }
    {
        self.disk_faults = one_more(self.disk_faults);
        Failed
    }

    // Counts a failure to print.
    fn fail_to_say(&mut self) -> Failed
        ensures disk_faults { self.new.disk_faults ≡ self.old.disk_faults }
        ensures no_fewer { self.old.say_faults ≤ self.new.say_faults }
        ensures rises { Rises self.old.say_faults self.new.say_faults }
    {
        self.say_faults = one_more(self.say_faults);
        Failed
    }
}

impl Disk for FallenHost {
    ghost view = { λ h. record (untold h.disk_faults) { say_faults = h.say_faults } };

    ghost lawful = { λ h told. absurd told };

    fn attach(&mut self, store: &str) -> Result<(), Failed> {
        match self.inner.attach(store) {
            Ok(()) => Ok(()),
            Err(_) => Err(self.fail()),
        }
    }

    fn len(&mut self, area: Area) -> Result<u64, Failed> {
        match self.inner.len(area) {
            Ok(len) => Ok(len),
            Err(_) => Err(self.fail()),
        }
    }

    fn read_at(&mut self, area: Area, at: u64, into: &mut [u8]) -> Result<(), Failed> {
        let there = self.inner.area(area).len() as u64;
        if at > there || into.len() as u64 > there - at {
            return Err(self.fail());
        }
        match self.inner.read_at(area, at, into) {
            Ok(()) => Ok(()),
            Err(_) => Err(self.fail()),
        }
    }

    fn write_at(&mut self, area: Area, at: u64, bytes: &[u8]) -> Result<(), Failed> {
        let there = self.inner.area(area).len() as u64;
        if at > there {
            return Err(self.fail());
        }
        match self.inner.write_at(area, at, bytes) {
            Ok(()) => Ok(()),
            Err(_) => Err(self.fail()),
        }
    }

    fn sync(&mut self) -> Result<(), Failed> {
        if self.inner.sync().is_ok() {
            return Ok(());
        }
        if let Ok(inner) = self.fallen() {
            self.inner = inner;
            self.has_fallen = true;
        }
        Err(self.fail())
    }
}

impl Host for FallenHost {
    fn say(&mut self, text: &[u8]) -> Result<(), Failed> {
        if self.inner.say(text).is_err() || self.printed.extend_from_slice(text).is_err() {
            return Err(self.fail_to_say());
        }
        Ok(())
    }
}

//! A host that tells nothing of its files.

use crate::memory::one_more;
use crate::{Area, Attached, Disk, Failed, Host};

/// A host of which nothing is known but how often it failed. It keeps nothing: its files read as
/// empty, and each write, sync and text fails.
#[derive(Drop)]
pub struct UntoldHost {
    attached: Attached,
    disk_faults: u64,
    say_faults: u64,
}

impl UntoldHost {
    ghost use Rattle.std.specs.Prelude.{[]};
    ghost use Rattle.pl_disk.specs.UntoldHosts.{untold_view};

    /// A host that has taken no call yet.
    pub fn new() -> UntoldHost
        ensures attached { (untold_view result).attached [] }
    {
        UntoldHost {
            attached: Attached::Nothing,
            disk_faults: 0,
            say_faults: 0,
        }
    }
}

impl Disk for UntoldHost {
    ghost use Rattle.pl_disk.specs.UntoldHosts.{untold_view};

    ghost view = { λ h. untold_view h };

    ghost lawful = { λ h told. absurd told };

    fn attach(&mut self, store: &str) -> Result<(), Failed> {
        self.attached.add_lost();
        Ok(())
    }

    fn len(&mut self, area: Area) -> Result<u64, Failed> {
        Ok(0)
    }

    fn read_at(&mut self, area: Area, at: u64, into: &mut [u8]) -> Result<(), Failed> {
        into.fill(0);
        Ok(())
    }

    fn write_at(&mut self, area: Area, at: u64, bytes: &[u8]) -> Result<(), Failed> {
        self.disk_faults = one_more(self.disk_faults);
        Err(Failed)
    }

    fn sync(&mut self) -> Result<(), Failed> {
        self.disk_faults = one_more(self.disk_faults);
        Err(Failed)
    }
}

impl Host for UntoldHost {
    fn say(&mut self, text: &[u8]) -> Result<(), Failed> {
        self.say_faults = one_more(self.say_faults);
        Err(Failed)
    }
}

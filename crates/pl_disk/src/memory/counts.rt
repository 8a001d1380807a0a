//! The counts of a host in memory, and which of its calls are to fail.
ghost use Rattle.std.specs.Prelude.{◌≡◌, ◌≤◌, ◌↔◌, ◌+◌, ◌-◌, ◌^◌, [], min, IfOk, OnOk, OnErr, IsErr, IsTrue};
ghost use Rattle.pl_disk.specs.Tally.{IsListed, raised};

use crate::Failed;

/// The counts of a host's calls and of their failures, and the numbers of those that are to fail.
#[derive(Drop)]
pub struct Counts {
    pub fail: Vec<u64>,
    pub calls: u64,
    pub disk_faults: u64,
    pub say_faults: u64,
    pub starved: u64,
    ghost honest: { fail.items ≡ [] → starved ≡ min (disk_faults + say_faults) (2 ^ 64 - 1) },
}

/// A count after one more. The greatest u64 stays.
pub fn one_more(count: u64) -> u64
    ensures { result ≡ raised count }
{
    if count == u64::MAX { count } else { count + 1 }
}

impl Counts {
    ghost use Rattle.pl_disk.specs.Counts.{tally_of};
    ghost use Rattle.pl_disk.specs.Tally.{tally_from};

    /// No call yet.
    pub fn new(fail: Vec<u64>) -> Counts
        ensures { tally_of result ≡ tally_from fail.items }
    {
        Counts {
            fail,
            calls: 0,
            disk_faults: 0,
            say_faults: 0,
            starved: 0,
        }
    }

    // Whether the call of this number is to fail.
    fn is_listed(&self, call: u64) -> bool
        ensures { IsTrue result ↔ IsListed self.now.fail.items call }
    {
        self.fail.contains(&call)
    }

    /// Counts a call of the disk and gives its number. It fails where that is listed.
    pub fn begin(&mut self) -> Result<u64, Failed>
        ensures number { IfOk result (λ call. call ≡ self.old.calls) }
        ensures listed { IsErr result ↔ IsListed self.old.fail.items self.old.calls }
        ensures no_fewer { self.old.disk_faults ≤ self.new.disk_faults }
        ensures ok { OnOk result (
            tally_of self.new ≡ record (tally_of self.old) { calls = raised self.old.calls }) }
        ensures err { OnErr result (tally_of self.new ≡ record (tally_of self.old) {
          calls = raised self.old.calls;
          disk_faults = raised self.old.disk_faults;
        }) }
    {
        let call = self.calls;
        self.calls = one_more(call);
        if self.is_listed(call) {
            self.disk_faults = one_more(self.disk_faults);
            return Err(Failed);
        }
        Ok(call)
    }

    /// Counts a call that prints, and gives its number. It fails where that is listed.
    pub fn begin_saying(&mut self) -> Result<u64, Failed>
        ensures number { IfOk result (λ call. call ≡ self.old.calls) }
        ensures listed { IsErr result ↔ IsListed self.old.fail.items self.old.calls }
        ensures no_fewer { self.old.say_faults ≤ self.new.say_faults }
        ensures ok { OnOk result (
            tally_of self.new ≡ record (tally_of self.old) { calls = raised self.old.calls }) }
        ensures err { OnErr result (tally_of self.new ≡ record (tally_of self.old) {
          calls = raised self.old.calls;
          say_faults = raised self.old.say_faults;
        }) }
    {
        let call = self.calls;
        self.calls = one_more(call);
        if self.is_listed(call) {
            self.say_faults = one_more(self.say_faults);
            return Err(Failed);
        }
        Ok(call)
    }

    /// Counts a call of the disk that found no memory.
    pub fn starve(&mut self) -> Failed
        ensures no_fewer { self.old.disk_faults ≤ self.new.disk_faults }
        ensures counts { tally_of self.new ≡ record (tally_of self.old) {
          disk_faults = raised self.old.disk_faults;
          starved = raised self.old.starved;
        } }
    {
        self.disk_faults = one_more(self.disk_faults);
        self.starved = one_more(self.starved);
        Failed
    }

    /// Counts a call that prints and found no memory.
    pub fn starve_saying(&mut self) -> Failed
        ensures no_fewer { self.old.say_faults ≤ self.new.say_faults }
        ensures counts { tally_of self.new ≡ record (tally_of self.old) {
          say_faults = raised self.old.say_faults;
          starved = raised self.old.starved;
        } }
    {
        self.say_faults = one_more(self.say_faults);
        self.starved = one_more(self.starved);
        Failed
    }
}

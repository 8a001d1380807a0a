//! A script in memory.
ghost use Rattle.std.specs.Prelude.{ℕ, List, ◌≡◌, ◌≤◌, ◌++◌, ◌∷◌, ◌⊎◌, [], length, take, drop, Some, IfOk, IsErr};
ghost use Rattle.pl_disk.specs.Disk.{Rises};

use crate::memory::counts::one_more;
use crate::{Attached, Failed, Source};

/// A script in memory. Its calls take no memory, and fail exactly where they are listed.
#[derive(Drop)]
pub struct MemorySource {
    bytes: Vec<u8>,
    at: usize,
    fail: Vec<u64>,
    calls: u64,
    faults: u64,
    attached: Attached,
    ghost within: { at ≤ length bytes.items },
}

impl MemorySource {
    ghost use Rattle.pl_disk.specs.Script.{IsFreshScript, FailsWhereListed, left_of, script_attached};

    /// A script of these bytes, and the numbers of the calls that are to fail. Calls of `attach` and
    /// `take` count alike, from 0.
    pub fn new(bytes: Vec<u8>, fail: Vec<u64>) -> MemorySource
        ensures { IsFreshScript bytes.items fail.items result }
    {
        MemorySource {
            bytes,
            at: 0,
            fail,
            calls: 0,
            faults: 0,
            attached: Attached::Nothing,
        }
    }

    // Counts a call, which fails where its number is listed.
    fn begin(&mut self) -> Result<(), Failed>
        ensures counts { FailsWhereListed self.old self.new result }
        ensures attached { self.new.attached ≡ self.old.attached }
        ensures left { left_of self.new ≡ left_of self.old }
    {
        let call = self.calls;
        self.calls = one_more(call);
        if self.fail.contains(&call) {
            self.faults = one_more(self.faults);
            return Err(Failed);
        }
        Ok(())
    }
}

impl Source for MemorySource {
    ghost use Rattle.pl_disk.specs.Script.{FailsWhereListed, left_of, script_faults, script_attached, script_is_attached};

    ghost left = { λ s. Some (left_of s) };

    ghost attached = { λ s. script_attached s };

    ghost is_attached = { λ s. script_is_attached s };

    ghost faults = { λ s. script_faults s };

    fn attach(&mut self, script: &str) -> Result<(), Failed>
        ensures fails_where_listed { FailsWhereListed self.old self.new result }
        ensures attached { (names : List (List ℕ)) → script_attached self.old names
            → script_attached self.new (names ++ script.now ∷ []) }
        ensures is_attached { script_is_attached self.new }
        ensures left { left_of self.new ≡ left_of self.old }
        ensures faults { script_faults self.old ≤ script_faults self.new }
        ensures cause { IsErr result → Rises (script_faults self.old) (script_faults self.new) }
    {
        self.attached.add_lost();
        self.begin()
    }

    fn take(&mut self, into: &mut [u8]) -> Result<usize, Failed>
        ensures fails_where_listed { FailsWhereListed self.old self.new result }
        ensures attached { (names : List (List ℕ)) → script_attached self.old names
            → script_attached self.new names }
        ensures is_attached { script_is_attached self.old → script_is_attached self.new }
        ensures within { IfOk result (λ n. n ≤ length into.old) }
        ensures moved { IfOk result (λ n. (n ≤ length (left_of self.old))
            × (into.new ≡ take n (left_of self.old) ++ drop n into.old)
            × (left_of self.new ≡ drop n (left_of self.old))
            × (n ≡ 0 → (length into.old ≡ 0) ⊎ (left_of self.old ≡ []))) }
        ensures faults { script_faults self.old ≤ script_faults self.new }
        ensures cause { IsErr result → Rises (script_faults self.old) (script_faults self.new) }
    {
        self.begin()?;
        let left = self.bytes.len() - self.at;
        let count = if left < into.len() { left } else { into.len() };
        into[..count].copy_from_slice(&self.bytes[self.at..self.at + count]);
        self.at += count;
        Ok(count)
    }
}

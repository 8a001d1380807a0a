//! The script in a real file.
ghost use Rattle.std.specs.Prelude.{◌≡◌, ◌≤◌, ◌∷◌, ◌++◌, [], None, List, ℕ, length, IfOk, OnOk, IsOk, IsErr, IsSome, ◌↔◌, string_bytes};
ghost use Rattle.pl_disk.specs.Disk.{Rises};
ghost use Rattle.pl_files.specs.Files.{names_of, IsNamed, IsOpen, faults_of, problem_of};

use crate::problem::one_more;
use crate::{Problem, Reason, Subject};
use pl_disk::{Attached, Failed, Source};
use std::fs::File;
use std::io::{ErrorKind, Read};

/// How often a call is made that the system interrupts.
const MOST_TRIES: u32 = 1000;

// The file of a script, and the name that it was opened under.
#[derive(Drop)]
struct ScriptFile {
    name: String,
    file: File,
}

/// A script that is read from a file.
#[derive(Drop)]
pub struct FileSource {
    rt: HostRuntime,
    attached: Attached,
    script: Option<ScriptFile>,
    faults: u64,
    problem: Option<Problem>,
}

impl FileSource {
    /// A script that has no file yet: each `take` fails until `attach` succeeded.
    pub fn new(rt: HostRuntime) -> FileSource
        ensures attached { names_of result [] }
        ensures faults { faults_of result ≡ 0 }
        ensures no_file { IsOpen result → ⊥ }
        ensures no_problem { problem_of result ≡ None }
    {
        FileSource {
            rt,
            attached: Attached::Nothing,
            script: None,
            faults: 0,
            problem: None,
        }
    }

    /// What failed first, if anything did.
    pub fn problem(&self) -> Option<Problem>
        ensures { result ≡ problem_of self.now }
    {
        self.problem
    }

    // Counts a failure.
    fn fail(&mut self, reason: Reason) -> Failed
        ensures no_fewer { faults_of self.old ≤ faults_of self.new }
        ensures rises { Rises (faults_of self.old) (faults_of self.new) }
        ensures attached { self.new.attached ≡ self.old.attached }
        ensures script { self.new.script ≡ self.old.script }
        ensures noted { IsSome (problem_of self.new) }
    {
        self.faults = one_more(self.faults);
        if self.problem.is_none() {
            self.problem = Some(Problem {
                subject: Subject::Script,
                reason,
            });
        }
        Failed
    }
}

impl ScriptFile {
    fn take(rt: &HostRuntime, name: &str) -> Result<ScriptFile, Reason>
        ensures named { IfOk result (λ script. string_bytes script.name ≡ name.now) }
    {
        let file = File::open(rt, name)?;
        let name = String::from_str(rt.alloc(), name)?;
        Ok(ScriptFile { name, file })
    }

    fn read(&mut self, into: &mut [u8]) -> Result<usize, Reason>
        ensures within { IfOk result (λ n. n ≤ length into.old) }
        ensures name { self.new.name ≡ self.old.name }
    {
        for _ in 0..MOST_TRIES {
            match self.file.read(into) {
                Err(error) if error.kind() == ErrorKind::Interrupted => {}
                answer => return Ok(answer?),
            }
        }
        Err(Reason::Other(ErrorKind::Interrupted.into()))
    }
}

impl Source for FileSource {
    ghost left = { λ _. None };

    ghost attached = { names_of };

    ghost is_attached = { IsOpen };

    ghost faults = { faults_of };

    fn attach(&mut self, script: &str) -> Result<(), Failed>
        ensures attached { (names : List (List ℕ)) → names_of self.old names
            → names_of self.new (names ++ script.now ∷ []) }
        ensures is_attached { OnOk result (IsOpen self.new) }
        ensures named { OnOk result (IsNamed self.new script.now) }
        ensures faults { faults_of self.old ≤ faults_of self.new }
        ensures cause { IsErr result → Rises (faults_of self.old) (faults_of self.new) }
        ensures opened { IsOk result ↔ IsOpen self.new }
        ensures noted { IsErr result → IsSome (problem_of self.new) }
    {
        self.attached.add(self.rt.alloc(), script);
        self.script = None;
        match ScriptFile::take(&self.rt, script) {
            Ok(script) => {
                self.script = Some(script);
                Ok(())
            }
            Err(reason) => Err(self.fail(reason)),
        }
    }

    fn take(&mut self, into: &mut [u8]) -> Result<usize, Failed>
        ensures attached { (names : List (List ℕ)) → names_of self.old names
            → names_of self.new names }
        ensures is_attached { IsOpen self.old → IsOpen self.new }
        ensures named { (name : List ℕ) → IsNamed self.old name → IsNamed self.new name }
        ensures within { IfOk result (λ n. n ≤ length into.old) }
        ensures faults { faults_of self.old ≤ faults_of self.new }
        ensures cause { IsErr result → Rises (faults_of self.old) (faults_of self.new) }
        ensures opened { IsOk result → IsOpen self.old }
        ensures noted { IsErr result → IsSome (problem_of self.new) }
    {
        let answer = match &mut self.script {
            Some(script) => script.read(into),
            None => Err(Reason::NotAttached),
        };
        match answer {
            Ok(count) => Ok(count),
            Err(reason) => Err(self.fail(reason)),
        }
    }
}

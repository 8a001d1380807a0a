//! The host over real files.
ghost use Rattle.std.specs.Prelude.{None, [], ◌≡◌, ◌<◌, ◌≤◌, ◌+◌, ◌^◌, length, IfOk, OnOk, OnErr, IsOk, IsErr, IsSome, ◌↔◌};
ghost use Rattle.pl_disk.specs.Disk.{Calls, Rises, Says, with_attached};
ghost use Rattle.pl_files.specs.Files.{HasFiles, IsSettled, Awaits, Holds, view_of, AreNamed, disk_problem_of, say_problem_of, AwaitsIn, AreSynced, IsOneLost, HasLost};

use crate::front::{Front, may_be_store};
use crate::problem::one_more;
use crate::store_file::{StoreFile, resolve, sync_folder};
use crate::{Problem, Reason, Subject};
use pl_disk::{Area, Attached, Disk, Failed, Host};
use std::fs;
use std::io::{self, Write};

/// What the name of a store's second file has behind that of the first.
const ALT: &str = ".alt";

/// The files of a store, and the name that they were opened under.
#[derive(Drop)]
pub struct StoreFiles {
    name: String,
    a: StoreFile,
    b: StoreFile,
}

/// A host over the two files of a store, `STORE` and `STORE.alt`, and over standard output. Where
/// `STORE` is a link, both lie where it leads. It locks both files, so a second program on the same
/// store fails. Files that can't be those of a store are refused.
///
/// What a read gives is what the system shows. Where a sync failed in an earlier program, this may
/// differ from what the disk has, until the machine is started anew.
#[derive(Drop)]
pub struct FileHost {
    rt: HostRuntime,
    attached: Attached,
    files: Option<StoreFiles>,
    disk_faults: u64,
    say_faults: u64,
    disk_problem: Option<Problem>,
    say_problem: Option<Problem>,
}

impl StoreFiles {
    /// Opens and locks both files of the store and syncs them, or tells which failed. Files that
    /// can't be those of a store stay as they are.
    fn take(rt: &HostRuntime, store: &str) -> Result<StoreFiles, Problem>
        ensures named { IfOk result (AreNamed store.now) }
        ensures synced { IfOk result AreSynced }
    {
        let in_a = |reason: Reason| Problem::of(Area::A, reason);
        // Opened as a store of its own, the second file of one would damage that one.
        if store.ends_with(ALT) {
            return Err(in_a(Reason::SecondFile));
        }
        let name = String::from_str(rt.alloc(), store).map_err(|error| in_a(error.into()))?;
        let path = resolve(rt, store).map_err(|error| in_a(error.into()))?;
        if path.as_str().ends_with(ALT) {
            return Err(in_a(Reason::SecondFile));
        }
        refuse_alone(rt, path.as_str())?;
        let a = StoreFile::take(rt, path.as_str()).map_err(in_a)?;
        let b = take_beside(rt, path.as_str(), &a)?;
        let mut files = StoreFiles { name, a, b };
        files.sync()?;
        sync_folder(rt, path.as_str()).map_err(|error| in_a(error.into()))?;
        Ok(files)
    }

    fn file(&self, area: Area) -> &StoreFile {
        match area {
            Area::A => &self.a,
            Area::B => &self.b,
        }
    }

    fn write_at(&mut self, area: Area, at: u64, bytes: &[u8]) -> Result<(), Reason>
        ensures name { self.new.name ≡ self.old.name }
        ensures within { OnOk result (at + length bytes.now < 2 ^ 63) }
        ensures awaits { AwaitsIn area self.new }
        ensures lost { IsOneLost self.old → IsOneLost self.new }
    {
        match area {
            Area::A => self.a.write_at(at, bytes),
            Area::B => self.b.write_at(at, bytes),
        }
    }

    fn sync(&mut self) -> Result<(), Problem>
        ensures name { self.new.name ≡ self.old.name }
        ensures synced { OnOk result (AreSynced self.new) }
        ensures lost { OnErr result (IsOneLost self.new) }
        ensures stays_lost { IsOneLost self.old → IsErr result }
    {
        if let Err(reason) = self.a.sync() {
            return Err(Problem::of(Area::A, reason));
        }
        if let Err(reason) = self.b.sync() {
            return Err(Problem::of(Area::B, reason));
        }
        Ok(())
    }
}

// Refuses a second file that is no store's, where the first one isn't there: so none is made.
fn refuse_alone(rt: &HostRuntime, path: &str) -> Result<(), Problem> {
    match may_stand_alone(rt, path) {
        Ok(true) => Ok(()),
        Ok(false) => Err(Problem::of(Area::B, Reason::NotAStore)),
        Err(reason) => Err(Problem::of(Area::B, reason)),
    }
}

fn may_stand_alone(rt: &HostRuntime, path: &str) -> Result<bool, Reason> {
    let alt = format!(in rt.alloc(); "{path}{ALT}")?;
    if fs::exists(rt, path)? || !fs::exists(rt, alt.as_str())? {
        return Ok(true);
    }
    let front = StoreFile::take(rt, alt.as_str())?.front()?;
    Ok(may_be_store(Front::Unopened, front))
}

// The second file of the store with this first one. It isn't made beside one that is no store's.
fn take_beside(rt: &HostRuntime, path: &str, a: &StoreFile) -> Result<StoreFile, Problem> {
    let front = match a.front() {
        Ok(front) => front,
        Err(reason) => return Err(Problem::of(Area::A, reason)),
    };
    match take_alt(rt, path, front) {
        Ok(Some(b)) => Ok(b),
        Ok(None) => Err(Problem::of(odd_one(front), Reason::NotAStore)),
        Err(reason) => Err(Problem::of(Area::B, reason)),
    }
}

// Which of two files that can't be a store's is to blame, by the front of the first.
fn odd_one(a: Front) -> Area {
    match a {
        Front::Other => Area::A,
        Front::Open | Front::Unopened => Area::B,
    }
}

// The same, by what the front of the first file tells. None where the two can't be a store's.
fn take_alt(rt: &HostRuntime, path: &str, front: Front) -> Result<Option<StoreFile>, Reason> {
    let alt = format!(in rt.alloc(); "{path}{ALT}")?;
    if !fs::exists(rt, alt.as_str())? && !may_be_store(front, Front::Unopened) {
        return Ok(None);
    }
    let b = StoreFile::take(rt, alt.as_str())?;
    let is_store = may_be_store(front, b.front()?);
    Ok(if is_store { Some(b) } else { None })
}

impl FileHost {
    /// A host that has no files yet: each call of the disk fails until `attach` succeeded.
    pub fn new(rt: HostRuntime) -> FileHost
        ensures attached { (view_of result).attached [] }
        ensures disk_faults { (view_of result).disk_faults ≡ 0 }
        ensures say_faults { (view_of result).say_faults ≡ 0 }
        ensures no_files { HasFiles result → ⊥ }
        ensures no_disk_problem { disk_problem_of result ≡ None }
        ensures no_say_problem { say_problem_of result ≡ None }
    {
        FileHost {
            rt,
            attached: Attached::Nothing,
            files: None,
            disk_faults: 0,
            say_faults: 0,
            disk_problem: None,
            say_problem: None,
        }
    }

    /// What failed first of the disk, if anything did.
    pub fn disk_problem(&self) -> Option<Problem>
        ensures { result ≡ disk_problem_of self.now }
    {
        self.disk_problem
    }

    /// What failed first in printing, if anything did.
    pub fn say_problem(&self) -> Option<Problem>
        ensures { result ≡ say_problem_of self.now }
    {
        self.say_problem
    }

    // Counts a failure of the disk.
    fn fail(&mut self, problem: Problem) -> Failed
        ensures no_fewer { self.old.disk_faults ≤ self.new.disk_faults }
        ensures rises { Rises self.old.disk_faults self.new.disk_faults }
        ensures say_faults { self.new.say_faults ≡ self.old.say_faults }
        ensures attached { self.new.attached ≡ self.old.attached }
        ensures files { self.new.files ≡ self.old.files }
        ensures noted { IsSome (disk_problem_of self.new) }
    {
        self.disk_faults = one_more(self.disk_faults);
        if self.disk_problem.is_none() {
            self.disk_problem = Some(problem);
        }
        Failed
    }

    // Counts a failure to print.
    fn fail_to_say(&mut self, reason: Reason) -> Failed
        ensures attached { self.new.attached ≡ self.old.attached }
        ensures files { self.new.files ≡ self.old.files }
        ensures disk_faults { self.new.disk_faults ≡ self.old.disk_faults }
        ensures no_fewer { self.old.say_faults ≤ self.new.say_faults }
        ensures rises { Rises self.old.say_faults self.new.say_faults }
        ensures noted { IsSome (say_problem_of self.new) }
    {
        self.say_faults = one_more(self.say_faults);
        if self.say_problem.is_none() {
            self.say_problem = Some(Problem {
                subject: Subject::Output,
                reason,
            });
        }
        Failed
    }
}

impl Disk for FileHost {
    ghost view = { view_of };

    ghost lawful = { λ h told. absurd told };

    fn attach(&mut self, store: &str) -> Result<(), Failed>
        ensures call { Calls (with_attached store.now (view_of self.old)) (view_of self.new)
            result }
        ensures attached { OnOk result (view_of self.new).is_attached }
        ensures named { OnOk result (Holds store.now self.new) }
        ensures opened { IsOk result ↔ HasFiles self.new }
        ensures settled { OnOk result (IsSettled self.new) }
        ensures noted { IsErr result → IsSome (disk_problem_of self.new) }
    {
        self.attached.add(self.rt.alloc(), store);
        self.files = None;
        match StoreFiles::take(&self.rt, store) {
            Ok(files) => {
                self.files = Some(files);
                Ok(())
            }
            Err(problem) => Err(self.fail(problem)),
        }
    }

    fn len(&mut self, area: Area) -> Result<u64, Failed>
        ensures call { Calls (view_of self.old) (view_of self.new) result }
        ensures bound { IfOk result (λ n. n < 2 ^ 63) }
        ensures opened { IsOk result → HasFiles self.old }
        ensures noted { IsErr result → IsSome (disk_problem_of self.new) }
    {
        let answer = match &self.files {
            Some(files) => files.file(area).len(),
            None => Err(Reason::NotAttached),
        };
        match answer {
            Ok(len) => Ok(len),
            Err(reason) => Err(self.fail(Problem::of(area, reason))),
        }
    }

    fn read_at(&mut self, area: Area, at: u64, into: &mut [u8]) -> Result<(), Failed>
        ensures call { Calls (view_of self.old) (view_of self.new) result }
        ensures opened { IsOk result → HasFiles self.old }
        ensures noted { IsErr result → IsSome (disk_problem_of self.new) }
    {
        let answer = match &self.files {
            Some(files) => files.file(area).read_at(at, into),
            None => Err(Reason::NotAttached),
        };
        match answer {
            Ok(()) => Ok(()),
            Err(reason) => Err(self.fail(Problem::of(area, reason))),
        }
    }

    fn write_at(&mut self, area: Area, at: u64, bytes: &[u8]) -> Result<(), Failed>
        ensures call { Calls (view_of self.old) (view_of self.new) result }
        ensures within { OnOk result (at + length bytes.now < 2 ^ 63) }
        ensures opened { IsOk result → HasFiles self.old }
        ensures noted { IsErr result → IsSome (disk_problem_of self.new) }
        ensures awaits { Awaits area self.new }
        ensures lost { HasLost self.old → HasLost self.new }
    {
        let answer = match &mut self.files {
            Some(files) => files.write_at(area, at, bytes),
            None => Err(Reason::NotAttached),
        };
        match answer {
            Ok(()) => Ok(()),
            Err(reason) => Err(self.fail(Problem::of(area, reason))),
        }
    }

    fn sync(&mut self) -> Result<(), Failed>
        ensures call { Calls (view_of self.old) (view_of self.new) result }
        ensures settled { OnOk result (IsSettled self.new) }
        ensures lost { IsErr result → HasFiles self.old → HasLost self.new }
        ensures stays_lost { HasLost self.old → IsErr result }
        ensures noted { IsErr result → IsSome (disk_problem_of self.new) }
    {
        let answer = match &mut self.files {
            Some(files) => files.sync(),
            None => Err(Problem::of(Area::A, Reason::NotAttached)),
        };
        match answer {
            Ok(()) => Ok(()),
            Err(problem) => Err(self.fail(problem)),
        }
    }
}

// Writes all of it to standard output.
fn print(rt: &HostRuntime, text: &[u8]) -> io::Result<()> {
    let mut output = rt.stdout();
    output.write_all(text)?;
    output.flush()
}

impl Host for FileHost {
    fn say(&mut self, text: &[u8]) -> Result<(), Failed>
        ensures says { Says text.now (view_of self.old) (view_of self.new) result }
        ensures noted { IsErr result → IsSome (say_problem_of self.new) }
    {
        match print(&self.rt, text) {
            Ok(()) => Ok(()),
            Err(error) => Err(self.fail_to_say(error.into())),
        }
    }
}

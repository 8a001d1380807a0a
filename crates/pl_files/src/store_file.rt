//! One file of a store.
ghost use Rattle.std.specs.Prelude.{◌≡◌, ◌≢◌, ◌+◌, ◌^◌, ◌<◌, length, IfOk, IsErr, OnOk, OnErr};
ghost use Rattle.pl_files.specs.Files.{IsSynced, IsLost};

use crate::Reason;
use crate::front::{FRONT_LEN, Front};
use std::fs::{self, File};
use std::io::{self, ErrorKind};
use std::os::fd::AsRawFd;
use std::os::unix::fs::{FileExt, MetadataExt};
use std::path::{Path, PathBuf};

/// The greatest length of a file in bytes.
const MAX_LEN: u64 = i64::MAX as u64;

/// How many links may lead from one to the next.
const MOST_LINKS: u32 = 40;

/// The greatest descriptor of a standard stream.
const MAX_STANDARD_STREAM: i32 = 2;

/// What a sync has left to do for a file.
#[derive(Clone, Copy, Debug, PartialEq, Eq)]
pub enum Unsynced {
    Nothing,
    /// Bytes were written over.
    Bytes,
    /// The file may be new, or longer than before.
    Length,
    /// A sync failed. The system may have dropped what it couldn't write, so no later sync
    /// answers for it.
    Lost,
}

impl Unsynced {
    /// After a write, which may have made the file longer.
    fn after_write(self, grows: bool) -> Unsynced
        ensures something { result ≢ Unsynced.Nothing }
        ensures lost { self ≡ Unsynced.Lost → result ≡ Unsynced.Lost }
    {
        match self {
            Unsynced::Nothing | Unsynced::Bytes if !grows => Unsynced::Bytes,
            Unsynced::Nothing | Unsynced::Bytes | Unsynced::Length => Unsynced::Length,
            Unsynced::Lost => Unsynced::Lost,
        }
    }
}

/// An open file of a store, whose lock this program holds.
#[derive(Drop)]
pub struct StoreFile {
    file: File,
    // The file is at least so long.
    len: u64,
    unsynced: Unsynced,
}

impl StoreFile {
    /// Opens the file and locks it. An absent one is made. It fails where another program holds the
    /// lock, or the file has more than one name, and then it stays as it is.
    pub fn take(rt: &HostRuntime, path: &str) -> Result<StoreFile, Reason> {
        let file = open(rt, path)?;
        file.try_lock()?;
        let found = file.metadata()?;
        if !found.is_file() {
            return Err(Reason::NotAFile);
        }
        // Under its other name the second file of the store would be another one.
        if found.nlink() > 1 {
            return Err(Reason::Linked);
        }
        Ok(StoreFile {
            file,
            len: found.len(),
            unsynced: Unsynced::Length,
        })
    }

    /// The length in bytes.
    pub fn len(&self) -> Result<u64, Reason>
        ensures { IfOk result (λ n. n < 2 ^ 63) }
    {
        let len = self.file.metadata()?.len();
        if len > MAX_LEN {
            return Err(Reason::TooLong);
        }
        Ok(len)
    }

    /// What its first bytes tell.
    pub fn front(&self) -> Result<Front, Reason> {
        let len = self.len()?;
        let mut bytes = [0; FRONT_LEN];
        let known = if len < FRONT_LEN as u64 {
            len as usize
        } else {
            FRONT_LEN
        };
        self.read_at(0, &mut bytes[..known])?;
        Ok(Front::of(len, &bytes[..known]))
    }

    /// Fills the buffer with the bytes from `at` on. It fails where the file ends before.
    pub fn read_at(&self, at: u64, into: &mut [u8]) -> Result<(), Reason> {
        Ok(self.file.read_exact_at(into, at)?)
    }

    /// Writes all the bytes from `at` on. It fails where some are left and the system takes none.
    pub fn write_at(&mut self, at: u64, bytes: &[u8]) -> Result<(), Reason>
        ensures within { OnOk result (at + length bytes.now < 2 ^ 63) }
        ensures unsynced { self.new.unsynced ≢ Unsynced.Nothing }
        ensures lost { IsLost self.old → IsLost self.new }
    {
        let end = at.saturating_add(bytes.len() as u64);
        self.unsynced = self.unsynced.after_write(end > self.len);
        if end > MAX_LEN {
            return Err(Reason::NoRoom);
        }
        self.len = self.len.max(end);
        Ok(self.file.write_all_at(bytes, at)?)
    }

    /// Settles what was written. After a sync that failed each later one fails too.
    pub fn sync(&mut self) -> Result<(), Reason>
        ensures synced { OnOk result (IsSynced self.new) }
        ensures lost { OnErr result (IsLost self.new) }
        ensures stays_lost { IsLost self.old → IsErr result }
    {
        let answer = match self.unsynced {
            Unsynced::Nothing => Ok(()),
            Unsynced::Bytes => self.file.sync_data(),
            Unsynced::Length => self.file.sync_all(),
            Unsynced::Lost => Err(io::ErrorKind::Other.into()),
        };
        self.unsynced = match answer {
            Ok(()) => Unsynced::Nothing,
            Err(_) => Unsynced::Lost,
        };
        Ok(answer?)
    }
}

// What is meant for a standard stream that was closed must not land in the store.
fn open(rt: &HostRuntime, path: &str) -> io::Result<File> {
    let file = File::options()
        .read(true)
        .write(true)
        .create(true)
        .open(rt, path)?;
    if file.as_raw_fd() <= MAX_STANDARD_STREAM {
        return file.try_clone();
    }
    Ok(file)
}

/// The path with no link in it, also of a file that isn't there. Nothing is made.
pub(crate) fn resolve(rt: &HostRuntime, path: &str) -> io::Result<PathBuf> {
    match fs::canonicalize(rt, path) {
        Err(error) if error.kind() == ErrorKind::NotFound => resolve_absent(rt, path),
        found => found,
    }
}

// The same of a file that isn't there, which a link may lead to.
fn resolve_absent(rt: &HostRuntime, path: &str) -> io::Result<PathBuf> {
    let mut path = PathBuf::from_str(rt.alloc(), path)?;
    for _ in 0..MOST_LINKS {
        if !path.is_symlink(rt) {
            return in_folder(rt, path.as_path());
        }
        let target = path.read_link(rt)?;
        path.pop();
        path.push(target.as_str())?;
    }
    Err(ErrorKind::NotFound.into())
}

// The name of a file behind its folder, which has no link in it.
fn in_folder(rt: &HostRuntime, path: Path<'_>) -> io::Result<PathBuf> {
    let Some(name) = path.file_name() else {
        return Err(ErrorKind::NotFound.into());
    };
    // A path that ends with a slash is that of a folder.
    if !path.as_str().ends_with(name) {
        return Err(ErrorKind::NotFound.into());
    }
    let folder = match path.parent() {
        Some(folder) if !folder.as_str().is_empty() => folder.as_str(),
        _ => ".",
    };
    let mut found = fs::canonicalize(rt, folder)?;
    found.push(name)?;
    Ok(found)
}

/// Settles the names in the folder of this file.
pub(crate) fn sync_folder(rt: &HostRuntime, path: &str) -> io::Result<()> {
    let folder = match Path::new(path).parent() {
        Some(folder) => folder.as_str(),
        None => "/",
    };
    File::open(rt, folder)?.sync_all()
}

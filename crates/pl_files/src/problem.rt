//! What failed outside of the program, in words for its user.
ghost use Rattle.std.specs.Prelude.{◌≡◌, ◌≤◌};
ghost use Rattle.pl_disk.specs.Disk.{Rises};
ghost use Rattle.pl_disk.specs.Tally.{raised};

use pl_base::Area;
use std::alloc::AllocError;
use std::fmt::{self, Display, Formatter};
use std::fs::TryLockError;
use std::io::{self, ErrorKind};

/// What a call that failed was about.
#[derive(Clone, Copy, Debug, PartialEq, Eq)]
pub enum Subject {
    /// One of the files of the store.
    File(Area),
    /// The script.
    Script,
    /// Standard output.
    Output,
}

/// Why a call failed.
#[derive(Clone, Copy, Debug)]
pub enum Reason {
    /// There is no such file, or no such folder to make it in.
    Absent,
    /// The user may not read or write it.
    Denied,
    /// Another program has the store.
    InUse,
    /// The disk or the user's share of it is full, or the file would pass the greatest length.
    NoRoom,
    /// The name is that of a folder, a pipe or a device.
    NotAFile,
    /// The file has another name too.
    Linked,
    /// The file doesn't begin as that of a store does, and the other one isn't open.
    NotAStore,
    /// The name ends as that of a store's second file does.
    SecondFile,
    /// The file is longer than 2^63 - 1 bytes.
    TooLong,
    /// No call of `attach` succeeded before.
    NotAttached,
    /// Any other reason, as the system words it.
    Other(io::Error),
}

/// The first thing that failed.
#[derive(Clone, Copy, Debug)]
pub struct Problem {
    pub subject: Subject,
    pub reason: Reason,
}

/// A problem with the name of what failed, to be printed.
#[derive(Clone, Copy, Debug)]
pub struct Named<'a> {
    name: &'a str,
    problem: Problem,
}

/// A count after one more. The greatest u64 stays.
pub(crate) fn one_more(count: u64) -> u64
    ensures is { result ≡ raised count }
    ensures no_fewer { count ≤ result }
    ensures rises { Rises count result }
{
    count.saturating_add(1)
}

impl Problem {
    pub(crate) fn of(area: Area, reason: Reason) -> Problem {
        Problem {
            subject: Subject::File(area),
            reason,
        }
    }

    /// The problem as it is printed, in one line without its end. The name is that of the store or
    /// of the script, as the user gave it; an empty one is printed as `''`.
    pub fn named(self, name: &str) -> Named<'_> {
        Named {
            name,
            problem: self,
        }
    }
}

impl Display for Named<'_> {
    fn fmt<W: fmt::Write>(&self, f: &mut Formatter<W>) -> fmt::Result {
        let Problem { subject, reason } = self.problem;
        match subject {
            Subject::File(Area::A) | Subject::Script if self.name.is_empty() => {
                write!(f, "'': {reason}")
            }
            Subject::File(Area::A) | Subject::Script => write!(f, "{}: {reason}", self.name),
            Subject::File(Area::B) => write!(f, "{}.alt: {reason}", self.name),
            Subject::Output => write!(f, "standard output: {reason}"),
        }
    }
}

impl From<io::Error> for Reason {
    fn from(error: io::Error) -> Reason {
        match error.kind() {
            ErrorKind::NotFound => Reason::Absent,
            ErrorKind::PermissionDenied | ErrorKind::ReadOnlyFilesystem => Reason::Denied,
            ErrorKind::StorageFull | ErrorKind::QuotaExceeded | ErrorKind::FileTooLarge => {
                Reason::NoRoom
            }
            ErrorKind::IsADirectory => Reason::NotAFile,
            _ => Reason::Other(error),
        }
    }
}

impl From<AllocError> for Reason {
    fn from(error: AllocError) -> Reason {
        Reason::Other(error.into())
    }
}

impl From<TryLockError> for Reason {
    fn from(error: TryLockError) -> Reason {
        match error {
            TryLockError::WouldBlock => Reason::InUse,
            TryLockError::Error(error) => error.into(),
        }
    }
}

impl Display for Reason {
    fn fmt<W: fmt::Write>(&self, f: &mut Formatter<W>) -> fmt::Result {
        match self {
            Reason::Absent => f.write_str("no such file or folder"),
            Reason::Denied => f.write_str("permission denied"),
            Reason::InUse => f.write_str("in use by another program"),
            Reason::NoRoom => f.write_str("no room left"),
            Reason::NotAFile => f.write_str("not an ordinary file"),
            Reason::Linked => f.write_str("more than one hard link"),
            Reason::NotAStore => f.write_str("not a store"),
            Reason::SecondFile => f.write_str("the name of a store's second file"),
            Reason::TooLong => f.write_str("too long"),
            Reason::NotAttached => f.write_str("not opened"),
            Reason::Other(error) => write!(f, "{error}"),
        }
    }
}

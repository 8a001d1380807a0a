//! How sessions, commands and scripts end.

ghost use Rattle.std.specs.Prelude.{◌≡◌};
ghost use Rattle.pl_session.specs.Halts.{start_fail_of};
ghost use Rattle.pl_session.specs.declared.halt.StartFail.TheVariants as start;

use pl_base::{Area, Memory};
use pl_frames::FrameFail;
pub use pl_port::pl_engine::Stop;

/// Why a store wasn't opened.
#[derive(Clone, Copy, Debug, PartialEq, Eq)]
pub enum StartFail {
    /// A call of the disk failed.
    Disk,
    /// The store is malformed at this byte of the area's file, counted from 0.
    Damaged { area: Area, at: u64 },
    Memory,
}

impl From<Memory> for StartFail {
    ghost from_gives = { λ _ e. e ≡ start.Memory };

    fn from(_: Memory) -> Self {
        StartFail::Memory
    }
}

impl From<FrameFail> for StartFail {
    ghost from_gives = { λ f e. e ≡ start_fail_of f };

    fn from(fail: FrameFail) -> Self {
        match fail {
            FrameFail::Fault => StartFail::Disk,
            FrameFail::Damaged { area, at } => StartFail::Damaged { area, at },
            FrameFail::Memory => StartFail::Memory,
        }
    }
}

/// Why a command or a script didn't run to its end.
#[derive(Clone, Copy, Debug, PartialEq, Eq)]
pub enum Halt {
    /// The session had stopped before, for this reason. Nothing was done.
    Closed(Stop),
    /// The session stopped now, and isn't used again: the store is opened anew. What was committed
    /// stands. Where the disk failed, the commit that was made then is stored or isn't; where the
    /// reply behind it was printed it is, and the database was to be written anew. Where printing
    /// failed, a line wasn't printed wholly.
    Stopped(Stop),
}

/// How a command ended.
#[derive(Clone, Copy, Debug, PartialEq, Eq)]
pub enum Outcome {
    Fine,
    /// A command was answered with an error. What it did since its last commit is undone, and it is
    /// the last that ran.
    Errored,
}

/// How a script ended.
#[derive(Clone, Copy, Debug, PartialEq, Eq)]
pub enum Ended {
    /// All its commands were answered.
    Whole,
    /// The last command that was answered got an error, and the script stops there.
    AtError,
}

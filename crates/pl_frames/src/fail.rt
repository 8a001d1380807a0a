//! Why a call over the frames of an area fails.

ghost use Rattle.std.specs.Prelude.{◌≡◌};
ghost use Rattle.pl_frames.specs.declared.fail.FrameFail.TheVariants.{Fault, Memory};

use pl_base::Area;
use pl_disk::Failed;
use std::alloc::{AllocError, AllocFailed};

/// Why a call failed.
#[derive(Clone, Copy, Debug, PartialEq, Eq)]
pub enum FrameFail {
    /// A call of the disk failed.
    Fault,
    /// The area is malformed. `at` is a byte of its file, counted from 0: the gate of the area or of
    /// the frame that isn't as it has to be.
    Damaged { area: Area, at: u64 },
    /// There was no memory.
    Memory,
}

impl From<Failed> for FrameFail {
    ghost from_gives = { λ _ e. e ≡ Fault };

    fn from(_: Failed) -> Self {
        FrameFail::Fault
    }
}

impl From<AllocError> for FrameFail {
    ghost from_gives = { λ _ e. e ≡ Memory };

    fn from(_: AllocError) -> Self {
        FrameFail::Memory
    }
}

impl<T: Drop> From<AllocFailed<T>> for FrameFail {
    ghost from_gives = { λ _ e. e ≡ Memory };

    fn from(_: AllocFailed<T>) -> Self {
        FrameFail::Memory
    }
}

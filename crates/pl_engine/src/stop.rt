//! Why the engine stops.

ghost use Rattle.std.specs.Prelude.{◌≡◌};
ghost use Rattle.pl_engine.specs.declared.stop.Stop.TheVariants as stop;

use pl_base::Memory;
use std::alloc::AllocError;

/// Why the engine stopped within a command. It isn't used again.
#[derive(Clone, Copy, Debug, PartialEq, Eq)]
pub enum Stop {
    /// A call of the disk failed. What was to be committed is stored or isn't.
    Disk,
    /// What was to be printed wasn't printed wholly.
    Say,
    Memory,
}

impl From<AllocError> for Stop {
    ghost from_gives = { λ _ e. e ≡ stop.Memory };

    fn from(_: AllocError) -> Self {
        Stop::Memory
    }
}

impl From<Memory> for Stop {
    ghost from_gives = { λ _ e. e ≡ stop.Memory };

    fn from(_: Memory) -> Self {
        Stop::Memory
    }
}

//! How runs of the program end, and their statuses.

ghost use Rattle.std.specs.Prelude.{◌≡◌};
ghost use Rattle.pl_cli.specs.Endings.{status_of};

/// How a run ended. What was committed before the end stays.
#[derive(Clone, Copy, Debug, PartialEq, Eq)]
pub enum Ending {
    /// The script was read to its end, and all its replies are printed.
    Whole,
    /// The words are no valid line.
    Usage,
    /// The script was left at its first error, as the line asks. All up to it is printed.
    AtError,
    /// A call of the disk failed.
    Disk,
    /// A call of the source failed.
    Source,
    /// Printing failed.
    Say,
    /// The store is malformed. The line that says where is printed.
    Damaged,
    /// The script is longer than 16 MiB, isn't UTF-8 or has a zero byte.
    Refused,
    /// There was no memory.
    Memory,
}

impl Ending {
    /// The status that the program answers to the system.
    pub fn status(self) -> u8
        ensures { result ≡ status_of self }
    {
        match self {
            Ending::Whole => 0,
            Ending::Usage => 2,
            Ending::AtError => 3,
            Ending::Disk => 4,
            Ending::Source => 5,
            Ending::Say => 6,
            Ending::Damaged => 7,
            Ending::Refused => 8,
            Ending::Memory => 9,
        }
    }
}

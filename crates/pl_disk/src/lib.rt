//! The outside of the program: a store of two files, what is printed, and where the script comes
//! from. Each is a trait, with an honest implementation in memory beside it.
#![tactic(auto)]

mod attached;
mod device;
mod memory;
mod source;
mod untold;

pub use attached::Attached;
pub use device::{Disk, Failed, Host};
pub use memory::{MemoryHost, MemorySource, Pick};
pub use pl_base::Area;
pub use source::Source;
pub use untold::UntoldHost;

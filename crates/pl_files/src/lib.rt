//! The host and the script of the program over real files. Of what the files hold nothing is
//! claimed, only how often a call failed.
#![tactic(auto)]

mod front;
mod host;
mod problem;
mod source;
mod store_file;

pub use host::FileHost;
pub use problem::{Named, Problem, Reason, Subject};
pub use source::FileSource;

//! The program: its words, its store, its script, and the commands.
#![tactic(auto)]

mod chain;
mod ending;
mod line;
mod program;
mod reading;

pub use chain::joins;
pub use ending::Ending;
pub use line::{Line, WordsFail, read_words};
pub use pl_files::{FileHost, FileSource, Problem};
pub use pl_session;
pub use program::{Finish, refuse_words, run};

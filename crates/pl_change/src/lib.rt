//! What INSERT, UPDATE and DELETE do to a database.
#![tactic(auto)]

mod asking;
mod at_start;
mod by_key;
mod command;
mod commands;
mod evaluation;
mod rows;
mod writing;

pub use at_start::{Copied, Copies, copy_row, copy_tables};
pub use command::Command;
pub use commands::change;
pub use pl_inside;
pub use pl_journal;
pub use pl_journal::{Candidates, candidates_for, pl_define};
pub use pl_targets::{pl_names, pl_scope};

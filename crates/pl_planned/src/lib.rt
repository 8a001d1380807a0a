//! A journal with what statements were resolved to over its objects, which is kept as long as these
//! are the same.
#![tactic(auto)]

mod journal;
mod marks;
mod plans;

pub use journal::PlannedJournal;
pub use pl_journal;
pub use pl_plans::pl_targets;

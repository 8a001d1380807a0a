//! A database that keeps its rules, and the operations by which it was changed since the last
//! commit.
#![tactic(auto)]

mod applying;
mod by_key;
mod defining;
mod journal;
mod lending;
mod marks;
mod spelling;
mod whole;
mod writing;

pub use by_key::{Candidates, candidates_for};
pub use journal::Journal;
pub use pl_define;
pub use whole::whole_leads_to_itself;

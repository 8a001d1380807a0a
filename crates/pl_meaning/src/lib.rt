//! What has to be believed: what a store and a script mean, and what may be found after a crash. The
//! definitions stand in `specs/`; every contract above cites them.
#![tactic(auto)]

mod examples;
mod script;

pub use examples::examples_hold;
pub use pl_change;
pub use pl_change::{pl_define, pl_inside, pl_journal, pl_names, pl_scope};
pub use script::one_trace;

//! What statements of bodies do, what calls of routines do, and what a session does with commands.
//! The definitions stand in `specs/`; here are the types of what they answer.
#![tactic(auto)]

mod examples;
mod laws;
mod outcome;
mod session;

pub use examples::examples_hold;
pub use laws::{
    calls_end, handlers_begin, parameters_have_values, protection_keeps, runs_join,
    savepoints_are_found, steps_end_all, steps_end_at_any_depth,
};
pub use outcome::Outcome;
pub use pl_meaning::{pl_change, pl_define, pl_inside, pl_journal, pl_names, pl_scope};
pub use session::{Mode, Reply};

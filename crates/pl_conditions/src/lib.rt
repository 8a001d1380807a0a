//! Conditions, and the errors that they match: PostgreSQL manual, "PL/pgSQL", "Trapping Errors".
#![tactic(auto)]

mod codes;
mod matching;

pub use codes::{code_of, code_or_name};
pub use matching::matches_one;
pub use pl_world;

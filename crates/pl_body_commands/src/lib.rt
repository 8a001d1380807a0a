//! Commands of SQL in bodies, and what stands before LOOP: PostgreSQL manual, "Basic Statements" and
//! "Control Structures".
#![tactic(auto)]

mod commands;
mod loops;
mod marks;
mod trees;

pub use commands::command;
pub use loops::for_head;

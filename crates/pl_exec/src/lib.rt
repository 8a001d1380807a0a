//! Runs statements of every form and bodies of routines, and the bodies of those that expressions
//! call.
#![tactic(auto)]

mod bodies;
mod commands;
mod forms;
mod holding;
mod running;
mod simple;
mod tasks;

pub use bodies::Bodies;
pub use pl_world;
pub use pl_world::pl_journal;
pub use running::run;

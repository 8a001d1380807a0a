//! Commands over a store: each is read, done by the engine, committed, and then answered.
#![tactic(auto)]

mod answering;
mod halt;
mod keeping;
mod opening;
mod script;
mod state;

pub use halt::{Ended, Halt, Outcome, StartFail, Stop};
pub use state::SessionState;

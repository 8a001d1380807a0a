//! Commands of a script over an engine: each is done, its reply is made ready, and then what it did
//! is committed, or undone where it failed. Notices and commits go to a port; the reply is handed
//! back.
#![tactic(auto)]

mod answers;
mod changing;
mod defining;
mod grids;
mod performing;
mod replies;
mod resolving;
mod running;
mod selecting;
mod settling;

pub use answers::{Answer, command, refuse};
pub use performing::perform;
pub use pl_control::pl_engine;
pub use pl_world;
pub use replies::reply_lines;
pub use settling::settle;

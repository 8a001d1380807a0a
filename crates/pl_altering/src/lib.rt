//! INSERT, UPDATE and DELETE, as commands and as statements of bodies. Their expressions may call
//! routines, so a change goes row by row, over copies of what its rows read. The rows of a query
//! that are added as they are need no copies.
#![tactic(auto)]

mod altering;
mod assigning;
mod changing;
mod command;
mod keeping;
mod reading;
mod resolving;
mod rows;
mod running;
mod showing;
mod taking;

pub use altering::alter;
pub use changing::change;
pub use pl_querying;
pub use pl_targets;

//! The keeper of a store: it gives the operations that the store's frames spell, and puts another
//! one behind them. Whatever moment a crash comes at, the store opens to the database from before a
//! call or to the one after it.
#![tactic(auto)]

mod areas;
mod batch;
mod head;
mod keeper;
mod reader;
#[cfg(test)]
mod tests;

pub use batch::Batch;
pub use keeper::Keeper;
pub use pl_frames::FrameFail;
pub use reader::{Reader, Step};

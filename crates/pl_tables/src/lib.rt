//! Tables: their rows by row id, and the undoing of what was changed.
#![tactic(auto)]

mod heap;
mod putting;
mod slots;
mod table;
mod tables;

pub use slots::Slot;
pub use table::{Table, TableFail};
pub use tables::Tables;

//! A database in memory with marks: places in time that it can go back to.
#![tactic(auto)]

mod database;
mod store;

pub use store::{Mark, Store};

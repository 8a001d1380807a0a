//! What has a history: the states before each change that can be undone, the oldest one first.
//!
//! `Pairs` says which place has which number, with a way back, so that each number is found without
//! a search. Undoing takes no memory.
#![tactic(auto)]

mod cells;
mod links;
mod pairs;

pub use pairs::Pairs;

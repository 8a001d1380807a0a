//! Copies of the trees of expressions, queries and commands: each tree is `Copied`, so that a copy
//! equals its source.
#![tactic(auto)]

mod commands;
mod copied;
mod trees;

pub use copied::{Copied, copy_list};

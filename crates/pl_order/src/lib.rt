//! Rows in order, each once, and as many as are wanted.
#![tactic(auto)]

mod cutting;
mod distinction;
mod numbers;
mod sorting;

pub use cutting::{count_of, cut};
pub use distinction::distinct;
pub use sorting::sort;

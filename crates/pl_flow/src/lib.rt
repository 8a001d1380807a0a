//! Statements that steer others: IF, CASE with conditions, EXIT, CONTINUE, and the declarations of
//! blocks. What stands inside of them is run by a function that is passed in.
#![tactic(auto)]

mod answered;
mod blocks;
mod branching;
mod cases;
mod jumps;

pub use answered::{is_true, number_of, truth_of};
pub use blocks::{block_end, declare};
pub use branching::branches;
pub use cases::{not_found, searched};
pub use jumps::jump;
pub use pl_engine;

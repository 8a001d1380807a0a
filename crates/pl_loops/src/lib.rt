//! LOOP, WHILE and FOR over numbers. What stands inside of them is run by a function that is passed
//! in.
#![tactic(auto)]

mod at_once;
mod loops;
mod numbers;
mod ranges;
mod turns;

pub use loops::{forever, while_true};
pub use numbers::{Numbers, for_numbers};

//! Whether an expression names a column, a variable or a query, by its tree alone.
#![tactic(auto)]

mod search;
mod sought;

pub use search::mentions;
pub use sought::Sought;

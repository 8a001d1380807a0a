//! How the value of an expression goes into a column.
#![tactic(auto)]

mod assigning;

pub use assigning::assigned;
pub use pl_typing;

//! Values of plain expressions, read off the tree as it is written: nothing is resolved, and nothing
//! is built. What is out of the ordinary, a failure too, is left to `pl_scope` and `pl_value`.
#![tactic(auto)]

mod direct;
mod known;
mod leaves;
mod operators;
mod search;

pub use direct::direct_value;
pub use known::Known;
pub use leaves::direct_variable;
pub use pl_scope;
pub use search::Spot;

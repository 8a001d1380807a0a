//! The order of values, and rows found by them: those that GROUP BY and DISTINCT take for one.
#![tactic(auto)]

mod keys;
mod marks;
mod order;

pub use keys::{Keys, is_same};
pub use order::{turned, value_or, value_order};

//! What operators, functions and casts give, from values to a value or a SQLSTATE.
#![tactic(auto)]

mod answer;
mod casts;
mod characters;
mod comparison;
mod functions;
mod like;
mod logic;
mod numbers;
mod operators;
mod reading;
mod types;

pub use answer::CalcFail;
pub use casts::{assign, cast};
pub use comparison::{compare, is_distinct};
pub use functions::{Builtin, apply, function, function_named};
pub use numbers::whole;
pub use operators::{binary, unary};
pub use pl_base::{Arithmetic, Comparison, Operator, Test};
pub use types::{type_of_nullif, type_of_op, unite};

/// The most bytes of a text.
pub const TEXT_LIMIT: usize = 1_048_576;

#[cfg(test)]
mod tests;

//! The grammar of the pieces of a body, and what its readers share: PostgreSQL manual, "PL/pgSQL".
//!
//! The readers stand in crates beside each other, and in the one above these.
#![tactic(auto)]

mod ahead;
mod parts;
mod steps;
mod values;

pub use ahead::sees_pair;
pub use parts::{ForSource, Piece, TypeSuffix};
pub use steps::{either, until};
pub use values::{
    becomes, boxed_expression, dynamic, expression_until, expressions, into, more_expressions,
    optional_expression, optional_into, optional_name, target, targets, using,
};

//! The values of expressions over rows that stand, generic in what makes calls of routines and in
//! what runs the queries inside.
#![tactic(auto)]

mod combined;
mod comparison;
mod expression;
mod membership;
mod number;
mod operand;
mod operations;
mod standing;
mod truth;
mod world;

pub use combined::{better, combine, is_in};
pub use expression::{passes, value, values};
pub use number::{Number, given_number};
pub use operand::{Lent, Operand, Unsettled};
pub use standing::{cell_at, leaf};
pub use truth::truth_in;
pub use world::{Caller, NoQueries, NoRoutines, Subqueries};

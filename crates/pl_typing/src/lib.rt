//! How types settle: the steps of which resolution is made.
//!
//! Nothing here goes down a tree or knows a name: each function takes parts that are resolved and
//! makes the whole, with the casts that nobody wrote, or says why there is none.
#![tactic(auto)]

mod aggregates;
mod calls;
mod cases;
mod casts;
mod chain;
mod fail;
mod functions;
mod headings;
mod literals;
mod operators;
mod subqueries;
mod typed;
mod unions;

pub use aggregates::{TypedAggregate, aggregate_named, aggregated};
pub use calls::{Arguments, fitted, row};
pub use cases::{Arms, operand_type, tested, tree_of};
pub use casts::cast;
pub use chain::Run;
pub use fail::ScopeFail;
pub use functions::{Signature, function_called};
pub use literals::literal;
pub use operators::{asked, between, compared, distinct, like, negated, null_if, paired, signed};
pub use subqueries::{exists, in_query, scalar};
pub use typed::{
    Typed, as_text_type, coerced, head_of, headed, limited, truth, truth_of, with_type,
};
pub use unions::{Listed, in_list, picked};

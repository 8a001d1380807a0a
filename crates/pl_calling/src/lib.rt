//! Expressions and queries within statements, and the calls of routines in them.
#![tactic(auto)]

mod arguments;
mod bodies;
mod callee;
mod calling;
mod converting;
mod copies;
mod ending;
mod evaluating;
mod lending;
mod querying;
mod start;
mod trial;
mod writing;

pub use arguments::evaluate_all;
pub use bodies::{MOST_CALLS, given};
pub use callee::{Found, find};
pub use calling::Calling;
pub use converting::{as_type, convert, run_state};
pub use copies::copies_for;
pub use ending::finish;
pub use evaluating::{evaluate, evaluate_beside};
pub use pl_engine;
pub use pl_names;
pub use querying::query;
pub use start::Start;
pub use trial::{Tried, try_rows};

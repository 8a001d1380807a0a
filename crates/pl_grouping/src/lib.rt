//! Resolved trees that are equal, and columns that stand outside GROUP BY.
#![tactic(auto)]

mod fronts;
mod queries;
mod same;
mod search;
mod ungrouped;
mod words;

pub use queries::{reads, reads_any};
pub use same::{same_aggregate, same_tree};
pub use search::{aggregate_place, place_of};

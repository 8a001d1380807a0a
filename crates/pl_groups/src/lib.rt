//! Groups of rows, and what aggregates make of their values as the rows come.
#![tactic(auto)]

mod column;
mod grouping;
mod joined;
mod tally;

pub use column::Column;
pub use grouping::{place_of_row, place_of_value};
pub use joined::Joined;
pub use tally::Tally;

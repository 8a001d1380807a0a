//! The rows of queries: PostgreSQL manual, "Queries".
#![tactic(auto)]

mod along;
mod cache;
mod draws;
mod ending;
mod groups;
mod listed;
mod presence;
mod query;
mod rows;
mod running;
mod sources;
mod store;
mod straight;
mod tables;
mod within;

pub use draws::lend_rows;
pub use rows::Rows;
pub use store::{Lender, Store};
pub use tables::Tables;
pub use within::{Queries, evaluate, run};

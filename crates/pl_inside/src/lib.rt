//! The queries inside of expressions: whether there are any, and the tables that queries read.
#![tactic(auto)]

mod asking;
mod reading;

pub use asking::{any_has_query, has_query, if_has_query};
pub use pl_query;
pub use reading::tables_read;

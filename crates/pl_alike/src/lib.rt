//! Whether two trees are the same: queries, expressions and the changes of rows.
//!
//! Both trees are walked together, and nothing is copied. Contracts say that trees are equal where
//! the answer is true. It is true for each two trees that are equal, but no contract says so.
#![tactic(auto)]

mod changes;
mod expressions;
mod forms;
mod lists;
mod parts;
mod queries;
mod words;

pub use changes::{is_same_delete, is_same_insert, is_same_update};
pub use expressions::is_same_expr;
pub use lists::all_same;
pub use queries::is_same_query;
pub use words::{same_name, same_type};

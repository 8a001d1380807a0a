//! INSERT, UPDATE and DELETE with their names and types resolved: the changes with places in place
//! of names, or the SQLSTATE of the first node that fails in reading order.
#![tactic(auto)]

mod change;
mod columns;
mod placing;
mod resolve;
mod values;

pub use change::{RChange, RRow, RRows, RWhat};
pub use pl_names;
pub use pl_scope;
pub use resolve::{resolve_delete, resolve_insert, resolve_update};

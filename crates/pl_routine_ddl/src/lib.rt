//! What CREATE FUNCTION and DROP FUNCTION do: the routine that a definition makes, or the SQLSTATE
//! of its first refusal.
#![tactic(auto)]

mod parameters;
mod routines;

pub use pl_ddl;
pub use pl_ddl::{pl_catalog, pl_typing};
pub use routines::{RoutineDefined, create_routine, drop_routine, form_refusal};

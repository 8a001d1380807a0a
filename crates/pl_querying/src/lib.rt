//! Queries as statements of bodies: PERFORM, SELECT INTO, and a query whose rows have nowhere to
//! go.
#![tactic(auto)]

mod filling;
mod performing;
mod queries;
mod refusing;
mod resolving;
mod selecting;

pub use filling::into;
pub use performing::perform;
pub use pl_asking;
pub use pl_asking::{pl_calling, pl_engine};
pub use queries::run_query;

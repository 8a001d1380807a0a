//! What statements were resolved to is kept, so that the same tree over the same objects and in the
//! same scope isn't resolved again.
//!
//! Contracts say that what is given is what the tree is resolved to, whether it was kept or not.
//! That it was kept shows in time alone. Where there is no memory for it, nothing is kept.
#![tactic(auto)]

mod plan;
mod plans;
mod scopes;
mod trees;

pub use pl_names;
pub use pl_scope;
pub use pl_targets;
pub use pl_typing;
pub use plan::Plan;
pub use plans::Plans;
pub use trees::Tree;

//! The port over a store: what an engine prints goes to a host, and what it commits to the host's
//! files.
#![tactic(auto)]

mod store;

pub use pl_engine;
pub use store::StorePort;

//! What the body of a routine is read as, and why a text is none.
#![tactic(auto)]

mod reading;

pub use pl_body_rules;
pub use reading::{BodyFail, read_body};

//! Statements that go elsewhere, those that say something, and the conditions of handlers: PostgreSQL
//! manual, "Control Structures" and "Errors and Messages".
#![tactic(auto)]

mod marks;
mod raise;
mod statements;

pub use raise::handler;
pub use statements::control;

//! Turns of loops whose statements only compute: assignments of numbers and truths to variables,
//! IF with such conditions over such statements, EXIT and CONTINUE of the loop itself, NULL, and
//! assignments of what functions give whose statements only compute too.
//! What names mean is resolved once for a loop, since such turns change nothing but values of
//! variables; then each turn is done over the variables at once, or nothing of it is.
#![tactic(auto)]

mod act;
mod acting;
mod callees;
mod calls;
mod making;
mod old;
mod quick;
mod reading;
mod scratch;
mod turning;

pub use quick::Quick;
pub use turning::Turned;

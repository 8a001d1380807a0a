//! The forms of bodies that a later part of the language brings.
#![tactic(auto)]

mod waiting;

pub use waiting::waits;

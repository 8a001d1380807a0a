//! The variables of the calls that run. Each call has its own, among them FOUND, and a ROW_COUNT.
#![tactic(auto)]

mod frames;

pub use frames::{Frame, Frames};

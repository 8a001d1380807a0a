//! The rules of a body that are tested when its routine is created: the first one that it breaks.
#![tactic(auto)]

mod breach;
mod conditions;
mod cursors;
mod declaring;
mod frames;
mod heading;
mod jumps;
mod raising;
mod returning;
mod rules;
mod simple;
mod targets;
mod variables;

pub use breach::Breach;
pub use declaring::Declared;
pub use frames::{Frame, FrameKind};
pub use heading::{Heading, Kind};
pub use returning::Returns;
pub use rules::first_breach;
pub use variables::{Variable, VariableKind, Variables};

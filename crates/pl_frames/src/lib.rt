//! The frames of one area of a store: how they are read, how one is put behind the others, and how
//! a new area is made. Whatever moment a crash comes at, each call leaves a file of this form.
#![tactic(auto)]

mod area;
mod bytes;
mod fail;
mod frame;

pub use area::{close_area, inspect, lay_header, open_area};
pub use fail::FrameFail;
pub use frame::{Frame, append, next_frame};

//! The bytes that are printed of a reply: results, tags, errors and notices, as psql writes them.
#![tactic(auto)]

mod forms;
mod grids;
mod messages;
mod reply;
mod tags;

pub use forms::text_of;
pub use grids::grid;
pub use messages::{fail, notice};
pub use reply::{Grid, Level, Tag};
pub use tags::tag;

//! Declarations, and statements on cursors: PostgreSQL manual, "Declarations" and "Cursors".
#![tactic(auto)]

mod cursors;
mod declarations;
mod marks;

pub use cursors::cursor;
pub use declarations::declared;

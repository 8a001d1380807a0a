//! What the pieces of a script and the stored texts of definitions are read as.
#![tactic(auto)]

mod definition;
mod reading;

pub use definition::{one_definition, read_definition, texts_mean_alike};
pub use reading::{Reading, one_reading, read_piece};

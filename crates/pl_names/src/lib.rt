//! What names mean where they stand, those of functions too, and what a FROM has: the steps of
//! resolution that look names up. Nothing here goes down a tree.
#![tactic(auto)]

mod found;
mod laws;
mod names;
mod routines;
mod same;
mod scope;
mod sources;

pub use found::Meaning;
pub use laws::without_routines_a_call_is_built_in;
pub use names::{
    is_column, known_types, name_means, named, parameter, parameter_means, qualified,
    qualified_means,
};
pub use routines::called;
pub use same::is_same;
pub use scope::{Level, Names, Scope, Seen, Shape, Source, Visible};
pub use sources::{
    COLUMN_LIMIT, Items, Sourced, columns_of, derived, every_column, table, together, valued,
};

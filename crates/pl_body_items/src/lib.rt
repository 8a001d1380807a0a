//! The tree of a body, put together from its items: PostgreSQL manual, "PL/pgSQL", "Structure of
//! PL/pgSQL" and "Control Structures".
//!
//! An item is what opens, divides or ends a statement that holds others, or a statement that holds
//! none. A body is a row of items.
#![tactic(auto)]

mod closing;
mod dividing;
mod items;
mod making;
mod parts;

pub use items::{Item, Spot, Word};
pub use making::{Making, one_tree};

//! What CREATE TABLE and DROP TABLE do: the object that a definition makes, or the SQLSTATE of its
//! first refusal.
#![tactic(auto)]

mod definition;
mod expressions;
mod laws;
mod making;
mod naming;
mod refusals;
mod written;

pub use definition::{Defined, define};
pub use laws::{definitions_suit_the_objects, one_text_makes_one_table};
pub use pl_assigning::pl_typing;
pub use pl_assigning::pl_typing::ScopeFail as DefineFail;
pub use pl_catalog;

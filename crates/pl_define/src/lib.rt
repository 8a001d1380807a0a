//! What the definition of a table or of a routine does to the catalogue, or the SQLSTATE of its
//! first refusal; and the body that the text of a DO is.
#![tactic(auto)]

mod body;
mod definition;
mod laws;

pub use body::read_do_text;
pub use definition::{Defined, define};
pub use laws::{definitions_suit_the_objects, one_body_of_a_text, one_text_makes_one_object};
pub use pl_reading;
pub use pl_routine_ddl::pl_typing;
pub use pl_routine_ddl::pl_typing::ScopeFail as DefineFail;

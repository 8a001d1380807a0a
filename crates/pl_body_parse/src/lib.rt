//! The body of a routine, read from its tokens: PostgreSQL manual, "PL/pgSQL", "Structure of
//! PL/pgSQL".
//!
//! The items of the body are read one after the other, each of pieces, and put together as a tree.
#![tactic(auto)]

mod items;
mod laws;
mod lines;
mod parse;
mod source;

pub use laws::one_body;
pub use parse::parse_body;

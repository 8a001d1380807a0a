//! Blocks with handlers: PostgreSQL manual, "PL/pgSQL", "Structure of PL/pgSQL", "Trapping Errors".
//! What stands inside of them is run by a function that is passed in.
#![tactic(auto)]

mod blocks;
mod catching;
mod protecting;

pub use blocks::block;
pub use pl_flow;

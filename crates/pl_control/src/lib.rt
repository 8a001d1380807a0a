//! Statements and commands that reach past one routine: COMMIT, ROLLBACK, CREATE and DROP, DO and
//! CALL.
#![tactic(auto)]

mod arguments;
mod callees;
mod calls;
mod commits;
mod definitions;
mod notices;
mod procedures;
mod texts;

pub use arguments::{Procedure, resolve_call};
pub use commits::{commit, roll_back};
pub use definitions::{define, define_text};
pub use pl_asking;
pub use pl_asking::pl_calling;
pub use pl_engine;
pub use procedures::{call, call_procedure};
pub use texts::do_text;

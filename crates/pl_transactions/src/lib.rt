//! What a session does with commands, over an engine whose marks are the savepoints: transaction
//! blocks, and each other command as a transaction of its own, in a block, or in a void one.
#![tactic(auto)]

mod beginning;
mod commands;
mod doing;
mod ending;
mod places;
mod replies;
mod savepoints;
mod transaction;

pub use commands::command;
pub use pl_command::Answer;
pub use replies::refuse;
pub use transaction::Transaction;

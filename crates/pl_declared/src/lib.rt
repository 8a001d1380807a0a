//! What names are resolved against in a call that runs: its blocks with their variables, which of
//! these take no null, and the type of the result.
#![tactic(auto)]

mod blocks;
mod parameters;
mod scopes;

pub use scopes::Static;

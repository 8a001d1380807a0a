//! Tests of `pl_typing`.
#![tactic(auto)]

#[cfg(test)]
mod tests;

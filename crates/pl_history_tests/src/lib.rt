//! Tests of `pl_history`.
#![tactic(auto)]

#[cfg(test)]
mod tests;

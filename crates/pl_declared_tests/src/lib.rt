//! Tests of `pl_declared`.
#![tactic(auto)]

#[cfg(test)]
mod tests;

//! Tests of `pl_variables`.
#![tactic(auto)]

#[cfg(test)]
mod tests;

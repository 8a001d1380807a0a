//! Tests of `pl_value`.
#![tactic(auto)]

#[cfg(test)]
mod tests;

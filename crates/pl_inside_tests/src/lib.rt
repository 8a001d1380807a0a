//! Tests of `pl_inside`.
#![tactic(auto)]

#[cfg(test)]
mod tests;

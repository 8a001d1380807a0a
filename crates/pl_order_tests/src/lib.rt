//! Tests of `pl_order`.
#![tactic(auto)]

#[cfg(test)]
mod tests;

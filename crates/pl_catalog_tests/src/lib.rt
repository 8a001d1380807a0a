//! Tests of `pl_catalog`.
#![tactic(auto)]

#[cfg(test)]
mod tests;

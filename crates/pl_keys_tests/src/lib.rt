//! Tests of `pl_keys`.
#![tactic(auto)]

#[cfg(test)]
mod tests;

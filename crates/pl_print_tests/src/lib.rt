//! Tests of `pl_print`.
#![tactic(auto)]

#[cfg(test)]
mod tests;

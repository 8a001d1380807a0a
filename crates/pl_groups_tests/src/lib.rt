//! Tests of `pl_groups`.
#![tactic(auto)]

#[cfg(test)]
mod tests;

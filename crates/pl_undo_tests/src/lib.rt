//! Tests of `pl_undo`.
#![tactic(auto)]

#[cfg(test)]
mod tests;

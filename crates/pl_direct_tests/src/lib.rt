//! Tests of values that are read off the tree.
#![tactic(auto)]

#[cfg(test)]
mod tests;

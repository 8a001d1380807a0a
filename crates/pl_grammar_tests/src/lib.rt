//! Tests of `pl_grammar`.
#![tactic(auto)]

#[cfg(test)]
mod tests;

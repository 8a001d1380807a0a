//! Tests of `pl_tables`.
#![tactic(auto)]

#[cfg(test)]
mod tests;

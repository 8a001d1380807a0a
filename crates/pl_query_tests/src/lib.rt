//! Tests of queries over one table, worked out by hand.
#![tactic(auto)]

#[cfg(test)]
mod tests;

//! Tests of rules of a row.
#![tactic(auto)]

#[cfg(test)]
mod tests;

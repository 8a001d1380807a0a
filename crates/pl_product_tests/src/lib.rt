//! Tests of products of rows.
#![tactic(auto)]

#[cfg(test)]
mod tests;

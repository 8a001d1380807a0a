//! Tests of changes of tables.
#![tactic(auto)]

#[cfg(test)]
mod tests;

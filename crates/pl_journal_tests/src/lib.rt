//! Tests of the journal of a database.
#![tactic(auto)]

#[cfg(test)]
mod lookups;
#[cfg(test)]
mod tests;

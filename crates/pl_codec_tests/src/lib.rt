//! Tests of `pl_codec`.
#![tactic(auto)]

#[cfg(test)]
mod tests;

//! Tests of the files of the operating system: a store, a script and what is printed.
#![tactic(auto)]

#[cfg(test)]
mod tests;

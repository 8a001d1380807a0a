//! Tests of the rules of bodies: small bodies with the rule that each breaks first.
#![tactic(auto)]

#[cfg(test)]
mod bodies;
#[cfg(test)]
mod verdicts;

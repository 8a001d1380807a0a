//! Tests of definitions: CREATE and DROP of tables and of functions with what is made, or the SQLSTATE
//! of the first refusal.
#![tactic(auto)]

#[cfg(test)]
mod cases;
#[cfg(test)]
mod definitions;
#[cfg(test)]
mod routine_cases;
#[cfg(test)]
mod routines;
#[cfg(test)]
mod words;

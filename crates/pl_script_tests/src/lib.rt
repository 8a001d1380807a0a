//! Tests of the program's body: whole scripts over hosts in memory, what a crash leaves of them,
//! and the words of command lines.
#![tactic(auto)]

#[cfg(test)]
mod areas;
#[cfg(test)]
mod blocks;
#[cfg(test)]
mod bodies;
#[cfg(test)]
mod changes;
#[cfg(test)]
mod checkpoints;
#[cfg(test)]
mod commands;
#[cfg(test)]
mod fallen;
#[cfg(test)]
mod functions;
#[cfg(test)]
mod pieces;
#[cfg(test)]
mod queries;
#[cfg(test)]
mod refusals;
#[cfg(test)]
mod report;
#[cfg(test)]
mod runs;
#[cfg(test)]
mod stops;
#[cfg(test)]
mod stores;
#[cfg(test)]
mod tables;
#[cfg(test)]
mod words;

//! Tests of resolution: queries with the columns that a PostgreSQL server gives them, or the SQLSTATE
//! of their first failing node; the places that names become; and changes of tables.
#![tactic(auto)]

#[cfg(test)]
mod calls;
#[cfg(test)]
mod cases;
#[cfg(test)]
mod changes;
#[cfg(test)]
mod columns;
#[cfg(test)]
mod places;
#[cfg(test)]
mod tables;
#[cfg(test)]
mod trees;

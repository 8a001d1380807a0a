//! The catalogue: tables, routines and triggers, in the order in which they were created.
#![tactic(auto)]

mod body;
mod catalog;
mod dependents;
mod entries;
mod lending;
mod object;

pub use body::RoutineBody;
pub use catalog::{Catalog, CatalogFail};
pub use lending::Objects;
pub use object::{
    Column, Events, Heading, Object, Routine, Rule, RuleKind, TableDef, TriggerDef, Which,
};

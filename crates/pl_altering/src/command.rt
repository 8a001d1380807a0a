//! What the rows of a change share.

use pl_base::Value;
use pl_query::{Queries, Store};
use pl_querying::pl_engine::Spot;
use pl_targets::RChange;
use pl_world::pl_change::Copies;
use std::alloc::Global;

/// A change while it runs. The calls in it are made from this spot, with room for so many steps.
#[derive(Clone, Copy)]
pub(crate) struct Command<'c> {
    pub alloc: Global,
    pub change: &'c RChange,
    /// The variables of the newest call, which stand around each row. Behind them stands an empty
    /// row, for aggregates.
    pub variables: &'c [Value],
    pub at: Spot,
    pub room: u64,
}

/// The queries inside of the expressions of a change, over copies of the tables that they read.
pub(crate) type Inside<'q, 's> = Queries<'q, Store<'s, Copies>>;

/// So many rows stand around each row of a change: the variables, and an empty one.
pub(crate) const AROUND: usize = 2;

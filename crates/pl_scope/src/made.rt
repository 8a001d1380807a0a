//! What resolution makes beside the tree.

ghost use Rattle.std.specs.Prelude.{◌≡◌};
ghost use Rattle.pl_scope.specs.Steps as spec;
ghost use Rattle.pl_scope.specs.Resolution.{nothing_made};

use pl_base::List;
use pl_resolved::{Head, RAggregate, RQuery};
use std::alloc::Global;
use std::mem;

/// The queries so far, each behind those inside it, and what is known of the one being read.
#[derive(Drop)]
pub struct Made {
    pub queries: List<RQuery>,
    pub current: Current,
}

/// The query that is being read, as far as it has been.
#[derive(Drop)]
pub struct Current {
    pub aggregates: List<RAggregate>,
    /// How many queries there were when it began. Those that it names have no lower number.
    pub since: usize,
}

/// A query that has been resolved: its number, and the columns of its rows.
#[derive(Drop)]
pub struct Inner {
    pub number: usize,
    pub heads: List<Head>,
}

impl Made {
    /// Nothing yet.
    pub fn new(alloc: Global) -> Made
        ensures { result ≡ nothing_made }
    {
        Made {
            queries: List::new(alloc),
            current: Current {
                aggregates: List::new(alloc),
                since: 0,
            },
        }
    }

    /// Begins a query, and gives what was known of the one around.
    pub fn begin(&mut self, alloc: Global) -> Current
        ensures outer { result ≡ self.old.current }
        ensures begun { self.new ≡ spec.begun self.old }
    {
        let current = Current {
            aggregates: List::new(alloc),
            since: self.queries.len(),
        };
        mem::replace(&mut self.current, current)
    }
}

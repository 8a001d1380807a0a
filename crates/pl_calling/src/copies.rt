//! The tables that queries read, copied: calls may change them while the queries are read.

ghost use Rattle.std.specs.Prelude.{◌≡◌, IfOk};
ghost use Rattle.pl_engine.specs.pl_change.Running.{copied};
ghost use Rattle.pl_engine.specs.Engines.{world};
ghost use Rattle.pl_engine.specs.pl_journal.Rows.{tables_of};
ghost use Rattle.pl_natural.specs.pl_query.Query.{rows};
ghost use Rattle.pl_value.specs.Meaning.{Calls};

use pl_base::List;
use pl_engine::Engine;
use pl_engine::pl_change::{Copies, copy_tables};
use pl_engine::pl_inside::tables_read;
use pl_resolved::RQuery;
use std::alloc::AllocError;

/// The tables that these queries read, as they are now.
pub fn copies_for<C>(engine: &Engine, queries: &List<RQuery>) -> Result<Copies, AllocError>
    ensures { IfOk result (λ copies. (calls : Calls C)
        → rows calls queries.now (copied copies.list.items)
        ≡ rows calls queries.now (tables_of (world engine.now).database.tables)) }
{
    let names = tables_read::<C>(engine.alloc(), queries.as_slice())?;
    copy_tables(engine.alloc(), engine.journal(), names.as_slice())
}

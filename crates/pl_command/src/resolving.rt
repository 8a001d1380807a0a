//! What commands resolve, in no routine.

ghost use Rattle.pl_control.specs.pl_engine.Engines.{world};
ghost use Rattle.pl_typing.specs.Resolved.{Gives};
ghost use Rattle.pl_world.specs.Resolving as spec;

use pl_altering::pl_targets::{RChange, resolve_delete, resolve_insert, resolve_update};
use pl_base::{Held, List};
use pl_bodies::Change;
use pl_control::pl_engine::Engine;
use pl_resolved::RQuery;
use pl_scope::resolve_query;
use pl_tree::Query;
use pl_typing::ScopeFail;

/// A query with those inside it.
#[tactic(auto, unfolding(pl_world::specs::Resolving::querying))]
pub(crate) fn query_of(engine: &Engine, q: &Query) -> Result<Held<List<RQuery>>, ScopeFail>
    ensures { Gives result (spec.querying q.now (world engine.now).database.objects
        (world engine.now).frame.static) }
{
    let catalog = engine.journal().catalog();
    Ok(Held::new(resolve_query(engine.alloc(), catalog, engine.declared().scope(), q)?))
}

/// A change of a table.
#[tactic(auto, unfolding(pl_world::specs::Resolving::changing))]
pub(crate) fn change_of(engine: &Engine, c: &Change) -> Result<Held<RChange>, ScopeFail>
    ensures { Gives result (spec.changing c.now (world engine.now).database.objects
        (world engine.now).frame.static) }
{
    let alloc = engine.alloc();
    let catalog = engine.journal().catalog();
    let scope = engine.declared().scope();
    match c {
        Change::Insert(i) => Ok(Held::new(resolve_insert(alloc, catalog, scope, i)?)),
        Change::Update(u) => Ok(Held::new(resolve_update(alloc, catalog, scope, u)?)),
        Change::Delete(d) => Ok(Held::new(resolve_delete(alloc, catalog, scope, d)?)),
    }
}

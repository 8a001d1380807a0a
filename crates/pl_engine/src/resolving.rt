//! What statements resolve, in the newest call: PostgreSQL manual, "PL/pgSQL", "Plan Caching".

ghost use Rattle.std.specs.Prelude.{◌≡◌};
ghost use Rattle.pl_engine.specs.Engines.{kept, world};
ghost use Rattle.pl_typing.specs.Resolved.{Gives};
ghost use Rattle.pl_world.specs.Resolving.{changing, querying, reading};

use crate::engine::Engine;
use crate::spot::Spot;
use pl_base::{List, Name, Shared};
use pl_bodies::Change;
use pl_planned::pl_targets::RChange;
use pl_resolved::RQuery;
use pl_tree::{Expr, Query};
use pl_typing::ScopeFail;
use pl_world::pl_scope::ResolvedExpr;

// By what the plans of statements are told apart before their trees are looked at: the routine and
// the ordinal, as one number.
fn place_of(routine: &Name, at: Spot) -> u64 {
    let mut place = u64::from(at.ordinal);
    for byte in routine.as_bytes() {
        place = place.wrapping_mul(31).wrapping_add(u64::from(*byte));
    }
    place
}

impl Engine {
    /// An expression of a statement of the newest call, resolved, of whatever type. It may be found
    /// as it was resolved before, where the objects, the variables in reach and the expression are
    /// the same.
    #[tactic(auto, unfolding(pl_world::specs::Resolving::reading))]
    pub fn resolve_expr(&mut self, at: Spot, e: &Expr) -> Result<Shared<ResolvedExpr>, ScopeFail>
        ensures gives { Gives result (reading e.now (world self.old).database.objects
            (world self.old).frame.static) }
        ensures is { world self.new ≡ world self.old }
        ensures keeps { kept self.new ≡ kept self.old }
    {
        let call = &self.frames.newest().call;
        let place = place_of(&call.routine, at);
        let scope = call.declared.scope();
        self.journal.resolve_expr(self.alloc, scope, place, e)
    }

    /// The query of a statement of the newest call, resolved with those inside it. It may be found
    /// as it was resolved before, where the objects, the variables in reach and the query are the
    /// same.
    #[tactic(auto, unfolding(pl_world::specs::Resolving::querying))]
    pub fn resolve_query(&mut self, at: Spot, q: &Query) -> Result<Shared<List<RQuery>>, ScopeFail>
        ensures gives { Gives result (querying q.now (world self.old).database.objects
            (world self.old).frame.static) }
        ensures is { world self.new ≡ world self.old }
        ensures keeps { kept self.new ≡ kept self.old }
    {
        let call = &self.frames.newest().call;
        let place = place_of(&call.routine, at);
        let scope = call.declared.scope();
        self.journal.resolve_query(self.alloc, scope, place, q)
    }

    /// The change of a statement of the newest call, resolved. It may be found as it was resolved
    /// before, where the objects, the variables in reach and the change are the same.
    #[tactic(auto, unfolding(pl_world::specs::Resolving::changing))]
    pub fn resolve_change(&mut self, at: Spot, c: &Change) -> Result<Shared<RChange>, ScopeFail>
        ensures gives { Gives result (changing c.now (world self.old).database.objects
            (world self.old).frame.static) }
        ensures is { world self.new ≡ world self.old }
        ensures keeps { kept self.new ≡ kept self.old }
    {
        let call = &self.frames.newest().call;
        let place = place_of(&call.routine, at);
        let scope = call.declared.scope();
        match c {
            Change::Insert(i) => self.journal.resolve_insert(self.alloc, scope, place, i),
            Change::Update(u) => self.journal.resolve_update(self.alloc, scope, place, u),
            Change::Delete(d) => self.journal.resolve_delete(self.alloc, scope, place, d),
        }
    }
}

//! What statements are resolved to over the objects now.

ghost use Rattle.std.specs.Prelude.{◌≡◌};
ghost use Rattle.pl_plans.specs.pl_scope.Resolution.{resolved_expr, resolved_query};
ghost use Rattle.pl_plans.specs.pl_targets.Changes.{resolved_delete, resolved_insert, resolved_update};
ghost use Rattle.pl_plans.specs.pl_typing.Resolved.{Gives};

use crate::PlannedJournal;
use pl_base::{List, Shared};
use pl_plans::pl_names::Scope;
use pl_plans::pl_scope::ResolvedExpr;
use pl_plans::pl_targets::RChange;
use pl_plans::pl_typing::ScopeFail;
use pl_resolved::RQuery;
use pl_tree::{Delete, Expr, Insert, Query, Update};
use std::alloc::Global;

impl PlannedJournal {
    /// As `Plans::expr`.
    pub fn resolve_expr(
        &mut self,
        alloc: Global,
        scope: &Scope,
        place: u64,
        e: &Expr,
    ) -> Result<Shared<ResolvedExpr>, ScopeFail>
        ensures gives { Gives result (resolved_expr self.old.now.objects scope.now e.now) }
        ensures is { self.new ≡ self.old }
    {
        let catalog = self.journal.catalog();
        self.plans.expr(alloc, catalog, scope, place, e)
    }

    /// As `Plans::query`.
    pub fn resolve_query(
        &mut self,
        alloc: Global,
        scope: &Scope,
        place: u64,
        q: &Query,
    ) -> Result<Shared<List<RQuery>>, ScopeFail>
        ensures gives { Gives result (resolved_query self.old.now.objects scope.now q.now) }
        ensures is { self.new ≡ self.old }
    {
        let catalog = self.journal.catalog();
        self.plans.query(alloc, catalog, scope, place, q)
    }

    /// As `Plans::insert`.
    pub fn resolve_insert(
        &mut self,
        alloc: Global,
        scope: &Scope,
        place: u64,
        i: &Insert,
    ) -> Result<Shared<RChange>, ScopeFail>
        ensures gives { Gives result (resolved_insert self.old.now.objects scope.now i.now) }
        ensures is { self.new ≡ self.old }
    {
        let catalog = self.journal.catalog();
        self.plans.insert(alloc, catalog, scope, place, i)
    }

    /// As `Plans::update`.
    pub fn resolve_update(
        &mut self,
        alloc: Global,
        scope: &Scope,
        place: u64,
        u: &Update,
    ) -> Result<Shared<RChange>, ScopeFail>
        ensures gives { Gives result (resolved_update self.old.now.objects scope.now u.now) }
        ensures is { self.new ≡ self.old }
    {
        let catalog = self.journal.catalog();
        self.plans.update(alloc, catalog, scope, place, u)
    }

    /// As `Plans::delete`.
    pub fn resolve_delete(
        &mut self,
        alloc: Global,
        scope: &Scope,
        place: u64,
        d: &Delete,
    ) -> Result<Shared<RChange>, ScopeFail>
        ensures gives { Gives result (resolved_delete self.old.now.objects scope.now d.now) }
        ensures is { self.new ≡ self.old }
    {
        let catalog = self.journal.catalog();
        self.plans.delete(alloc, catalog, scope, place, d)
    }
}

//! What the trees of statements were resolved to.

ghost use Rattle.pl_plans.specs.Plans.{AreMade, AreOver};
ghost use Rattle.pl_scope.specs.Resolution.{resolved_expr, resolved_query};
ghost use Rattle.pl_targets.specs.Changes.{resolved_delete, resolved_insert, resolved_update};
ghost use Rattle.pl_typing.specs.Resolved.{Gives};

use crate::plan::{Plan, find, keep};
use crate::trees::Tree;
use pl_base::{List, Shared};
use pl_catalog::Catalog;
use pl_names::Scope;
use pl_resolved::RQuery;
use pl_scope::ResolvedExpr;
use pl_targets::RChange;
use pl_tree::{Delete, Expr, Insert, Query, Update};
use pl_typing::ScopeFail;
use std::alloc::Global;

/// What the trees of statements were resolved to, over the same objects. Of each a place is told,
/// which is any number: it is sought among those of its place alone, and where no more are kept the
/// place chooses the one that makes room.
#[derive(Drop)]
pub struct Plans {
    pub(crate) exprs: Vec<Plan<Expr, ResolvedExpr>>,
    pub(crate) queries: Vec<Plan<Query, List<RQuery>>>,
    pub(crate) inserts: Vec<Plan<Insert, RChange>>,
    pub(crate) updates: Vec<Plan<Update, RChange>>,
    pub(crate) deletes: Vec<Plan<Delete, RChange>>,
    /// The scope that was copied last, which those that are kept next share where theirs is the
    /// same.
    pub(crate) newest: Option<Shared<Scope>>,
}

// What the tree is resolved to. It may be kept, if it wasn't.
fn resolve<T: Tree<R>, R: Drop>(
    alloc: Global,
    catalog: &Catalog,
    scope: &Scope,
    place: u64,
    tree: &T,
    plans: &mut Vec<Plan<T, R>>,
    newest: &mut Option<Shared<Scope>>,
) -> Result<Shared<R>, ScopeFail>
    requires made { AreMade T.meaning catalog.now.objects plans.old.items }
    ensures gives { Gives result (T.meaning catalog.now.objects scope.now tree.now) }
    ensures made { AreMade T.meaning catalog.now.objects plans.new.items }
{
    if let Some(made) = find(plans, place, scope, tree) {
        return Ok(made);
    }
    let made = Shared::new(alloc, tree.resolve(alloc, catalog, scope)?)?;
    let _kept = keep(alloc, plans, newest, place, scope, tree, &made);
    Ok(made)
}

impl Plans {
    /// Nothing is kept.
    pub fn new(alloc: Global) -> Plans
        ensures { (objects : _) → AreOver objects result }
    {
        Plans {
            exprs: Vec::new(alloc),
            queries: Vec::new(alloc),
            inserts: Vec::new(alloc),
            updates: Vec::new(alloc),
            deletes: Vec::new(alloc),
            newest: None,
        }
    }

    /// Nothing is kept any longer.
    pub fn clear(&mut self)
        ensures { (objects : _) → AreOver objects self.new }
    {
        self.exprs.clear();
        self.queries.clear();
        self.inserts.clear();
        self.updates.clear();
        self.deletes.clear();
        self.newest = None;
    }

    /// What the expression is resolved to; or the SQLSTATE of its first failing node in reading
    /// order.
    pub fn expr(
        &mut self,
        alloc: Global,
        catalog: &Catalog,
        scope: &Scope,
        place: u64,
        e: &Expr,
    ) -> Result<Shared<ResolvedExpr>, ScopeFail>
        requires over { AreOver catalog.now.objects self.old }
        ensures gives { Gives result (resolved_expr catalog.now.objects scope.now e.now) }
        ensures over { AreOver catalog.now.objects self.new }
    {
        resolve(
            alloc,
            catalog,
            scope,
            place,
            e,
            &mut self.exprs,
            &mut self.newest,
        )
    }

    /// What the query is resolved to; or the SQLSTATE of its first failing node in reading order.
    pub fn query(
        &mut self,
        alloc: Global,
        catalog: &Catalog,
        scope: &Scope,
        place: u64,
        q: &Query,
    ) -> Result<Shared<List<RQuery>>, ScopeFail>
        requires over { AreOver catalog.now.objects self.old }
        ensures gives { Gives result (resolved_query catalog.now.objects scope.now q.now) }
        ensures over { AreOver catalog.now.objects self.new }
    {
        resolve(
            alloc,
            catalog,
            scope,
            place,
            q,
            &mut self.queries,
            &mut self.newest,
        )
    }

    /// What the INSERT is resolved to; or the SQLSTATE of its first failing node in reading order.
    pub fn insert(
        &mut self,
        alloc: Global,
        catalog: &Catalog,
        scope: &Scope,
        place: u64,
        i: &Insert,
    ) -> Result<Shared<RChange>, ScopeFail>
        requires over { AreOver catalog.now.objects self.old }
        ensures gives { Gives result (resolved_insert catalog.now.objects scope.now i.now) }
        ensures over { AreOver catalog.now.objects self.new }
    {
        resolve(
            alloc,
            catalog,
            scope,
            place,
            i,
            &mut self.inserts,
            &mut self.newest,
        )
    }

    /// What the UPDATE is resolved to; or the SQLSTATE of its first failing node in reading order.
    pub fn update(
        &mut self,
        alloc: Global,
        catalog: &Catalog,
        scope: &Scope,
        place: u64,
        u: &Update,
    ) -> Result<Shared<RChange>, ScopeFail>
        requires over { AreOver catalog.now.objects self.old }
        ensures gives { Gives result (resolved_update catalog.now.objects scope.now u.now) }
        ensures over { AreOver catalog.now.objects self.new }
    {
        resolve(
            alloc,
            catalog,
            scope,
            place,
            u,
            &mut self.updates,
            &mut self.newest,
        )
    }

    /// What the DELETE is resolved to; or the SQLSTATE of its first failing node in reading order.
    pub fn delete(
        &mut self,
        alloc: Global,
        catalog: &Catalog,
        scope: &Scope,
        place: u64,
        d: &Delete,
    ) -> Result<Shared<RChange>, ScopeFail>
        requires over { AreOver catalog.now.objects self.old }
        ensures gives { Gives result (resolved_delete catalog.now.objects scope.now d.now) }
        ensures over { AreOver catalog.now.objects self.new }
    {
        resolve(
            alloc,
            catalog,
            scope,
            place,
            d,
            &mut self.deletes,
            &mut self.newest,
        )
    }
}

//! Trees whose names and types are resolved.

ghost use Rattle.std.specs.Prelude.{◌≡◌, true, List};
ghost use Rattle.pl_catalog.specs.declared.object.Object.{Object};
ghost use Rattle.pl_names.specs.declared.scope.Scope.{Scope as Names};
ghost use Rattle.pl_typing.specs.Resolved.{Gives, Resolved};

use pl_alike::{is_same_delete, is_same_expr, is_same_insert, is_same_query, is_same_update};
use pl_base::List;
use pl_catalog::Catalog;
use pl_copies::Copied;
use pl_names::Scope;
use pl_resolved::RQuery;
use pl_scope::{ResolvedExpr, resolve_expr, resolve_query};
use pl_targets::{RChange, resolve_delete, resolve_insert, resolve_update};
use pl_tree::{Delete, Expr, Insert, Query, Update};
use pl_typing::ScopeFail;
use std::alloc::Global;

/// A tree whose names and types are resolved, to an `R`.
pub trait Tree<R>: Copied {
    /// What it is resolved to over these objects, in this scope.
    ghost meaning: { List Object → Names → Self → Resolved R };

    /// Resolves it; or the SQLSTATE of its first failing node in reading order.
    fn resolve(&self, alloc: Global, catalog: &Catalog, scope: &Scope) -> Result<R, ScopeFail>
        ensures { Gives result (meaning catalog.now.objects scope.now self.now) };

    /// Whether the other one is the same tree.
    fn is_same(&self, other: &Self) -> bool
        ensures { result ≡ true → self.now ≡ other.now };
}

impl Tree<ResolvedExpr> for Expr {
    ghost use Rattle.pl_scope.specs.Resolution.{resolved_expr};

    ghost meaning = { resolved_expr };

    fn resolve(
        &self,
        alloc: Global,
        catalog: &Catalog,
        scope: &Scope,
    ) -> Result<ResolvedExpr, ScopeFail> {
        resolve_expr(alloc, catalog, scope, self)
    }

    fn is_same(&self, other: &Expr) -> bool {
        is_same_expr(self, other)
    }
}

impl Tree<List<RQuery>> for Query {
    ghost use Rattle.pl_scope.specs.Resolution.{resolved_query};

    ghost meaning = { resolved_query };

    fn resolve(
        &self,
        alloc: Global,
        catalog: &Catalog,
        scope: &Scope,
    ) -> Result<List<RQuery>, ScopeFail> {
        resolve_query(alloc, catalog, scope, self)
    }

    fn is_same(&self, other: &Query) -> bool {
        is_same_query(self, other)
    }
}

impl Tree<RChange> for Insert {
    ghost use Rattle.pl_targets.specs.Changes.{resolved_insert};

    ghost meaning = { resolved_insert };

    fn resolve(
        &self,
        alloc: Global,
        catalog: &Catalog,
        scope: &Scope,
    ) -> Result<RChange, ScopeFail> {
        resolve_insert(alloc, catalog, scope, self)
    }

    fn is_same(&self, other: &Insert) -> bool {
        is_same_insert(self, other)
    }
}

impl Tree<RChange> for Update {
    ghost use Rattle.pl_targets.specs.Changes.{resolved_update};

    ghost meaning = { resolved_update };

    fn resolve(
        &self,
        alloc: Global,
        catalog: &Catalog,
        scope: &Scope,
    ) -> Result<RChange, ScopeFail> {
        resolve_update(alloc, catalog, scope, self)
    }

    fn is_same(&self, other: &Update) -> bool {
        is_same_update(self, other)
    }
}

impl Tree<RChange> for Delete {
    ghost use Rattle.pl_targets.specs.Changes.{resolved_delete};

    ghost meaning = { resolved_delete };

    fn resolve(
        &self,
        alloc: Global,
        catalog: &Catalog,
        scope: &Scope,
    ) -> Result<RChange, ScopeFail> {
        resolve_delete(alloc, catalog, scope, self)
    }

    fn is_same(&self, other: &Delete) -> bool {
        is_same_delete(self, other)
    }
}

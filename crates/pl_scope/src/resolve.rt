//! The crate's two calls.

ghost use Rattle.pl_scope.specs.Resolution as spec;
ghost use Rattle.pl_typing.specs.Resolved.{Gives};

use crate::Made;
use crate::entering::inside;
use crate::expressions::expr;
use crate::queries::query;
use pl_base::List;
use pl_catalog::Catalog;
use pl_names::{Level, Scope};
use pl_resolved::RQuery;
use pl_tree::{Expr, Query};
use pl_typing::{ScopeFail, Typed};
use std::alloc::Global;

/// An expression, its type, and the queries inside it, which it names by their places in this list.
#[derive(Drop)]
pub struct ResolvedExpr {
    pub typed: Typed,
    pub queries: List<RQuery>,
}

/// The expression with places in place of names, and its type; or the SQLSTATE of its first failing
/// node in reading order.
pub fn resolve_expr(
    alloc: Global,
    catalog: &Catalog,
    scope: &Scope,
    e: &Expr,
) -> Result<ResolvedExpr, ScopeFail>
    ensures { Gives result (spec.resolved_expr catalog.now.objects scope.now e.now) }
{
    let none: [Level<'_>; 0] = [];
    let mut made = Made::new(alloc);
    let typed = expr(
        alloc,
        e,
        &inside(catalog, scope, &none, 1, 1, false),
        &mut made,
    )?;
    Ok(ResolvedExpr {
        typed,
        queries: made.queries,
    })
}

/// The queries of a query, each behind those inside it: the last one is the whole.
pub fn resolve_query(
    alloc: Global,
    catalog: &Catalog,
    scope: &Scope,
    q: &Query,
) -> Result<List<RQuery>, ScopeFail>
    ensures { Gives result (spec.resolved_query catalog.now.objects scope.now q.now) }
{
    let none: [Level<'_>; 0] = [];
    let mut made = Made::new(alloc);
    query(
        alloc,
        q,
        &inside(catalog, scope, &none, 1, 1, false),
        &mut made,
    )?;
    Ok(made.queries)
}

//! DEFAULT and CHECK: PostgreSQL manual, "Default Values", "Check Constraints".

ghost use Rattle.std.specs.Prelude.{◌≡◌, map, IfOk};
ghost use Rattle.pl_ddl.specs.Expressions as spec;
ghost use Rattle.pl_ddl.specs.Views.{FailsBy, column_view};
ghost use Rattle.pl_assigning.specs.pl_typing.Resolved.{Gives};

use crate::written::NewColumn;
use pl_assigning::assigned;
use pl_assigning::pl_typing::{ScopeFail, truth};
use pl_base::{Boxed, List, Name, State, Ty};
use pl_catalog::Catalog;
use pl_mentions::{Sought, mentions};
use pl_names::{Scope, Seen, Shape, Visible};
use pl_resolved::RExpr;
use pl_scope::{ResolvedExpr, resolve_expr};
use pl_tree::{ColumnRule, ColumnRuleKind, Element, Expr, TableRule};
use std::alloc::{AllocError, Global};

// ---- where they stand

fn nothing(alloc: Global) -> Scope
    ensures { result ≡ spec.nothing }
{
    Scope {
        frames: List::new(alloc),
        params: List::new(alloc),
    }
}

/// What a CHECK sees: the columns, alone or behind the table's name.
pub(crate) fn row_scope(
    alloc: Global,
    table: Name,
    columns: &[NewColumn<'_>],
) -> Result<Scope, AllocError>
    ensures { IfOk result (λ scope. scope ≡ spec.row_scope table (map column_view columns.now)) }
{
    let variables = variables_of(alloc, columns)?;
    let mut frames = List::new(alloc);
    frames.push(Visible {
        label: table,
        variables,
    })?;
    Ok(Scope {
        frames,
        params: List::new(alloc),
    })
}

#[tactic(auto, using(crate::proofs::Lists::pushed_one))]
fn variables_of(alloc: Global, mut columns: &[NewColumn<'_>]) -> Result<List<Seen>, AllocError>
    ensures { IfOk result (λ variables.
        variables ≡ map spec.seen (map column_view columns.entry.now)) }
{
    let mut variables = List::new(alloc);
    while let [column, rest @ ..] = columns {
        variables.push(Seen {
            name: *column.name,
            ty: *column.ty,
            shape: Shape::Plain,
        })?;
        columns = rest;
    }
    Ok(variables)
}

// ---- what they mean

// No object of the catalogue is known in them: what a table's text makes doesn't depend on the
// objects that there are.
fn alone(alloc: Global, scope: &Scope, e: &Expr) -> Result<ResolvedExpr, ScopeFail>
    ensures { Gives result (spec.alone scope.now e.now) }
{
    resolve_expr(alloc, &Catalog::new(alloc), scope, e)
}

/// The DEFAULT of a column of this type. 0A000 where it names a column or has a query, 42804 where
/// its value can't be assigned; else the SQLSTATE of the first failing node in reading order.
pub(crate) fn default_tree(alloc: Global, ty: &Ty, e: &Expr) -> Result<Boxed<RExpr>, ScopeFail>
    ensures { Gives result (spec.default_tree ty.now e.now) }
{
    if mentions(e, &Sought::NameOrQuery) {
        return Err(ScopeFail::State(State::FEATURE_NOT_SUPPORTED));
    }
    let ResolvedExpr {
        typed,
        queries: _none,
    } = alone(alloc, &nothing(alloc), e)?;
    assigned(alloc, typed, *ty)
}

/// The condition of a CHECK. 0A000 where it has a query, 42804 where it is no condition; else the
/// SQLSTATE of the first failing node in reading order.
pub(crate) fn check_tree(alloc: Global, scope: &Scope, e: &Expr) -> Result<Boxed<RExpr>, ScopeFail>
    ensures { Gives result (spec.check_tree scope.now e.now) }
{
    if mentions(e, &Sought::Query) {
        return Err(ScopeFail::State(State::FEATURE_NOT_SUPPORTED));
    }
    let ResolvedExpr {
        typed,
        queries: _none,
    } = alone(alloc, scope, e)?;
    truth(alloc, typed)
}

// ---- the first failure in reading order

/// Fails as the first DEFAULT or CHECK that fails.
pub(crate) fn judge_elements(
    alloc: Global,
    scope: &Scope,
    mut elements: &[Element],
) -> Result<(), ScopeFail>
    ensures { FailsBy result (spec.elements_failure scope.now elements.entry.now) }
{
    while let [element, rest @ ..] = elements {
        judge_element(alloc, scope, element)?;
        elements = rest;
    }
    Ok(())
}

fn judge_element(alloc: Global, scope: &Scope, element: &Element) -> Result<(), ScopeFail>
    ensures { FailsBy result (spec.element_failure scope.now element.now) }
{
    match element {
        Element::Column { ty, rules, .. } => judge_behind(alloc, scope, ty, rules.as_slice()),
        Element::Rule { rule, .. } => judge_whole(alloc, scope, rule),
    }
}

fn judge_behind(
    alloc: Global,
    scope: &Scope,
    ty: &Ty,
    mut rules: &[ColumnRule],
) -> Result<(), ScopeFail>
    ensures { FailsBy result (spec.behind_failure scope.now ty.now rules.entry.now) }
{
    while let [rule, rest @ ..] = rules {
        judge_rule(alloc, scope, ty, &rule.rule)?;
        rules = rest;
    }
    Ok(())
}

fn judge_rule(alloc: Global, scope: &Scope, ty: &Ty, rule: &ColumnRuleKind) -> Result<(), ScopeFail>
    ensures { FailsBy result (spec.rule_failure scope.now ty.now rule.now) }
{
    match rule {
        ColumnRuleKind::Default(e) => judge_default(alloc, ty, e),
        ColumnRuleKind::Check(e) => judge_check(alloc, scope, e),
        ColumnRuleKind::NotNull => Ok(()),
        ColumnRuleKind::Null => Ok(()),
        ColumnRuleKind::Unique => Ok(()),
        ColumnRuleKind::PrimaryKey => Ok(()),
        ColumnRuleKind::References { .. } => Ok(()),
    }
}

fn judge_whole(alloc: Global, scope: &Scope, rule: &TableRule) -> Result<(), ScopeFail>
    ensures { FailsBy result (spec.whole_failure scope.now rule.now) }
{
    match rule {
        TableRule::Check(e) => judge_check(alloc, scope, e),
        TableRule::Unique(_) => Ok(()),
        TableRule::PrimaryKey(_) => Ok(()),
        TableRule::ForeignKey { .. } => Ok(()),
    }
}

fn judge_default(alloc: Global, ty: &Ty, e: &Expr) -> Result<(), ScopeFail>
    ensures { FailsBy result (spec.failure_in (spec.default_tree ty.now e.now)) }
{
    match default_tree(alloc, ty, e) {
        Ok(_tree) => Ok(()),
        Err(fail) => Err(fail),
    }
}

fn judge_check(alloc: Global, scope: &Scope, e: &Expr) -> Result<(), ScopeFail>
    ensures { FailsBy result (spec.failure_in (spec.check_tree scope.now e.now)) }
{
    match check_tree(alloc, scope, e) {
        Ok(_tree) => Ok(()),
        Err(fail) => Err(fail),
    }
}

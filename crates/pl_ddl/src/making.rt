//! The table that CREATE TABLE makes.

ghost use Rattle.std.specs.Prelude.{◌≡◌, [], map, IfOk};
ghost use Rattle.std.specs.List.{position};
ghost use Rattle.std.specs.Option.{option_copied};
ghost use Rattle.pl_catalog.specs.Objects.{is_same};
ghost use Rattle.pl_ddl.specs.Definition as spec;
ghost use Rattle.pl_ddl.specs.Views.{asked_view, column_view, rule_view};
ghost use Rattle.pl_assigning.specs.pl_typing.Resolved.{Gives};

use crate::Defined;
use crate::expressions::{check_tree, default_tree, judge_elements, row_scope};
use crate::naming::rule_names;
use crate::refusals::{is_among, says_not_null, table_refusal};
use crate::written::{Asked, NewColumn, NewRule, columns_in, default_in, names_of, rules_in};
use pl_assigning::pl_typing::ScopeFail;
use pl_base::{Boxed, List, Name, State, Txt, Ty};
use pl_catalog::{Catalog, Column, Object, Rule, RuleKind, TableDef};
use pl_names::Scope;
use pl_resolved::RExpr;
use pl_tree::{Element, Expr};
use std::alloc::{AllocError, Global};

/// The table of these elements, or its first refusal.
pub(crate) fn new_table(
    alloc: Global,
    catalog: &Catalog,
    name: Name,
    text: Txt,
    elements: &[Element],
) -> Result<Defined, ScopeFail>
    ensures { Gives result (spec.new_table catalog.now.objects name text elements.now) }
{
    let columns = columns_in(alloc, elements)?;
    let rules = rules_in(alloc, elements)?;
    table_by(
        alloc,
        catalog,
        name,
        text,
        elements,
        columns.as_slice(),
        rules.as_slice(),
    )
}

fn table_by(
    alloc: Global,
    catalog: &Catalog,
    name: Name,
    text: Txt,
    elements: &[Element],
    columns: &[NewColumn<'_>],
    rules: &[NewRule<'_>],
) -> Result<Defined, ScopeFail>
    ensures { Gives result (spec.table_by catalog.now.objects name text elements.now
        (map column_view columns.now) (map rule_view rules.now)) }
{
    let listed = names_of(alloc, columns)?;
    let column_names = listed.as_slice();
    match table_refusal(catalog, columns, column_names, rules) {
        Some(state) => Err(ScopeFail::State(state)),
        None => named_table(alloc, name, text, elements, columns, column_names, rules),
    }
}

// The names of the rules, and then the expressions, in reading order, before the table is made.
fn named_table(
    alloc: Global,
    name: Name,
    text: Txt,
    elements: &[Element],
    columns: &[NewColumn<'_>],
    column_names: &[Name],
    rules: &[NewRule<'_>],
) -> Result<Defined, ScopeFail>
    ensures { Gives result (spec.named_table name text elements.now
        (map column_view columns.now) column_names.now (map rule_view rules.now)) }
{
    let names = rule_names(alloc, name, column_names, rules)?;
    let scope = row_scope(alloc, name, columns)?;
    judge_elements(alloc, &scope, elements)?;
    let key = key_of(alloc, rules)?;
    let columns = columns_from(alloc, key.as_slice(), columns)?;
    let rules = rules_from(alloc, &scope, column_names, rules, names.as_slice())?;
    Ok(Defined::Add(Object::Table(TableDef {
        name,
        text,
        columns,
        rules,
    })))
}

// The columns of the primary key.
#[tactic(auto, using(crate::proofs::Lists::further))]
fn key_of(alloc: Global, mut rules: &[NewRule<'_>]) -> Result<Vec<Name>, AllocError>
    ensures { IfOk result (λ key. key.items ≡ spec.key_of (map rule_view rules.entry.now)) }
{
    let mut key = Vec::new(alloc);
    while let [rule, rest @ ..] = rules {
        key.extend_from_slice(primary_columns(&rule.asks))?;
        rules = rest;
    }
    Ok(key)
}

fn primary_columns<'a>(asks: &Asked<'a>) -> &'a [Name]
    ensures { result.now ≡ spec.primary_columns (asked_view asks.now) }
{
    match asks {
        Asked::Primary(columns) => *columns,
        Asked::Check(_) => &[],
        Asked::Unique(_) => &[],
        Asked::Foreign(_) => &[],
    }
}

// ---- columns

fn columns_from(
    alloc: Global,
    key: &[Name],
    mut columns: &[NewColumn<'_>],
) -> Result<List<Column>, ScopeFail>
    ensures { Gives result (spec.columns_from key.now [] (map column_view columns.entry.now)) }
{
    let mut made = List::new(alloc);
    while let [column, rest @ ..] = columns {
        made.push(made_column(alloc, key, column)?)?;
        columns = rest;
    }
    Ok(made)
}

fn made_column(alloc: Global, key: &[Name], column: &NewColumn<'_>) -> Result<Column, ScopeFail>
    ensures { Gives result (spec.made_column key.now (column_view column.now)) }
{
    let default = default_of(alloc, column.ty, default_in(column.rules))?;
    Ok(Column {
        name: *column.name,
        ty: *column.ty,
        is_not_null: says_not_null(column.rules) || is_among(column.name, key),
        default,
    })
}

fn default_of(alloc: Global, ty: &Ty, e: Option<&Expr>) -> Result<Option<Boxed<RExpr>>, ScopeFail>
    ensures { Gives result (spec.default_of ty.now (option_copied e.entry)) }
{
    match e {
        None => Ok(None),
        Some(e) => Ok(Some(default_tree(alloc, ty, e)?)),
    }
}

// ---- rules

fn rules_from(
    alloc: Global,
    scope: &Scope,
    columns: &[Name],
    mut rules: &[NewRule<'_>],
    mut names: &[Name],
) -> Result<List<Rule>, ScopeFail>
    ensures { Gives result (spec.rules_from scope.now columns.now []
        (map rule_view rules.entry.now) names.entry.now) }
{
    let mut made = List::new(alloc);
    while let [rule, more @ ..] = rules {
        let Some((name, others)) = names.split_first() else {
            return Ok(made);
        };
        made.push(made_rule(alloc, scope, columns, rule, name)?)?;
        rules = more;
        names = others;
    }
    Ok(made)
}

fn made_rule(
    alloc: Global,
    scope: &Scope,
    columns: &[Name],
    rule: &NewRule<'_>,
    name: &Name,
) -> Result<Rule, ScopeFail>
    ensures { Gives result (spec.made_rule scope.now columns.now (rule_view rule.now) name.now) }
{
    Ok(Rule {
        name: *name,
        kind: made_kind(alloc, scope, columns, &rule.asks)?,
    })
}

fn made_kind(
    alloc: Global,
    scope: &Scope,
    columns: &[Name],
    asks: &Asked<'_>,
) -> Result<RuleKind, ScopeFail>
    ensures { Gives result (spec.made_kind scope.now columns.now (asked_view asks.now)) }
{
    match asks {
        Asked::Check(e) => Ok(RuleKind::Check(check_tree(alloc, scope, e)?.into_inner())),
        Asked::Primary(key) => Ok(RuleKind::Primary(places(alloc, columns, key)?)),
        Asked::Unique(key) => Ok(RuleKind::Unique(places(alloc, columns, key)?)),
        Asked::Foreign(_) => Err(ScopeFail::State(State::FEATURE_NOT_SUPPORTED)),
    }
}

// The columns by their places, from 0.
#[tactic(auto, using(crate::proofs::Lists::pushed_one))]
fn places(alloc: Global, columns: &[Name], mut key: &[Name]) -> Result<List<usize>, AllocError>
    ensures { IfOk result (λ places. places ≡ spec.places columns.now key.entry.now) }
{
    let mut made = List::new(alloc);
    while let [name, rest @ ..] = key {
        made.push(place_of(columns, name))?;
        key = rest;
    }
    Ok(made)
}

fn place_of(columns: &[Name], name: &Name) -> usize
    ensures { result ≡ spec.place_of columns.now name.now }
{
    match position_of(columns, name) {
        Some(place) => place,
        None => columns.len(),
    }
}

fn position_of(columns: &[Name], name: &Name) -> Option<usize>
    ensures { result ≡ position (λ column. is_same column name.now) columns.now }
{
    columns.iter().position(|column| *column == *name)
}
